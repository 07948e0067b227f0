// The contracts of values, ids, units, scopes and refusals once more, each over its call: wrong programs are edits of these.
#![tactic(auto)]

ghost use Rattle.std.specs.Prelude.{◌≡◌};
ghost use Rattle.value.specs.Values.{value_of, lower};
ghost use Rattle.text.specs.Texts.{spelled};
ghost use Rattle.idcode.specs.Id.{parse_id};
ghost use Rattle.text.specs.Bytes.{bytes};
ghost use Rattle.scope.specs.Types.{var_name};
ghost use Rattle.scope.specs.Index.{parse_index};
ghost use Rattle.command.specs.Refusals.{number_of};

use command::Refusal;
use idcode::{IdCode, InvalidIdCode};
use scope::{ReferenceIndex, VarType};
use text::Spelled;
use value::Value;

pub fn value_parse(v: u8) -> Option<Value>
    ensures { result ≡ value_of v }
{
    Value::parse(v)
}

pub fn lowered(b: u8) -> u8
    ensures { result ≡ lower b }
{
    value::vector::lowered(b)
}

pub fn id_from_str(s: &[u8]) -> Result<IdCode, InvalidIdCode>
    ensures { result ≡ parse_id s.now }
{
    IdCode::from_str(s)
}

pub fn var_type_spell(t: VarType) -> Spelled
    ensures { result ≡ spelled (bytes (var_name t)) }
{
    t.spell()
}

pub fn index_from_str(s: &[u8]) -> Option<ReferenceIndex>
    ensures { result ≡ parse_index s.now }
{
    ReferenceIndex::from_str(s)
}

pub fn number(e: Refusal) -> u64
    ensures { result ≡ number_of e }
{
    e.number()
}
