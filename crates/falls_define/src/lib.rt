// The contracts of writing definitions once more, each over its call: wrong programs are edits of these.
#![tactic(auto)]

ghost use Rattle.write.specs.Call.{call, Does};
ghost use Rattle.std.specs.Prelude.{[]};

use command::Command;
use idcode::IdCode;
use scope::{ReferenceIndex, ScopeType, VarType};
use text::Text;
use timescale::TimescaleUnit;
use write::{Writer, Written};

pub fn timescale(w: Writer, ts: u32, unit: TimescaleUnit, out: &mut [u8]) -> Written
    ensures { Does result out.new (call w [] (Command.Timescale ts unit) out.old) }
{
    w.timescale(ts, unit, out)
}

pub fn scope_def(w: Writer, src: &[u8], t: ScopeType, i: Text, out: &mut [u8]) -> Written
    ensures { Does result out.new (call w src.now (Command.ScopeDef t i) out.old) }
{
    w.scope_def(src, t, i, out)
}

pub fn var_def(
    w: Writer,
    src: &[u8],
    var_type: VarType,
    width: u32,
    id: IdCode,
    reference: Text,
    index: ReferenceIndex,
    out: &mut [u8],
) -> Written
    ensures { Does result out.new (call w src.now (Command.VarDef var_type width id reference index) out.old) }
{
    w.var_def(src, var_type, width, id, reference, index, out)
}
