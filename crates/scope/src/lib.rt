// Scopes and variables: types, indexes and the record of a variable (scope.rs of vcd 0.7.0).
#![tactic(auto)]

mod names;

ghost use Rattle.std.specs.Prelude.{◌≡◌, length, take, ◌≤◌};
ghost use Rattle.text.specs.Bytes.{bytes, equal};
ghost use Rattle.text.specs.Texts.{spelled};
ghost use Rattle.scope.specs.Types.{scope_name, parse_scope_type, var_name, parse_var_type, var_entries};
ghost use Rattle.scope.specs.Numbers.{scope_number, scope_type_of, var_number, var_type_of};
ghost use Rattle.scope.specs.Index.{parse_index, index_text, padded, up_to_byte, parse_inside};

use idcode::IdCode;
use text::{Spelled, Text};

// A type of scope, as used in the `$scope` command.
#[derive(Clone, Copy)]
pub enum ScopeType {
    Module,
    Task,
    Function,
    Begin,
    Fork,
}

impl ScopeType {
    #[tactic(auto, using(text::proofs::Names::hit, text::proofs::Names::miss, text::proofs::Names::ended), unfolding(crate::specs::Types::parse_scope_type))]
    pub fn from_str(s: &[u8]) -> Option<ScopeType>
        ensures { result ≡ parse_scope_type s.now }
    {
        if text::equals(s, &names::MODULE) {
            return Some(ScopeType::Module);
        }
        if text::equals(s, &names::TASK) {
            return Some(ScopeType::Task);
        }
        if text::equals(s, &names::FUNCTION) {
            return Some(ScopeType::Function);
        }
        if text::equals(s, &names::BEGIN) {
            return Some(ScopeType::Begin);
        }
        if text::equals(s, &names::FORK) {
            return Some(ScopeType::Fork);
        }
        None
    }

    pub fn spell(self) -> Spelled
        ensures { result ≡ spelled (bytes (scope_name self)) }
    {
        match self {
            ScopeType::Module => text::spell(&names::MODULE),
            ScopeType::Task => text::spell(&names::TASK),
            ScopeType::Function => text::spell(&names::FUNCTION),
            ScopeType::Begin => text::spell(&names::BEGIN),
            ScopeType::Fork => text::spell(&names::FORK),
        }
    }

    // The type's place in the order above, from 0.
    pub fn number(self) -> u64
        ensures { result ≡ scope_number self }
    {
        self as u64
    }

    // The type of a number; numbers past the last mean the last.
    #[tactic(auto, unfolding(crate::specs::Numbers::scope_type_of))]
    pub fn from_number(n: u64) -> ScopeType
        ensures { result ≡ scope_type_of n }
    {
        match n {
            0 => ScopeType::Module,
            1 => ScopeType::Task,
            2 => ScopeType::Function,
            3 => ScopeType::Begin,
            _ => ScopeType::Fork,
        }
    }
}

// A type of variable, as used in the `$var` command.
#[derive(Clone, Copy)]
pub enum VarType {
    Event,
    Integer,
    Parameter,
    Real,
    Reg,
    Supply0,
    Supply1,
    Time,
    Tri,
    TriAnd,
    TriOr,
    TriReg,
    Tri0,
    Tri1,
    WAnd,
    Wire,
    WOr,
    String,
}

// A type, its name and how many bytes that has; after the name stand zeros.
#[derive(Clone, Copy)]
pub struct VarName {
    pub var_type: VarType,
    pub name: [u8; 9],
    pub len: usize,
}

// The names of the variable types, in the crate's order: the seventeen of IEEE 1364, and `string`. Reading and writing look here.
pub const VAR_TYPES: [VarName; 18] = [
    VarName {
        var_type: VarType::Event,
        name: *b"event\0\0\0\0",
        len: 5,
    },
    VarName {
        var_type: VarType::Integer,
        name: *b"integer\0\0",
        len: 7,
    },
    VarName {
        var_type: VarType::Parameter,
        name: *b"parameter",
        len: 9,
    },
    VarName {
        var_type: VarType::Real,
        name: *b"real\0\0\0\0\0",
        len: 4,
    },
    VarName {
        var_type: VarType::Reg,
        name: *b"reg\0\0\0\0\0\0",
        len: 3,
    },
    VarName {
        var_type: VarType::Supply0,
        name: *b"supply0\0\0",
        len: 7,
    },
    VarName {
        var_type: VarType::Supply1,
        name: *b"supply1\0\0",
        len: 7,
    },
    VarName {
        var_type: VarType::Time,
        name: *b"time\0\0\0\0\0",
        len: 4,
    },
    VarName {
        var_type: VarType::Tri,
        name: *b"tri\0\0\0\0\0\0",
        len: 3,
    },
    VarName {
        var_type: VarType::TriAnd,
        name: *b"triand\0\0\0",
        len: 6,
    },
    VarName {
        var_type: VarType::TriOr,
        name: *b"trior\0\0\0\0",
        len: 5,
    },
    VarName {
        var_type: VarType::TriReg,
        name: *b"trireg\0\0\0",
        len: 6,
    },
    VarName {
        var_type: VarType::Tri0,
        name: *b"tri0\0\0\0\0\0",
        len: 4,
    },
    VarName {
        var_type: VarType::Tri1,
        name: *b"tri1\0\0\0\0\0",
        len: 4,
    },
    VarName {
        var_type: VarType::WAnd,
        name: *b"wand\0\0\0\0\0",
        len: 4,
    },
    VarName {
        var_type: VarType::Wire,
        name: *b"wire\0\0\0\0\0",
        len: 4,
    },
    VarName {
        var_type: VarType::WOr,
        name: *b"wor\0\0\0\0\0\0",
        len: 3,
    },
    VarName {
        var_type: VarType::String,
        name: *b"string\0\0\0",
        len: 6,
    },
];

// Places of the two most usual types in the list.
pub const REG: usize = 4;

pub const WIRE: usize = 15;

// The list by value. Each mention of it lays it out anew, so a call takes it once.
fn var_types() -> [VarName; 18]
    ensures { result ≡ var_entries }
{
    VAR_TYPES
}

// Whether an entry's name is `s`. The entry is lent: the processor waits for a copy of what was stored just before.
fn is_named(e: &VarName, s: &[u8]) -> bool
    requires { e.now.len ≤ length e.now.name }
    ensures { result ≡ equal s.now (take e.now.len e.now.name) }
{
    text::equals(s, &e.name[..e.len])
}

impl VarType {
    pub fn from_str(s: &[u8]) -> Option<VarType>
        ensures { result ≡ parse_var_type s.now }
    {
        let list = var_types();
        for e in &list {
            if is_named(e, s) {
                return Some(e.var_type);
            }
        }
        None
    }

    pub fn spell(self) -> Spelled
        ensures { result ≡ spelled (bytes (var_name self)) }
    {
        let list = var_types();
        let e = list[self.number() as usize];
        text::spell(&e.name[..e.len])
    }

    // The type's place in the list, from 0.
    pub fn number(self) -> u64
        ensures { result ≡ var_number self }
    {
        self as u64
    }

    // The type of a number; numbers past the last mean the last.
    #[tactic(auto, unfolding(crate::specs::Numbers::var_type_of))]
    pub fn from_number(n: u64) -> VarType
        ensures { result ≡ var_type_of n }
    {
        match n {
            0 => VarType::Event,
            1 => VarType::Integer,
            2 => VarType::Parameter,
            3 => VarType::Real,
            4 => VarType::Reg,
            5 => VarType::Supply0,
            6 => VarType::Supply1,
            7 => VarType::Time,
            8 => VarType::Tri,
            9 => VarType::TriAnd,
            10 => VarType::TriOr,
            11 => VarType::TriReg,
            12 => VarType::Tri0,
            13 => VarType::Tri1,
            14 => VarType::WAnd,
            15 => VarType::Wire,
            16 => VarType::WOr,
            _ => VarType::String,
        }
    }
}

// Index of a variable's reference: none, a bit `[n]` or a range `[n:m]`.
#[derive(Clone, Copy)]
pub enum ReferenceIndex {
    None,
    BitSelect(i32),
    Range(i32, i32),
}

impl ReferenceIndex {
    #[tactic(auto, using(crate::proofs::Splitting::brackets))]
    pub fn from_str(s: &[u8]) -> Option<ReferenceIndex>
        ensures { result ≡ parse_index s.now }
    {
        let [b'[', inside @ .., b']'] = s else {
            return None;
        };
        ReferenceIndex::from_inside(inside)
    }

    // What stands between the brackets: a number, or two split at the first colon.
    #[tactic(auto, using(crate::proofs::Splitting::at_colon))]
    fn from_inside(s: &[u8]) -> Option<ReferenceIndex>
        ensures { result ≡ parse_inside s.now }
    {
        let colon = find_colon(s);
        if colon == s.len() {
            let n = number_in(s)?;
            return Some(ReferenceIndex::BitSelect(n));
        }
        let msb = number_in(&s[..colon])?;
        let lsb = number_in(&s[colon + 1..])?;
        Some(ReferenceIndex::Range(msb, lsb))
    }

    pub fn spell(self) -> Spelled
        ensures { result ≡ spelled (index_text self) }
    {
        match self {
            ReferenceIndex::None => text::spell(b""),
            ReferenceIndex::BitSelect(n) => spell_bit(n),
            ReferenceIndex::Range(msb, lsb) => spell_range(msb, lsb),
        }
    }
}

// The place of the first colon, or the text's length where there is none.
fn find_colon(s: &[u8]) -> usize
    ensures { result ≡ length (up_to_byte 58 s.now) }
{
    s.iter().position(|&b| b == b':').unwrap_or(s.len())
}

// A number with White_Space round it.
#[tactic(auto, unfolding(crate::specs::Index::padded))]
fn number_in(s: &[u8]) -> Option<i32>
    ensures { result ≡ padded s.now }
{
    number::parse_i32(text::part(s, white_space::trim(s)))
}

// `[n]`
fn spell_bit(n: i32) -> Spelled
    ensures { result ≡ spelled (index_text (ReferenceIndex.BitSelect n)) }
{
    let end = text::join(number::decimal_i32(n), text::spell(b"]"));
    text::join(text::spell(b"["), end)
}

// `[n:m]`
fn spell_range(msb: i32, lsb: i32) -> Spelled
    ensures { result ≡ spelled (index_text (ReferenceIndex.Range msb lsb)) }
{
    let low = text::join(text::spell(b":"), number::decimal_i32(lsb));
    let both = text::join(number::decimal_i32(msb), low);
    let end = text::join(both, text::spell(b"]"));
    text::join(text::spell(b"["), end)
}

// Information on a variable as represented by a `$var` command.
#[derive(Clone, Copy)]
pub struct Var {
    pub var_type: VarType,
    pub size: u32,
    pub code: IdCode,
    pub reference: Text,
    pub index: ReferenceIndex,
}

impl Var {
    pub fn new(
        var_type: VarType,
        size: u32,
        code: IdCode,
        reference: Text,
        index: ReferenceIndex,
    ) -> Var
        ensures { result ≡ record { var_type = var_type; size = size; code = code; reference = reference; index = index } }
    {
        Var {
            var_type,
            size,
            code,
            reference,
            index,
        }
    }
}
