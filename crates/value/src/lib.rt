// Values: four-state logic (value.rs of vcd 0.7.0). Vectors, in a module of their own, are texts of values.
#![tactic(auto)]

pub mod vector;

ghost use Rattle.std.specs.Prelude.{◌≡◌};
ghost use Rattle.value.specs.Values.{value_of, value_text, value_byte};
ghost use Rattle.value.specs.Numbers.{value_number, value_for, number_meant};

// A four-valued logic scalar value.
#[derive(Clone, Copy)]
pub enum Value {
    V0,
    V1,
    X,
    Z,
}

impl Value {
    #[tactic(auto, unfolding(crate::specs::Values::value_of, text::specs::Bytes::has))]
    pub fn parse(v: u8) -> Option<Value>
        ensures { result ≡ value_of v }
    {
        match v {
            b'0' => Some(Value::V0),
            b'1' => Some(Value::V1),
            b'x' | b'X' => Some(Value::X),
            b'z' | b'Z' => Some(Value::Z),
            _ => None,
        }
    }

    pub fn from_str(s: &[u8]) -> Option<Value>
        ensures { result ≡ value_text s.now }
    {
        match s {
            [b] => Value::parse(*b),
            _ => None,
        }
    }

    // The byte that a value is written as.
    pub fn byte(self) -> u8
        ensures { result ≡ value_byte self }
    {
        match self {
            Value::V0 => b'0',
            Value::V1 => b'1',
            Value::X => b'x',
            Value::Z => b'z',
        }
    }

    // The value's place in the order above, from 0.
    pub fn number(self) -> u64
        ensures { result ≡ value_number self }
    {
        self as u64
    }

    // The number of the value that a byte means; the last value's where it means none.
    #[tactic(auto, unfolding(crate::specs::Values::value_of, text::specs::Bytes::has))]
    pub fn number_at(b: u8) -> u64
        ensures { result ≡ number_meant (value_of b) }
    {
        if b / 2 == 24 {
            return (b as u64) - 48;
        }
        match b {
            b'x' | b'X' => 2,
            _ => 3,
        }
    }

    // The value of a number; numbers past the last mean the last.
    #[tactic(auto, unfolding(crate::specs::Numbers::value_for))]
    pub fn from_number(n: u64) -> Value
        ensures { result ≡ value_for n }
    {
        match n {
            0 => Value::V0,
            1 => Value::V1,
            2 => Value::X,
            _ => Value::Z,
        }
    }
}

// `true` is `V1`, `false` is `V0`.
impl From<bool> for Value {
    ghost use Rattle.value.specs.Values.{of_bool};

    ghost from_gives = { λ v r. r ≡ of_bool v };

    fn from(v: bool) -> Value {
        if v { Value::V1 } else { Value::V0 }
    }
}
