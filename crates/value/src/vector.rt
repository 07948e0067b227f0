// Vectors of values: texts, whose bytes the caller lends.
ghost use Rattle.std.specs.Prelude.{◌≡◌, length};
ghost use Rattle.text.specs.Texts.{put_answer, put_bytes};
ghost use Rattle.value.specs.Values.{is_value, are_values, bit_at, lower, lower_answer, lower_bytes, filled_with};

use crate::Value;

// How many bytes were written at a buffer's start. In the other cases nothing changed.
#[derive(Clone, Copy)]
pub enum Written {
    Count(usize),
    InvalidValue,
    NoRoom,
}

// Whether a byte means a value: `0` and `1`, which are 48 and 49, come first.
#[tactic(auto, unfolding(crate::specs::Values::is_value, text::specs::Bytes::has))]
pub fn is_value(b: u8) -> bool
    ensures { result ≡ is_value b }
{
    b / 2 == 24 || matches!(b, b'x' | b'z' | b'X' | b'Z')
}

// Whether each byte means a value. As in the crate, a vector may be empty.
pub fn is_vector(s: &[u8]) -> bool
    ensures { result ≡ are_values s.now }
{
    s.iter().all(|&b| is_value(b))
}

// The number of bits in the vector.
pub fn len(s: &[u8]) -> usize
    ensures { result ≡ length s.now }
{
    s.len()
}

// A bit of the vector by index; none where there is no value.
#[tactic(auto, unfolding(crate::specs::Values::bit_at))]
pub fn get(s: &[u8], i: usize) -> Option<Value>
    ensures { result ≡ bit_at s.now i }
{
    Value::parse(*s.get(i)?)
}

// A value's byte in lower case.
#[tactic(auto, unfolding(crate::specs::Values::lower))]
pub fn lowered(b: u8) -> u8
    ensures { result ≡ lower b }
{
    match b {
        b'X' => b'x',
        b'Z' => b'z',
        _ => b,
    }
}

// Writes the vector, in lower case, at the start of `out`.
pub fn write_lower(s: &[u8], out: &mut [u8]) -> Written
    ensures { (result ≡ lower_answer s.now out.old) × (out.new ≡ lower_bytes s.now out.old) }
{
    if !is_vector(s) {
        return Written::InvalidValue;
    }
    if out.len() < s.len() {
        return Written::NoRoom;
    }
    for (i, &b) in s.iter().enumerate() {
        out[i] = lowered(b);
    }
    Written::Count(s.len())
}

// Writes a vector of `width` bits of the value `v` at the start of `out`.
pub fn filled(v: Value, width: usize, out: &mut [u8]) -> Option<usize>
    ensures { (result ≡ put_answer (filled_with v width) out.old) × (out.new ≡ put_bytes (filled_with v width) out.old) }
{
    if out.len() < width {
        return None;
    }
    out[..width].fill(v.byte());
    Some(width)
}

// Writes a vector of `width` zeros at the start of `out`.
pub fn zeros(width: usize, out: &mut [u8]) -> Option<usize>
    ensures { (result ≡ put_answer (filled_with Value.V0 width) out.old) × (out.new ≡ put_bytes (filled_with Value.V0 width) out.old) }
{
    filled(Value::V0, width, out)
}
