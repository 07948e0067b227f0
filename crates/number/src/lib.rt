// Numbers as texts, as Rust's FromStr and Display have them: decimal integers.
#![tactic(auto)]

ghost use Rattle.std.specs.Prelude.{◌≡◌, ◌+◌, ◌^◌, length};
ghost use Rattle.text.specs.Texts.{spelled, put_answer, put_bytes};
ghost use Rattle.number.specs.Decimal.{
  parse_below,
  digits_below,
  narrow,
  Below,
  plain,
  negated,
  parse_signed,
  decimal_of,
  signed_of,
};

use text::Spelled;

pub fn parse_u32(s: &[u8]) -> Option<u32>
    ensures { result ≡ narrow (parse_below (2 ^ 32) s.now) }
{
    let v = parse_most(s, u32::MAX as u64)?;
    Some(v as u32)
}

pub fn parse_u64(s: &[u8]) -> Option<u64>
    ensures { result ≡ parse_below (2 ^ 64) s.now }
{
    parse_most(s, u64::MAX)
}

// The number that a text means, where that is at most `most`.
pub fn parse_most(s: &[u8], most: u64) -> Option<u64>
    ensures { result ≡ parse_below (most + 1) s.now }
{
    digits_most(s.strip_prefix(b"+").unwrap_or(s), most)
}

// The same of digits alone.
fn digits_most(s: &[u8], most: u64) -> Option<u64>
    ensures { result ≡ digits_below (most + 1) s.now }
{
    if s.is_empty() {
        return None;
    }
    let mut v: u64 = 0;
    for &b in s {
        if b < b'0' || b'9' < b {
            return None;
        }
        let d = (b - b'0') as u64;
        if most < d || (most - d) / 10 < v {
            return None;
        }
        v = v * 10 + d;
    }
    Some(v)
}

// The same with an optional sign, as Rust's from_str for i32.
pub fn parse_i32(s: &[u8]) -> Option<i32>
    ensures { result ≡ parse_signed s.now }
{
    match s.strip_prefix(b"-") {
        Some(digits) => below_zero(digits_most(digits, 2147483648)),
        None => from_zero(parse_most(s, 2147483647)),
    }
}

fn from_zero(n: Option<u64>) -> Option<i32>
    requires { Below (2 ^ 31) n }
    ensures { result ≡ plain n }
{
    let v = n?;
    Some(v as i32)
}

fn below_zero(n: Option<u64>) -> Option<i32>
    requires { Below (2 ^ 31 + 1) n }
    ensures { result ≡ negated n }
{
    let v = n?;
    Some((0 - (v as i64)) as i32)
}

// How many digits a number has: the number drives the loop, and there is no list to go over.
pub fn digits(n: u64) -> usize
    ensures { result ≡ length (decimal_of n) }
{
    let mut rest = n;
    let mut count: usize = 1;
    while 10 <= rest {
        rest = rest / 10;
        count += 1;
    }
    count
}

// The text of a number, with no needless zero in front.
pub fn decimal(n: u64) -> Spelled
    ensures { result ≡ spelled (decimal_of n) }
{
    let len = digits(n);
    let mut bytes = [0u8; 32];
    let mut rest = n;
    for i in (0..len).rev() {
        bytes[i] = 48 + (rest % 10) as u8;
        rest = rest / 10;
    }
    Spelled { bytes, len }
}

// The text of a number, put at the start of `out`.
pub fn put_decimal(n: u64, out: &mut [u8]) -> Option<usize>
    ensures { (result ≡ put_answer (decimal_of n) out.old) × (out.new ≡ put_bytes (decimal_of n) out.old) }
{
    let len = digits(n);
    if out.len() < len {
        return None;
    }
    let mut rest = n;
    for i in (0..len).rev() {
        out[i] = 48 + (rest % 10) as u8;
        rest = rest / 10;
    }
    Some(len)
}

// The text of a number with a sign.
pub fn decimal_i32(n: i32) -> Spelled
    ensures { result ≡ spelled (signed_of n) }
{
    let size = decimal(n.unsigned_abs() as u64);
    if 0 <= n {
        return size;
    }
    text::join(text::spell(b"-"), size)
}
