// The form of a real's text: an optional sign, then a name or digits with at most one point, then an optional exponent.
#![tactic(auto)]

ghost use Rattle.std.specs.Prelude.{◌≡◌, length};
ghost use Rattle.real.specs.Real.{is_real, is_named, is_decimal, is_exponent, digits_in, unsigned as unsigned_of};

// Whether a text has the form of a real, as Rust's from_str for f64 takes it.
#[tactic(auto, unfolding(crate::specs::Real::is_real))]
pub fn is_real(s: &[u8]) -> bool
    ensures { result ≡ is_real s.now }
{
    let rest = unsigned(s);
    is_named(rest) || is_decimal(rest)
}

// The text behind a sign, or all of it where it has none.
#[tactic(auto, unfolding(crate::specs::Real::unsigned, text::specs::Bytes::has))]
fn unsigned(s: &[u8]) -> &[u8]
    ensures { result.now ≡ unsigned_of s.now }
{
    match s {
        [b'+' | b'-', rest @ ..] => rest,
        _ => s,
    }
}

// `inf`, `infinity` or `nan`, in any letter case.
#[tactic(auto, unfolding(crate::specs::Real::is_named))]
fn is_named(s: &[u8]) -> bool
    ensures { result ≡ is_named s.now }
{
    s.eq_ignore_ascii_case(b"inf")
        || s.eq_ignore_ascii_case(b"infinity")
        || s.eq_ignore_ascii_case(b"nan")
}

// How many digits a text begins with.
pub fn count_digits(s: &[u8]) -> usize
    ensures { result ≡ length (digits_in s.now) }
{
    s.iter()
        .position(|b| !b.is_ascii_digit())
        .unwrap_or(s.len())
}

// Digits with at most one point and at least one digit, then an exponent or nothing.
#[tactic(auto, using(crate::proofs::Reals::digits_within, crate::proofs::Reals::some_counted), unfolding(crate::specs::Real::is_decimal, crate::specs::Real::is_rest))]
fn is_decimal(s: &[u8]) -> bool
    ensures { result ≡ is_decimal s.now }
{
    let whole = count_digits(s);
    match &s[whole..] {
        [] => 0 < whole,
        [b'.', rest @ ..] => {
            let part = count_digits(rest);
            0 < whole + part && is_exponent(&rest[part..])
        }
        rest => 0 < whole && is_exponent(rest),
    }
}

// Nothing, or `e` or `E`, an optional sign and at least one digit.
#[tactic(auto, unfolding(crate::specs::Real::is_exponent, text::specs::Bytes::has))]
fn is_exponent(s: &[u8]) -> bool
    ensures { result ≡ is_exponent s.now }
{
    match s {
        [] => true,
        [b'e' | b'E', rest @ ..] => {
            let digits = unsigned(rest);
            !digits.is_empty() && count_digits(digits) == digits.len()
        }
        _ => false,
    }
}
