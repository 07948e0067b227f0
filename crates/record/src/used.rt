// Which words of a record a kind uses.
ghost use Rattle.std.specs.Prelude.{◌≡◌};
ghost use Rattle.record.specs.Used.{is_used, number_most, amount_most, has_code, has_text};

use crate::RecordWords;

// Whether a kind other than a variable's uses type, amount, code and text so.
pub fn is_used(w: RecordWords) -> bool
    ensures { result ≡ is_used w }
{
    let kind = w.kind;
    if kind < crate::COMMENT || crate::END < kind {
        return false;
    }
    if number_most(kind) < w.number {
        return false;
    }
    if amount_most(kind) < w.amount {
        return false;
    }
    if w.code != 0 && !has_code(kind) {
        return false;
    }
    (w.start == 0 && w.len == 0) || has_text(kind)
}

// The largest number of a kind's type.
fn number_most(kind: u64) -> u64
    ensures { result ≡ number_most kind }
{
    match kind {
        crate::TIMESCALE => 5,
        crate::SCOPE => 4,
        crate::SCALAR => 3,
        crate::BEGIN | crate::END => 3,
        _ => 0,
    }
}

// The largest amount of a kind.
fn amount_most(kind: u64) -> u64
    ensures { result ≡ amount_most kind }
{
    match kind {
        crate::TIMESCALE => 4294967295,
        crate::TIMESTAMP => 18446744073709551615,
        _ => 0,
    }
}

// Whether a kind has an id code: the changes have.
fn has_code(kind: u64) -> bool
    ensures { result ≡ has_code kind }
{
    crate::SCALAR <= kind && kind <= crate::STRING
}

fn has_text(kind: u64) -> bool
    ensures { result ≡ has_text kind }
{
    kind <= crate::VERSION
        || kind == crate::SCOPE
        || (crate::VECTOR <= kind && kind <= crate::STRING)
}
