// The fast path of loops that read many commands: a timestamp, or a change of a scalar or of a vector, in its usual form at a place. A
// hit is held to what reading from there gives. Callers hand over valid cursors and leave a miss to `parser::next_command`.
#![tactic(auto)]

ghost use Rattle.std.specs.Prelude.{◌≡◌, ◌+◌, ◌*◌, ◌<◌, ◌≤◌, true, length, take, drop, slice_index};
ghost use Rattle.text.specs.Bytes.{is_blank};
ghost use Rattle.number.specs.Decimal.{value};
ghost use Rattle.value.specs.Values.{is_value};
ghost use Rattle.parser_part.specs.Plan.{kind_of};
ghost use Rattle.parser_part.specs.declared.Kind.{Kind};
ghost use Rattle.fast.specs.Fast.{Hits, Short, EightDigits};
ghost use Rattle.text.specs.Texts.{limit};

use parser_part::word;

// A hit, with the place of the blank that ends the command: a time; a change of a scalar with the id's code; or a change of a vector with
// the id's code and the end of its values, which begin after the first byte.
#[derive(Clone, Copy)]
pub enum Fast {
    Time(u64, usize),
    Scalar(u64, usize),
    Vector(u64, usize, usize),
    Miss,
}

pub fn parse_timestamp(input: &[u8], at: usize) -> Fast
    requires at_in_bounds { at < length input.now }
    requires input_len_bound { length input.now ≤ limit }
    requires at_value { kind_of (slice_index input.now at) ≡ Kind.Hash }
    ensures { Hits input.now at result × Short at result }
{
    match word::fast_number(input, at + 1) {
        Some((t, end)) => Fast::Time(t, end),
        None => Fast::Miss,
    }
}

pub fn parse_scalar(input: &[u8], at: usize) -> Fast
    requires at_in_bounds { at < length input.now }
    requires input_len_bound { length input.now ≤ limit }
    requires at_value { is_value (slice_index input.now at) ≡ true }
    ensures { Hits input.now at result }
{
    match word::fast_id(input, at + 1) {
        Some((i, end)) => Fast::Scalar(i, end),
        None => Fast::Miss,
    }
}

// One space stands between the values and the id.
pub fn parse_vector(input: &[u8], at: usize) -> Fast
    requires at_in_bounds { at < length input.now }
    requires input_len_bound { length input.now ≤ limit }
    requires at_value { kind_of (slice_index input.now at) ≡ Kind.Vector }
    ensures { Hits input.now at result }
{
    let stop = token::values_end(input, at + 1);
    if stop <= at + 1 {
        return Fast::Miss;
    }
    if input.len() <= stop {
        return Fast::Miss;
    }
    if input[stop] != b' ' {
        return Fast::Miss;
    }
    match word::fast_id(input, stop + 1) {
        Some((i, end)) => Fast::Vector(i, stop, end),
        None => Fast::Miss,
    }
}

// How many commands `parse_short` can take from `at` on, but no more than `room`: none has more than 34 bytes.
pub fn short_commands(len: usize, at: usize, room: usize) -> usize
    requires { at ≤ len }
    ensures { (at + 34 * result ≤ len) × (result ≤ room) }
{
    text::least((len - at) / 34, room)
}

// A short command, where 34 bytes stand from `at` on: a timestamp, or a change of a scalar to 0 or 1 whose id has one byte, the most
// frequent of all.
pub fn parse_short(input: &[u8], at: usize) -> Fast
    requires at_in_bounds { at + 34 ≤ length input.now }
    requires input_len_bound { length input.now ≤ limit }
    ensures { Hits input.now at result × Short at result }
{
    let b = input[at];
    if b / 2 == 24 {
        return short_scalar(input, at);
    }
    if b == b'#' {
        return short_time(input, at);
    }
    Fast::Miss
}

fn short_scalar(input: &[u8], at: usize) -> Fast
    requires at_in_bounds { at + 34 ≤ length input.now }
    requires input_len_bound { length input.now ≤ limit }
    requires at_value { is_value (slice_index input.now at) ≡ true }
    ensures { Hits input.now at result × Short at result }
{
    let i = std::num::wrapping_sub_u64(text::wide(input[at + 1]), 33);
    if 93 < i {
        return Fast::Miss;
    }
    if ends(input[at + 2]) {
        return Fast::Scalar(i, at + 2);
    }
    Fast::Miss
}

// Eight digits are taken at once.
fn short_time(input: &[u8], at: usize) -> Fast
    requires at_in_bounds { at + 34 ≤ length input.now }
    requires input_len_bound { length input.now ≤ limit }
    requires at_value { kind_of (slice_index input.now at) ≡ Kind.Hash }
    ensures { Hits input.now at result × Short at result }
{
    if eight(input, at + 1) && ends(input[at + 9]) {
        return Fast::Time(eight_value(input, at + 1), at + 9);
    }
    parse_timestamp(input, at)
}

// The two usual blanks.
fn ends(b: u8) -> bool
    ensures { result ≡ true → is_blank b ≡ true }
{
    b == b' ' || b == b'\n'
}

// 1 for a digit, 0 for another byte.
fn is_digit(b: u8) -> u8
    ensures { (result ≤ 1) × (result ≡ 1 → (48 ≤ b) × (b ≤ 57)) }
{
    if 48 <= b && b <= 57 { 1 } else { 0 }
}

// Whether eight digits stand from `at` on. All are counted, so that the compiler looks at them at once.
fn eight(input: &[u8], at: usize) -> bool
    requires { at + 8 ≤ length input.now }
    ensures { result ≡ true → EightDigits input.now at }
{
    let a = is_digit(input[at])
        + is_digit(input[at + 1])
        + is_digit(input[at + 2])
        + is_digit(input[at + 3]);
    let b = is_digit(input[at + 4])
        + is_digit(input[at + 5])
        + is_digit(input[at + 6])
        + is_digit(input[at + 7]);
    a + b == 8
}

// The number of those eight digits: each byte is 48 more than its digit, which is 533333328 in all.
fn eight_value(input: &[u8], at: usize) -> u64
    requires { (at + 8 ≤ length input.now) × EightDigits input.now at }
    ensures { result ≡ value 0 (take 8 (drop at input.now)) }
{
    let a = text::wide(input[at]) * 10 + text::wide(input[at + 1]);
    let b = text::wide(input[at + 2]) * 10 + text::wide(input[at + 3]);
    let c = text::wide(input[at + 4]) * 10 + text::wide(input[at + 5]);
    let d = text::wide(input[at + 6]) * 10 + text::wide(input[at + 7]);
    (a * 100 + b) * 10000 + (c * 100 + d) - 533333328
}
