// The fast path: a token that stands at the cursor, judged in one pass as it is read. A hit gives its value and the place of the blank
// that ends it. Whatever is unusual is a miss, and is left to the slow path, lib.rt and `token`.
ghost use Rattle.std.specs.Prelude.{◌≡◌, ◌+◌, ◌-◌, ◌<◌, ◌≤◌, length, if◌then◌else◌, slice_index};
ghost use Rattle.text.specs.Bytes.{is_blank};
ghost use Rattle.parser_part.specs.FastWord.{FastNumber, FastId, ends_at};
ghost use Rattle.text.specs.Texts.{limit};

// The digits from `at` up to a blank, 17 at most. The loops of this file are counted by hand: a `for` keeps more of them out of registers.
pub fn fast_number(input: &[u8], at: usize) -> Option<(u64, usize)>
    requires at_in_bounds { at ≤ length input.now }
    requires input_len_bound { length input.now ≤ limit }
    ensures { FastNumber input.now at result }
{
    let stop = text::least(input.len(), at + 18);
    if stop <= at + 1 {
        return None;
    }
    let first = input[at];
    if first < 48 {
        return None;
    }
    if 57 < first {
        return None;
    }
    let mut v = text::wide(first) - 48;
    let mut i = at + 1;
    while i < stop {
        let d = digit(input[i]);
        if 9 < d {
            return number_end(input[i], v, i);
        }
        v = v * 10 + d;
        i += 1;
    }
    None
}

// What a digit means; more than 9 where the byte is none.
fn digit(b: u8) -> u64
    ensures { result ≤ 9 → (48 ≤ b) × (b ≤ 57) × (result ≡ b - 48) }
{
    std::num::wrapping_sub_u64(text::wide(b), 48)
}

// The number v, if the byte b at i ends it.
fn number_end(b: u8, v: u64, i: usize) -> Option<(u64, usize)>
    ensures { result ≡ (if is_blank b then Some (v, i) else None) }
{
    if text::whitespace_byte(b) {
        Some((v, i))
    } else {
        None
    }
}

// The id from `at` up to a blank, of 9 bytes at most.
pub fn fast_id(input: &[u8], at: usize) -> Option<(u64, usize)>
    requires at_in_bounds { at ≤ length input.now }
    requires input_len_bound { length input.now ≤ limit }
    ensures { FastId input.now at result }
{
    if input.len() <= at + 1 {
        return None;
    }
    let first = input[at];
    if first < 33 {
        return None;
    }
    if 126 < first {
        return None;
    }
    // Most ids have one byte.
    if text::whitespace_byte(input[at + 1]) {
        return Some((text::wide(first) - 33, at + 1));
    }
    fast_long_id(input, at)
}

// An id that has more than one byte.
fn fast_long_id(input: &[u8], at: usize) -> Option<(u64, usize)>
    requires at_in_bounds { (at + 1 < length input.now) × (length input.now ≤ limit) }
    requires bound { (33 ≤ slice_index input.now at) × (slice_index input.now at ≤ 126) }
    ensures { FastId input.now at result }
{
    let mut sum = text::wide(input[at]) - 32;
    let mut power: u64 = 94;
    let mut i = at + 1;
    while i < input.len() {
        let b = input[i];
        if text::whitespace_byte(b) {
            return Some((sum - 1, i));
        }
        if b < 33 {
            return None;
        }
        if 126 < b {
            return None;
        }
        if at + 9 <= i {
            return None;
        }
        sum = sum + (text::wide(b) - 32) * power;
        power = power * 94;
        i += 1;
    }
    None
}

// Whether some bytes stand from `at` to `end`, and a blank after them.
pub fn ends_values(input: &[u8], at: usize, end: usize) -> bool
    ensures { result ≡ ends_at input.now at end }
{
    if end <= at {
        return false;
    }
    if input.len() <= end {
        return false;
    }
    text::whitespace_byte(input[end])
}
