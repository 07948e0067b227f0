// The fast path of loops that read headers: a variable's definition in its usual form, all on one line, with spaces between its parts,
// in printable ASCII. A miss is left to `parser::next_command`.
#![tactic(auto)]

ghost use Rattle.std.specs.Prelude.{◌≡◌, ◌+◌, ◌*◌, ◌<◌, ◌≤◌, true, length, if◌then◌else◌};
ghost use Rattle.scope.specs.declared.VarType.{VarType};
ghost use Rattle.parser_part.specs.Plan.{var_of, var_id, var_name, var_end};
ghost use Rattle.fast_var.specs.FastVar.{HitsVar, Gap, Worded, Four, Ends, Begins, Usual, HitsType, Goes, IndexAt, RangeAt, Digits, Closed, variable as variable_of};
ghost use Rattle.text.specs.Texts.{limit};

use idcode::IdCode;
use parser_part::word;
use scope::{ReferenceIndex, Var, VarType};
use text::Text;

// `wire`, and `reg` with a space after it, as `quad` makes them of the names in the list of types.
const WIRE: u32 = scope::VAR_TYPES[scope::WIRE].name[0] as u32
    + 256 * (scope::VAR_TYPES[scope::WIRE].name[1] as u32)
    + 65536 * (scope::VAR_TYPES[scope::WIRE].name[2] as u32)
    + 16777216 * (scope::VAR_TYPES[scope::WIRE].name[3] as u32);

const REG: u32 = scope::VAR_TYPES[scope::REG].name[0] as u32
    + 256 * (scope::VAR_TYPES[scope::REG].name[1] as u32)
    + 65536 * (scope::VAR_TYPES[scope::REG].name[2] as u32)
    + 16777216 * (b' ' as u32);

// The definition that begins at `at`, after spaces.
#[tactic(auto, using(crate::proofs::Definitions::hits))]
pub fn parse_var(input: &[u8], at: usize) -> Option<(Var, usize)>
    requires at_in_bounds { at ≤ length input.now }
    requires input_len_bound { length input.now ≤ limit }
    ensures { HitsVar input.now at result }
{
    let first = spaces_end(input, at);
    if !begins(input, first) {
        return None;
    }
    let (k, end) = type_at(input, spaces_end(input, first + 5))?;
    sized(input, end + 1, k)
}

// The two usual types are found without a search for the word's end.
fn type_at(input: &[u8], at: usize) -> Option<(VarType, usize)>
    requires { (at ≤ length input.now) × (length input.now ≤ limit) }
    ensures { HitsType input.now at result }
{
    if is_usual(input, at) {
        let wire = input[at] % 2 == 1;
        return Some((usual_type(wire), usual_end(at, wire)));
    }
    let end = word_end(input, at);
    if end <= at || at + 32 < end {
        return None;
    }
    let k = VarType::from_str(&input[at..end])?;
    Some((k, end))
}

// The rest of a definition after its type and a space.
fn sized(input: &[u8], at: usize, k: VarType) -> Option<(Var, usize)>
    requires { (at ≤ length input.now) × (length input.now ≤ limit) }
    ensures { Goes input.now at (var_of (Some k)) result }
{
    let (n, end) = word::fast_number(input, spaces_end(input, at))?;
    if 4294967295 < n || input[end] != b' ' {
        return None;
    }
    coded(input, end + 1, k, n as u32)
}

// The rest of a definition after its width.
fn coded(input: &[u8], at: usize, k: VarType, n: u32) -> Option<(Var, usize)>
    requires { (at ≤ length input.now) × (length input.now ≤ limit) }
    ensures { Goes input.now at (var_id k n) result }
{
    let (i, end) = word::fast_id(input, spaces_end(input, at))?;
    if input[end] != b' ' {
        return None;
    }
    named(input, end + 1, k, n, IdCode(i))
}

// The rest of a definition after its id.
fn named(input: &[u8], at: usize, k: VarType, n: u32, i: IdCode) -> Option<(Var, usize)>
    requires { (at ≤ length input.now) × (length input.now ≤ limit) }
    ensures { Goes input.now at (var_name k n i) result }
{
    let start = spaces_end(input, at);
    let end = word_end(input, start);
    if end <= start {
        return None;
    }
    let t = Text {
        start,
        len: end - start,
    };
    let last = spaces_end(input, end + 1);
    if ends(input, last) {
        return Some((made(k, n, i, t, ReferenceIndex::None), last + 4));
    }
    indexed(input, last, k, n, i, t)
}

// The index that stands at `at`, and the last word.
fn indexed(input: &[u8], at: usize, k: VarType, n: u32, i: IdCode, t: Text) -> Option<(Var, usize)>
    requires { (at ≤ length input.now) × (length input.now ≤ limit) }
    ensures { Goes input.now at (var_end (variable_of k n i t ReferenceIndex.None)) result }
{
    let (x, end) = index_at(input, at)?;
    let last = spaces_end(input, end + 1);
    if !ends(input, last) {
        return None;
    }
    Some((made(k, n, i, t, x), last + 4))
}

fn made(var_type: VarType, size: u32, code: IdCode, reference: Text, index: ReferenceIndex) -> Var
    ensures { result ≡ variable_of var_type size code reference index }
{
    Var {
        var_type,
        size,
        code,
        reference,
        index,
    }
}

// `[n]` or `[m:n]` in digits, and a space after it.
fn index_at(input: &[u8], at: usize) -> Option<(ReferenceIndex, usize)>
    requires { (at ≤ length input.now) × (length input.now ≤ limit) }
    ensures { IndexAt input.now at result }
{
    if input.len() <= at || input[at] != b'[' {
        return None;
    }
    let (a, end) = digits(input, at + 1)?;
    if input[end] == b':' {
        return range(input, at, end, a);
    }
    if !closed(input, end) {
        return None;
    }
    Some((ReferenceIndex::BitSelect(a as i32), end + 1))
}

// The index that begins at `at` with the number a, and a colon at `colon`.
fn range(input: &[u8], at: usize, colon: usize, a: u64) -> Option<(ReferenceIndex, usize)>
    requires { (colon < length input.now) × (length input.now ≤ limit) × RangeAt input.now at colon a }
    ensures { IndexAt input.now at result }
{
    let (b, end) = digits(input, colon + 1)?;
    if !closed(input, end) {
        return None;
    }
    Some((ReferenceIndex::Range(a as i32, b as i32), end + 1))
}

// Whether `]` and a space stand at `at`.
fn closed(input: &[u8], at: usize) -> bool
    requires { (at ≤ length input.now) × (length input.now ≤ limit) }
    ensures { result ≡ true → Closed input.now at }
{
    at + 1 < input.len() && input[at] == b']' && input[at + 1] == b' '
}

// The digits from `at` on, 9 at most, and where they end.
fn digits(input: &[u8], at: usize) -> Option<(u64, usize)>
    requires { (at ≤ length input.now) × (length input.now ≤ limit) }
    ensures { Digits input.now at result }
{
    let mut v: u64 = 0;
    for i in at..input.len() {
        let b = input[i];
        if !b.is_ascii_digit() {
            return if at < i { Some((v, i)) } else { None };
        }
        if at + 9 <= i {
            return None;
        }
        v = v * 10 + (b - b'0') as u64;
    }
    None
}

// The place of the first byte from `at` on that is no space. Most often it is `at`: counted by hand, which costs fewer steps than `find`.
fn spaces_end(input: &[u8], at: usize) -> usize
    requires { at ≤ length input.now }
    ensures { Gap input.now at result }
{
    let mut i = at;
    while i < input.len() {
        if input[i] != b' ' {
            return i;
        }
        i += 1;
    }
    i
}

// Where the word of printable ASCII ends that starts at `at`, and a space stands; `at` where there is none such. The end of a word of
// 8 to 15 bytes is guessed, and the guess held to the bytes.
fn word_end(input: &[u8], at: usize) -> usize
    requires { (at ≤ length input.now) × (length input.now ≤ limit) }
    ensures { at < result → Worded input.now at result }
{
    if input.len() <= at + 16 {
        return word_end_plain(input, at);
    }
    let end = at + 8 + guess(octet(input, at + 8));
    if input[end] == b' ' && text::plain_eight(input, at) && text::plain_eight(input, end - 8) {
        return end;
    }
    word_end_plain(input, at)
}

// Eight bytes as one number.
fn octet(input: &[u8], at: usize) -> u64
    requires { (at + 8 ≤ length input.now) × (length input.now ≤ limit) }
{
    let low = quad(input[at], input[at + 1], input[at + 2], input[at + 3]);
    let high = quad(input[at + 4], input[at + 5], input[at + 6], input[at + 7]);
    low as u64 + 4294967296 * (high as u64)
}

// How many bytes of eight stand before the first space: where x is 0, and no byte below it is, 1 taken off each sets its highest bit.
fn guess(word: u64) -> usize
    ensures { result ≤ 8 }
{
    let x = word ^ 0x2020202020202020;
    let zeros = x.wrapping_sub(0x0101010101010101) & !x & 0x8080808080808080;
    zeros.trailing_zeros() as usize / 8
}

// The end of such a word of any length; `at` where there is none.
fn word_end_plain(input: &[u8], at: usize) -> usize
    requires { (at ≤ length input.now) × (length input.now ≤ limit) }
    ensures { at < result → Worded input.now at result }
{
    if input.len() <= at {
        return at;
    }
    let last = input.len() - 1;
    let mut i = at;
    // Two bytes a turn, for speed.
    while i < last {
        let a = input[i];
        if a < 33 || 126 < a {
            return if a == b' ' { i } else { at };
        }
        let b = input[i + 1];
        if b < 33 || 126 < b {
            return if b == b' ' { i + 1 } else { at };
        }
        i += 2;
    }
    at
}

// Whether four bytes stand at `at`.
fn four(input: &[u8], at: usize, a: u8, b: u8, c: u8, d: u8) -> bool
    requires { (at + 3 < length input.now) × (length input.now ≤ limit) }
    ensures { result ≡ true → Four input.now at a b c d }
{
    let word = quad(input[at], input[at + 1], input[at + 2], input[at + 3]);
    word == quad(a, b, c, d)
}

// Four bytes as one number, so that the compiler compares them at once.
fn quad(a: u8, b: u8, c: u8, d: u8) -> u32
    ensures { result ≡ a + 256 * b + 65536 * c + 16777216 * d }
{
    a as u32 + 256 * (b as u32) + 65536 * (c as u32) + 16777216 * (d as u32)
}

// Whether `$end` and a blank stand at `at`.
fn ends(input: &[u8], at: usize) -> bool
    requires { (at ≤ length input.now) × (length input.now ≤ limit) }
    ensures { result ≡ true → Ends input.now at }
{
    if input.len() <= at + 4 {
        return false;
    }
    let mark = command::END;
    four(input, at, mark[0], mark[1], mark[2], mark[3]) && text::whitespace_byte(input[at + 4])
}

// Whether `$var` and a space stand at `at`.
fn begins(input: &[u8], at: usize) -> bool
    requires { (at ≤ length input.now) × (length input.now ≤ limit) }
    ensures { result ≡ true → Begins input.now at }
{
    if input.len() <= at + 4 {
        return false;
    }
    let var = command::VAR;
    four(input, at, b'$', var[0], var[1], var[2]) && input[at + 4] == b' '
}

// Whether `wire` or `reg` and a space stand at `at`. Which of the two cannot be predicted, so there is no branch: the first byte, odd or
// even, chooses what the word is compared with.
fn is_usual(input: &[u8], at: usize) -> bool
    requires { (at ≤ length input.now) × (length input.now ≤ limit) }
    ensures { result ≡ true → Usual input.now at }
{
    if input.len() <= at + 4 {
        return false;
    }
    let wire = input[at] % 2 == 1;
    let want: u32 = if wire { WIRE } else { REG };
    let word = quad(input[at], input[at + 1], input[at + 2], input[at + 3]);
    word == want && input[usual_end(at, wire)] == b' '
}

fn usual_type(wire: bool) -> VarType
    ensures { result ≡ (if wire then VarType.Wire else VarType.Reg) }
{
    if wire { VarType::Wire } else { VarType::Reg }
}

// Where the space after a usual type stands.
fn usual_end(at: usize, wire: bool) -> usize
    requires { at ≤ limit }
    ensures { result ≡ at + (if wire then 4 else 3) }
{
    if wire { at + 4 } else { at + 3 }
}
