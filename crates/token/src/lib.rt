// Reading bytes, tokens and texts (parser.rs of vcd 0.7.0, its first half): a cursor by value beside the lent input. These are parts
// of `parser`, which hands over valid cursors alone; users call that.
#![tactic(auto)]

ghost use Rattle.std.specs.Prelude.{◌≡◌, ◌+◌, ◌-◌, ◌≤◌, ◌<◌, min, length, take, drop};
ghost use Rattle.token.specs.Read.{Valid, next_line, byte_read, end_read, after, rest, word, skipped, values_in, Bound, most, values, beyond, token, word_here, text_from};
ghost use Rattle.token.specs.Flat.{word_read, word_end_read, first_passed};
ghost use Rattle.text.specs.Texts.{limit};

use command::{Refusal, SimulationCommand};
use text::Text;

// Where reading stands: the next byte's place, the line of the last byte read, whether that byte was a newline, and the simulation
// command that is open.
#[derive(Clone, Copy)]
pub struct Cursor {
    pub place: usize,
    pub line: u64,
    pub pending: bool,
    pub sim: Option<SimulationCommand>,
}

// What was read and the cursor after it; or why not, and the cursor just after the last byte read.
pub type Reading<T> = Result<(T, Cursor), (Refusal, Cursor)>;

// The line that the next read is on.
fn next_line(c: Cursor) -> u64
    requires { c.line ≤ limit + 1 }
    ensures { result ≡ next_line c }
{
    if c.pending { c.line + 1 } else { c.line }
}

// The cursor after a word, which has no newline, up to `end`, and the byte b that stands there.
#[tactic(auto, unfolding(crate::specs::Flat::word_read))]
pub fn word_read(c: Cursor, end: usize, b: u8) -> Cursor
    requires end_lt_limit { end < limit }
    requires line_bound { c.line ≤ limit + 1 }
    ensures { result ≡ word_read c end b }
{
    let sim = c.sim;
    let line = next_line(c);
    Cursor {
        place: end + 1,
        line: line,
        pending: b == b'\n',
        sim: sim,
    }
}

// The cursor after such a word and the read that found the end after it.
#[tactic(auto, unfolding(crate::specs::Flat::word_end_read))]
pub fn word_end_read(c: Cursor, end: usize) -> Cursor
    requires { c.line ≤ limit + 1 }
    ensures { result ≡ word_end_read c end }
{
    let sim = c.sim;
    let line = next_line(c);
    Cursor {
        place: end,
        line: line,
        pending: false,
        sim: sim,
    }
}

// The cursor after the byte b was read.
#[tactic(auto, unfolding(crate::specs::Read::byte_read, crate::specs::Flat::word_read))]
pub fn byte_read(c: Cursor, b: u8) -> Cursor
    requires place_lt_limit { c.place < limit }
    requires line_bound { c.line ≤ limit + 1 }
    ensures { result ≡ byte_read c b }
{
    word_read(c, c.place, b)
}

// The cursor after the read that found the end.
#[tactic(auto, unfolding(crate::specs::Read::end_read, crate::specs::Flat::word_end_read))]
pub fn end_read(c: Cursor) -> Cursor
    requires { c.line ≤ limit + 1 }
    ensures { result ≡ end_read c }
{
    word_end_read(c, c.place)
}

// The cursor after the leading blanks.
pub fn skip(input: &[u8], c: Cursor) -> Cursor
    requires { Valid input.now c }
    ensures { result ≡ skipped input.now c }
{
    let mut cur = c;
    for &b in &input[c.place..] {
        if !text::whitespace_byte(b) {
            return cur;
        }
        cur = byte_read(cur, b);
    }
    cur
}

// The end of the input or of `limit` bytes from `at`, whichever comes first. No sum is made that could wrap.
fn stop_at(size: usize, at: usize, limit: usize) -> usize
    requires { at ≤ size }
    ensures { result ≡ min size (at + limit) }
{
    if size - at < limit {
        return size;
    }
    at + limit
}

// Where the word ends that starts at `at`; after `limit` bytes where it has more.
fn word_end(input: &[u8], at: usize, limit: usize) -> usize
    requires { at ≤ length input.now }
    ensures { result ≡ at + length (take limit (word (drop at input.now))) }
{
    let stop = stop_at(input.len(), at, limit);
    match input[at..stop]
        .iter()
        .position(|&b| text::whitespace_byte(b))
    {
        Some(n) => at + n,
        None => stop,
    }
}

// The next token, of at most `limit` bytes, with the blank that ends it.
#[tactic(auto, unfolding(crate::specs::Flat::first_passed, crate::specs::Read::token))]
pub fn read_token(input: &[u8], c: Cursor, limit: usize) -> Reading<Text>
    requires { Valid input.now c }
    ensures { result ≡ token input.now c (most limit) }
{
    let from = skip(input, c);
    let start = from.place;
    let end = word_end(input, start, limit);
    token_to(input, from, end, Refusal::TokenTooLong)
}

// The word that starts at the cursor and ends, or is refused, at `end`.
fn token_to(input: &[u8], c: Cursor, end: usize, reason: Refusal) -> Reading<Text>
    requires valid { Valid input.now c }
    requires place_le_end { (c.place ≤ end) × (end ≤ length input.now) }
    ensures { (n : Bound) → beyond n ≡ reason → end ≡ c.place + length (first_passed n (rest input.now c)) → result ≡ word_here input.now c n }
{
    let start = c.place;
    if input.len() <= end {
        return Err((Refusal::UnexpectedEof, word_end_read(c, end)));
    }
    let b = input[end];
    let next = word_read(c, end, b);
    if text::whitespace_byte(b) {
        Ok((
            Text {
                start,
                len: end - start,
            },
            next,
        ))
    } else {
        Err((reason, next))
    }
}

// Where the values end that start at `at`.
pub fn values_end(input: &[u8], at: usize) -> usize
    requires { at ≤ length input.now }
    ensures { result ≡ at + values_in (drop at input.now) }
{
    let mut i = at;
    loop {
        i = pairs_end(input, i);
        if input.len() <= i {
            return i;
        }
        if value::vector::is_value(input[i]) {
            i += 1;
        } else {
            return i;
        }
    }
}

// A place up to which `0` and `1` stand from `at` on, looked for two a turn: nearly all values are such.
fn pairs_end(input: &[u8], at: usize) -> usize
    requires { at ≤ length input.now }
    ensures { (result ≤ length input.now) × (at ≤ result) × (at + values_in (drop at input.now) ≡ result + values_in (drop result input.now)) }
{
    let stop = input.len();
    if stop <= at {
        return at;
    }
    let last = stop - 1;
    let mut i = at;
    while i < last {
        if input[i] / 2 != 24 {
            return i;
        }
        if input[i + 1] / 2 != 24 {
            return i + 1;
        }
        i += 2;
    }
    i
}

// The values of a vector, each judged as it is read, with the blank that ends them.
pub fn read_values(input: &[u8], c: Cursor) -> Reading<Text>
    requires { Valid input.now c }
    ensures { result ≡ token input.now c values }
{
    let from = skip(input, c);
    let start = from.place;
    let end = values_end(input, start);
    token_to(input, from, end, Refusal::InvalidValueChar)
}

// The cursor after the bytes before `end` were read.
fn read_over(input: &[u8], c: Cursor, end: usize) -> Cursor
    requires valid { Valid input.now c }
    requires place_le_end { (c.place ≤ end) × (end ≤ length input.now) }
    ensures { result ≡ after (take (end - c.place) (rest input.now c)) c }
{
    let mut cur = c;
    for &b in &input[c.place..end] {
        cur = byte_read(cur, b);
    }
    cur
}

// A text up to the first `$end`, which is read too.
pub fn read_text(input: &[u8], c: Cursor) -> Reading<Text>
    requires { Valid input.now c }
    ensures { result ≡ text_from input.now c }
{
    let start = c.place;
    let found = command::find_end(&input[start..]);
    match found {
        Some(len) => {
            let end = start + len;
            let next = read_over(input, c, end + 4);
            Ok((Text { start, len }, next))
        }
        None => {
            let end = read_over(input, c, input.len());
            Err((Refusal::UnexpectedEof, end_read(end)))
        }
    }
}
