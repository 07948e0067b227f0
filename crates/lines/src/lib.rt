// The lines that the programs print: the changes of a variable, its full listing, a refusal, an input over the limit. A line is put whole
// where it has room, else not at all. And the limits that both programs keep.
#![tactic(auto)]

ghost use Rattle.std.specs.Prelude.{◌≡◌, [], ◌∷◌, ◌++◌, map, ◌+◌, ◌≤◌, leb, length};
ghost use Rattle.emit.specs.Put.{concat, stored};
ghost use Rattle.text.specs.Bytes.{bytes};
ghost use Rattle.text.specs.Texts.{spelled, put_answer, put_bytes};
ghost use Rattle.value.specs.Values.{lower, filled_with};
ghost use Rattle.value.specs.declared.Value.{Value};
ghost use Rattle.lines.specs.Lines.{time_text, change_line, full_line, refused_line, long_line, put as put_lines, answer_of, filled};

use command::Time;
use listing::{Change, ChangeKind};
use text::Spelled;

// The longest dump that the programs take, and the most rows of its header.
pub const TAKEN: usize = 65536;

pub const HEADER_ROWS: usize = 256;

// The next row to print, and how many bytes the lines before it have.
#[derive(Clone, Copy)]
pub struct Lines {
    pub next: usize,
    pub count: usize,
}

// The lines of a variable's changes: rows `from` up to `to` of a listing, as many as have room.
pub fn put_changes(
    input: &[u8],
    name: &[u8],
    width: u32,
    changes: &[u64],
    from: usize,
    to: usize,
    out: &mut [u8],
) -> Lines
    ensures answer { result ≡ answer_of from (put_lines input.now name.now width changes.now from to out.old) }
    ensures bytes { out.new ≡ filled (put_lines input.now name.now width changes.now from to out.old) out.old }
{
    // Which row is the next is an answer too, so the loop keeps it.
    let mut next = from;
    let mut count: usize = 0;
    while next < to {
        match put_change(
            input,
            name,
            width,
            listing::change_at(changes, next),
            &mut out[count..],
        ) {
            Some(n) => {
                count += n;
                next += 1;
            }
            None => {
                return Lines { next, count };
            }
        }
    }
    Lines { next, count }
}

// The line of one change.
pub fn put_change(
    input: &[u8],
    name: &[u8],
    width: u32,
    change: Change,
    out: &mut [u8],
) -> Option<usize>
    ensures { (result ≡ put_answer (change_line input.now name.now width change) out.old) × (out.new ≡ put_bytes (change_line input.now name.now width change) out.old) }
{
    match change {
        Change::None => Some(0),
        Change::Is(since, line, kind, v) => {
            let value = text::part(input, v);
            let time = time_text(since);
            let time = time.as_bytes();
            let digits = number::decimal(line);
            let digits = digits.as_bytes();
            match kind {
                ChangeKind::Scalar => lay_wide(
                    name,
                    time,
                    digits,
                    widen::missing(1, value.len()),
                    value,
                    out,
                ),
                ChangeKind::Vector => lay_wide(
                    name,
                    time,
                    digits,
                    widen::missing(width, value.len()),
                    value,
                    out,
                ),
                ChangeKind::Real => lay_text(name, time, digits, value, out),
                ChangeKind::String => lay_text(name, time, digits, value, out),
            }
        }
    }
}

fn time_text(since: Option<Time>) -> Spelled
    ensures { result ≡ spelled (time_text since) }
{
    match since {
        None => text::spell(b"-"),
        Some(t) => number::decimal(t.0),
    }
}

// `NAME full`.
pub fn put_full(name: &[u8], out: &mut [u8]) -> Option<usize>
    ensures { (result ≡ put_answer (full_line name.now) out.old) × (out.new ≡ put_bytes (full_line name.now) out.old) }
{
    emit::emit(name, b" full\n", b"", b"", b"", out)
}

// `refused NUMBER at LINE`.
#[tactic(auto, using(text::proofs::Rows::text_in_lem))]
pub fn put_refused(number: u64, line: u64, out: &mut [u8]) -> Option<usize>
    ensures { (result ≡ put_answer (refused_line number line) out.old) × (out.new ≡ put_bytes (refused_line number line) out.old) }
{
    let first = number::decimal(number);
    let second = number::decimal(line);
    emit::emit(
        b"refused ",
        first.as_bytes(),
        b" at ",
        second.as_bytes(),
        b"\n",
        out,
    )
}

// `input too long`.
pub fn put_long(out: &mut [u8]) -> Option<usize>
    ensures { (result ≡ put_answer long_line out.old) × (out.new ≡ put_bytes long_line out.old) }
{
    text::put_text(b"input too long\n", out)
}

// A line whose value is a text.
#[tactic(auto, using(crate::proofs::Laying::laying))]
fn lay_text(name: &[u8], time: &[u8], line: &[u8], value: &[u8], out: &mut [u8]) -> Option<usize>
    ensures { (result ≡ put_answer (concat (name.now ∷ bytes " " ∷ time.now ∷ bytes " " ∷ line.now ∷ bytes " " ∷ value.now ∷ bytes "\n" ∷ [])) out.old) × (out.new ≡ put_bytes (concat (name.now ∷ bytes " " ∷ time.now ∷ bytes " " ∷ line.now ∷ bytes " " ∷ value.now ∷ bytes "\n" ∷ [])) out.old) }
{
    if !has_room(
        out.len(),
        name.len(),
        time.len(),
        line.len(),
        0,
        value.len(),
    ) {
        return None;
    }
    let n = emit::put_five(out, 0, name, b" ", time, b" ", line);
    Some(emit::put_five(out, n, b" ", value, b"\n", b"", b""))
}

// A line whose value is in lower case after so many zeros.
#[tactic(auto, using(crate::proofs::Laying::laying))]
fn lay_wide(
    name: &[u8],
    time: &[u8],
    line: &[u8],
    zeros: usize,
    value: &[u8],
    out: &mut [u8],
) -> Option<usize>
    ensures { (result ≡ put_answer (concat (name.now ∷ bytes " " ∷ time.now ∷ bytes " " ∷ line.now ∷ bytes " " ∷ (filled_with Value.V0 zeros ++ map lower value.now) ∷ bytes "\n" ∷ [])) out.old) × (out.new ≡ put_bytes (concat (name.now ∷ bytes " " ∷ time.now ∷ bytes " " ∷ line.now ∷ bytes " " ∷ (filled_with Value.V0 zeros ++ map lower value.now) ∷ bytes "\n" ∷ [])) out.old) }
{
    if !has_room(
        out.len(),
        name.len(),
        time.len(),
        line.len(),
        zeros,
        value.len(),
    ) {
        return None;
    }
    let n = emit::put_five(out, 0, name, b" ", time, b" ", line);
    Some(put_wide(out, n, zeros, value))
}

// A space, so many zeros, the values in lower case, and the newline.
fn put_wide(out: &mut [u8], at: usize, zeros: usize, value: &[u8]) -> usize
    requires { at + (2 + zeros + length value.now) ≤ length out.old }
    ensures { (result ≡ at + length (concat (bytes " " ∷ (filled_with Value.V0 zeros ++ map lower value.now) ∷ bytes "\n" ∷ []))) × (out.new ≡ stored out.old at (concat (bytes " " ∷ (filled_with Value.V0 zeros ++ map lower value.now) ∷ bytes "\n" ∷ []))) }
{
    let n = emit::put(out, at, b" ");
    let n = put_zeros(out, n, zeros);
    let n = emit::put_lower(out, n, value);
    emit::put(out, n, b"\n")
}

// Whether a line has room: its five parts, three spaces and the newline.
fn has_room(room: usize, name: usize, time: usize, line: usize, zeros: usize, value: usize) -> bool
    ensures { result ≡ leb (4 + (name + time + line + zeros + value)) room }
{
    if room < 4 {
        return false;
    }
    emit::fits(room - 4, name, time, line, zeros, value)
}

// Puts so many zeros into `out` from `at` on, and answers the place after them.
#[tactic(auto, using(emit::proofs::Storing::stored_filled))]
fn put_zeros(out: &mut [u8], at: usize, zeros: usize) -> usize
    requires { at + zeros ≤ length out.old }
    ensures { (result ≡ at + length (filled_with Value.V0 zeros)) × (out.new ≡ stored out.old at (filled_with Value.V0 zeros)) }
{
    let end = at + zeros;
    out[at..end].fill(b'0');
    end
}
