// Commands read and written anew, as many as one output has room for: the work of one turn of a program that rewrites a dump.
#![tactic(auto)]

ghost use Rattle.std.specs.Prelude.{◌≡◌, length, ◌+◌, ◌≤◌, ◌<◌};
ghost use Rattle.fast.specs.Fast.{Hits};
ghost use Rattle.parser.specs.Next.{next_from};
ghost use Rattle.token.specs.Read.{Valid};
ghost use Rattle.rewrite.specs.Rewrite.{rewrite_of, answer_of, filled, wrote_of, step_of, left_by, as_slow, Inside, laid_of};
ghost use Rattle.text.specs.Texts.{limit};

pub use command::Ended;
use command::Refusal;
use fast::Fast;
use idcode::IdCode;
use parser::Next;
use token::Cursor;
use write::{Writer, Written};

// The cursor after the last command that was written or refused by the reader, the writer's state, and how many bytes were written.
#[derive(Clone, Copy)]
pub struct Rewritten {
    pub cursor: Cursor,
    pub writer: Writer,
    pub count: usize,
    pub ended: Ended,
}

// One command written, with its bytes, the state and the cursor then; or how it ends.
#[derive(Clone, Copy)]
enum Step {
    // A hit: the place of the blank that ends it, and the bytes written; the state is as it was.
    Hit(usize, usize),
    Wrote(Cursor, usize, Writer),
    Ends(Cursor, Ended),
}

// Rewrites the commands from the cursor on. A `loop`, since each command moves the cursor by what was read.
pub fn rewrite(input: &[u8], c: Cursor, w: Writer, out: &mut [u8]) -> Rewritten
    ensures answer { result ≡ answer_of (rewrite_of input.now c w out.old) }
    ensures bytes { out.new ≡ filled (rewrite_of input.now c w out.old).bytes out.old }
{
    if !parser::placed(input, c) {
        return answer(c, w, 0, Err((Refusal::BadPlace, c.line)));
    }
    let mut cur = c;
    let mut state = w;
    let mut used: usize = 0;
    loop {
        match step_fast(input, cur, state, &mut out[used..]) {
            Step::Hit(end, n) => {
                used += n;
                cur = token::word_read(cur, end, input[end]);
            }
            Step::Wrote(d, n, v) => {
                used += n;
                state = v;
                cur = d;
            }
            Step::Ends(d, e) => {
                return answer(d, state, used, e);
            }
        }
    }
}

fn answer(cursor: Cursor, writer: Writer, count: usize, ended: Ended) -> Rewritten
    ensures { result ≡ record { cursor = cursor; writer = writer; count = count; ended = ended } }
{
    Rewritten {
        cursor,
        writer,
        count,
        ended,
    }
}

// The fast path for the command that stands at a place. Each loop has its own, so that the compiler keeps it in the loop.
fn fast_command(input: &[u8], at: usize) -> Fast
    requires at_in_bounds { at ≤ length input.now }
    requires input_len_bound { length input.now ≤ limit }
    ensures { Hits input.now at result }
{
    if input.len() <= at + 2 {
        return Fast::Miss;
    }
    let b = input[at];
    if b / 2 == 24 {
        return fast::parse_scalar(input, at);
    }
    match b {
        b'#' => fast::parse_timestamp(input, at),
        b'x' | b'X' | b'z' | b'Z' => fast::parse_scalar(input, at),
        b'b' | b'B' => fast::parse_vector(&input[0..], at),
        _ => Fast::Miss,
    }
}

// One step: usual commands hit the fast path; they may always be written and change no state.
fn step_fast(input: &[u8], c: Cursor, w: Writer, out: &mut [u8]) -> Step
    requires { Valid input.now c }
    ensures { (as_slow input.now c w result ≡ step_of input.now c w out.old (next_from input.now c)) × Inside input.now result × (out.new ≡ left_by input.now w out.old (next_from input.now c)) }
{
    let at = c.place;
    match fast_command(input, at) {
        Fast::Time(t, end) => {
            let p = emit::emit_time(t, out);
            laid(p, c, end, input[end])
        }
        Fast::Scalar(i, end) => {
            let v = value::vector::lowered(input[at]);
            let p = emit::emit_scalar(v, IdCode(i), out);
            laid(p, c, end, input[end])
        }
        Fast::Vector(i, stop, end) => {
            let p = emit::emit_vector(&input[at + 1..stop], IdCode(i), out);
            laid(p, c, end, input[end])
        }
        Fast::Miss => step_var(&input[0..], again(c), state_again(w), out),
    }
}

// A cursor and a state made anew for the slow path, so that the fast path keeps its own in registers.
fn again(c: Cursor) -> Cursor
    ensures { result ≡ c }
{
    Cursor {
        place: c.place,
        line: c.line,
        pending: c.pending,
        sim: c.sim,
    }
}

fn state_again(w: Writer) -> Writer
    ensures { result ≡ w }
{
    Writer {
        depth: w.depth,
        id: w.id,
        sim: w.sim,
    }
}

// The answer where only the room was in question, for a command from the cursor c on that the byte b at `end` ends.
fn laid(p: Option<usize>, c: Cursor, end: usize, b: u8) -> Step
    requires { (end < limit) × (c.line ≤ limit + 1) }
    ensures { result ≡ laid_of c end b p }
{
    match p {
        Some(n) => Step::Hit(end, n),
        None => {
            let d = token::word_read(c, end, b);
            Step::Ends(c, Err((Refusal::NoRoom, d.line)))
        }
    }
}

// One step off the fast path of changes: a usual variable definition has its own.
fn step_var(input: &[u8], c: Cursor, w: Writer, out: &mut [u8]) -> Step
    requires { Valid input.now c }
    ensures { (result ≡ step_of input.now c w out.old (next_from input.now c)) × (out.new ≡ left_by input.now w out.old (next_from input.now c)) }
{
    match fast_var::parse_var(input, c.place) {
        Some((v, end)) => {
            let d = token::word_read(c, end, input[end]);
            wrote(w.var(input, v, out), c, d)
        }
        None => step_slow(input, c, w, out),
    }
}

fn step_slow(input: &[u8], c: Cursor, w: Writer, out: &mut [u8]) -> Step
    requires { Valid input.now c }
    ensures { (result ≡ step_of input.now c w out.old (next_from input.now c)) × (out.new ≡ left_by input.now w out.old (next_from input.now c)) }
{
    match parser::next_command(input, c) {
        Next::Command(k, d) => wrote(w.command(input, k, out), c, d),
        Next::Refused(e, line, d) => Step::Ends(d, Err((e, line))),
        Next::Done(d) => Step::Ends(d, Ok(())),
    }
}

fn wrote(r: Written, c: Cursor, d: Cursor) -> Step
    ensures { result ≡ wrote_of c d r }
{
    match r {
        Ok((n, v)) => Step::Wrote(d, n, v),
        Err(e) => Step::Ends(c, Err((e, d.line))),
    }
}
