// One step of a listing: what the next command is to the listing of a code. A part of the listing's loop.
#![tactic(auto)]

ghost use Rattle.std.specs.Prelude.{◌≡◌, length, ◌≤◌};
ghost use Rattle.change.specs.declared.ChangeKind.{ChangeKind};
ghost use Rattle.fast.specs.Fast.{Hits};
ghost use Rattle.list_step.specs.Step.{change, role_of, of_code, step_from, step_of, first as first_of};
ghost use Rattle.parser.specs.Next.{next_from};
ghost use Rattle.text.specs.Texts.{limit};
ghost use Rattle.token.specs.Read.{Valid};

use change::ChangeKind;
use command::{Command, Refusal, Time};
use fast::Fast;
use idcode::IdCode;
use parser::Next;
use text::Text;
use token::Cursor;

// What the listing of a code sees next, with the cursor after it: a time, a change of the code, another command; or how reading ends.
// Five ways on, so an enum of its own.
#[derive(Clone, Copy)]
pub enum Step {
    Time(Cursor, Time),
    Change(Cursor, ChangeKind, Text),
    Other(Cursor),
    Refused(Cursor, Refusal, u64),
    Done(Cursor),
}

// The fast path for the command that stands at a place. Each loop has its own, so that the compiler keeps it in the loop.
fn fast_command(input: &[u8], at: usize) -> Fast
    requires at_in_bounds { at ≤ length input.now }
    requires input_len_bound { length input.now ≤ limit }
    ensures { Hits input.now at result }
{
    if input.len() <= at + 2 {
        return Fast::Miss;
    }
    let b = input[at];
    if b / 2 == 24 {
        return fast::parse_scalar(input, at);
    }
    match b {
        b'#' => fast::parse_timestamp(input, at),
        b'x' | b'X' | b'z' | b'Z' => fast::parse_scalar(input, at),
        b'b' | b'B' => fast::parse_vector(&input[0..], at),
        _ => Fast::Miss,
    }
}

// The next step: usual commands hit the fast path, others take the slow path.
pub fn step_fast(input: &[u8], c: Cursor, code: IdCode) -> Step
    requires { Valid input.now c }
    ensures { result ≡ step_from input.now code c (next_from input.now c) }
{
    let at = c.place;
    match fast_command(input, at) {
        Fast::Time(t, end) => Step::Time(token::word_read(c, end, input[end]), Time(t)),
        Fast::Scalar(i, end) => step_of(
            seen_change(
                IdCode(i),
                code,
                ChangeKind::Scalar,
                Text { start: at, len: 1 },
            ),
            token::word_read(c, end, input[end]),
        ),
        Fast::Vector(i, stop, end) => step_of(
            seen_change(
                IdCode(i),
                code,
                ChangeKind::Vector,
                Text {
                    start: at + 1,
                    len: stop - (at + 1),
                },
            ),
            token::word_read(c, end, input[end]),
        ),
        Fast::Miss => step_slow(&input[0..], again(c), code),
    }
}

// A cursor made anew for the slow path, so that the fast path keeps its own in registers.
fn again(c: Cursor) -> Cursor
    ensures { result ≡ c }
{
    let sim = c.sim;
    Cursor {
        place: c.place,
        line: c.line,
        pending: c.pending,
        sim,
    }
}

fn step_slow(input: &[u8], c: Cursor, code: IdCode) -> Step
    requires { Valid input.now c }
    ensures { result ≡ step_from input.now code c (next_from input.now c) }
{
    match parser::next_command(input, c) {
        Next::Command(k, d) => step_of(seen_command(input, c, k, code), d),
        Next::Refused(e, line, d) => Step::Refused(d, e, line),
        Next::Done(d) => Step::Done(d),
    }
}

fn step_of(t: Seen, d: Cursor) -> Step
    ensures { result ≡ step_of t d }
{
    match t {
        Seen::Time(u) => Step::Time(d, u),
        Seen::Change(kind, v) => Step::Change(d, kind, v),
        Seen::Other => Step::Other(d),
    }
}

// What a command is to the listing of a code: a time, a change of the code, or nothing.
#[derive(Clone, Copy)]
pub enum Seen {
    Time(Time),
    Change(ChangeKind, Text),
    Other,
}

// The command k, read from c.
fn seen_command(input: &[u8], c: Cursor, k: Command, code: IdCode) -> Seen
    requires { Valid input.now c }
    ensures { result ≡ of_code code (role_of input.now c k) }
{
    match k {
        Command::Timestamp(t) => Seen::Time(t),
        Command::ChangeScalar(i, _) => seen_scalar(input, c, i, code),
        Command::ChangeVector(i, t) => seen_change(i, code, ChangeKind::Vector, t),
        Command::ChangeReal(i, t) => seen_change(i, code, ChangeKind::Real, t),
        Command::ChangeString(i, t) => seen_change(i, code, ChangeKind::String, t),
        Command::Comment(_) => Seen::Other,
        Command::Date(_) => Seen::Other,
        Command::Version(_) => Seen::Other,
        Command::Timescale(_, _) => Seen::Other,
        Command::ScopeDef(_, _) => Seen::Other,
        Command::Upscope => Seen::Other,
        Command::VarDef(_, _, _, _, _) => Seen::Other,
        Command::Enddefinitions => Seen::Other,
        Command::Begin(_) => Seen::Other,
        Command::End(_) => Seen::Other,
    }
}

// The place of a scalar is looked for only where the code is the one that is listed.
fn seen_scalar(input: &[u8], c: Cursor, i: IdCode, code: IdCode) -> Seen
    requires { Valid input.now c }
    ensures { result ≡ of_code code (change i ChangeKind.Scalar (first_of input.now c)) }
{
    if i == code {
        return Seen::Change(ChangeKind::Scalar, first(input, c));
    }
    Seen::Other
}

fn seen_change(i: IdCode, code: IdCode, kind: ChangeKind, v: Text) -> Seen
    ensures { result ≡ of_code code (change i kind v) }
{
    if i == code {
        return Seen::Change(kind, v);
    }
    Seen::Other
}

// A scalar's value is the first byte that its command was read from, after the blanks.
fn first(input: &[u8], c: Cursor) -> Text
    requires { Valid input.now c }
    ensures { result ≡ first_of input.now c }
{
    let d = token::skip(input, c);
    Text {
        start: d.place,
        len: 1,
    }
}
