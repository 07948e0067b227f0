// Reading one command (parser.rs of vcd 0.7.0): the first byte chooses, each part is judged before the next is read.
#![tactic(auto)]

ghost use Rattle.std.specs.Prelude.{◌≡◌};
ghost use Rattle.token.specs.Read.{Valid};
ghost use Rattle.parser_part.specs.Plan.{run, dollar, word_plan, kind_of, kind_plan, ended as ended_of, with_open};
ghost use Rattle.parser.specs.Next.{is_good, next_from, fresh as fresh_cursor};

use command::{Command, Refusal, SimulationCommand, Word};
use parser_part::Kind;
use token::{Cursor, Reading};
use value::Value;

// A command and the cursor after it; a refusal, its line, and the cursor just after the last byte read; or the end.
// Three ways on, so an enum of its own: a loop asks which in one `match`, where a `Result` of an `Option` takes two.
#[derive(Clone, Copy)]
pub enum Next {
    Command(Command, Cursor),
    Refused(Refusal, u64, Cursor),
    Done(Cursor),
}

// The cursor before the first byte.
pub fn start() -> Cursor
    ensures { result ≡ fresh_cursor }
{
    Cursor {
        place: 0,
        line: 1,
        pending: false,
        sim: None,
    }
}

// The next command.
pub fn next_command(input: &[u8], c: Cursor) -> Next
    ensures { result ≡ next_from input.now c }
{
    if !placed(input, c) {
        return Next::Refused(Refusal::BadPlace, c.line, c);
    }
    let from = token::skip(input, c);
    let at = from.place;
    if input.len() <= at {
        return Next::Done(token::end_read(from));
    }
    let b = input[at];
    // A byte after the blanks is no newline, so none is pending.
    match chosen(input, token::word_end_read(from, at + 1), kind_of(b)) {
        Ok((k, next)) => Next::Command(k, next),
        Err((e, next)) => Next::Refused(e, next.line, next),
    }
}

// May the cursor stand in the input?
#[tactic(auto, unfolding(crate::specs::Next::is_good))]
pub fn placed(input: &[u8], c: Cursor) -> bool
    ensures { result ≡ is_good input.now c }
{
    if text::LIMIT < input.len() {
        return false;
    }
    if input.len() < c.place {
        return false;
    }
    if c.line < 1 {
        return false;
    }
    let most = c.place as u64;
    if c.pending {
        c.line <= most
    } else {
        c.line <= most + 1
    }
}

#[tactic(auto, unfolding(parser_part::specs::Plan::kind_of, text::specs::Bytes::has))]
fn kind_of(b: u8) -> Kind
    ensures { result ≡ kind_of b }
{
    match b {
        b'$' => Kind::Dollar,
        b'#' => Kind::Hash,
        b'0' => Kind::Scalar(Value::V0),
        b'1' => Kind::Scalar(Value::V1),
        b'x' | b'X' => Kind::Scalar(Value::X),
        b'z' | b'Z' => Kind::Scalar(Value::Z),
        b'b' | b'B' => Kind::Vector,
        b'r' | b'R' => Kind::Real,
        b's' | b'S' => Kind::Text,
        _ => Kind::Other,
    }
}

// What the first byte asks for.
#[tactic(auto, using(parser_part::proofs::Parts::parts))]
fn chosen(input: &[u8], c: Cursor, k: Kind) -> Reading<Command>
    requires { Valid input.now c }
    ensures { result ≡ run (kind_plan k) input.now c }
{
    match k {
        Kind::Dollar => parse_command(input, c),
        Kind::Hash => parser_change::parse_timestamp(input, c),
        Kind::Scalar(v) => parser_change::parse_scalar(input, c, v),
        Kind::Vector => parser_change::parse_vector(input, c),
        Kind::Real => parser_change::parse_real(input, c),
        Kind::Text => parser_change::parse_string(input, c),
        Kind::Other => Err((Refusal::UnexpectedCharacter, c)),
    }
}

// The word after `$`, and what it asks for.
#[tactic(auto, using(parser_part::proofs::Parts::parts))]
fn parse_command(input: &[u8], c: Cursor) -> Reading<Command>
    requires { Valid input.now c }
    ensures { result ≡ run dollar input.now c }
{
    let (t, next) = token::read_token(input, c, 16)?;
    act(input, next, Word::from_str(text::part(input, t)))
}

#[tactic(auto, using(parser_part::proofs::Parts::parts))]
fn act(input: &[u8], c: Cursor, w: Word) -> Reading<Command>
    requires { Valid input.now c }
    ensures { result ≡ run (word_plan w) input.now c }
{
    match w {
        Word::Comment => parser_declare::read_comment(input, c),
        Word::Date => parser_declare::read_date(input, c),
        Word::Version => parser_declare::read_version(input, c),
        Word::Timescale => parser_declare::read_timescale(input, c),
        Word::Scope => parser_declare::read_scope(input, c),
        Word::Upscope => parser_part::read_command_end(input, c, Command::Upscope),
        Word::Var => parser_declare::read_var(input, c),
        Word::Enddefinitions => parser_part::read_command_end(input, c, Command::Enddefinitions),
        Word::Begin(k) => Ok((Command::Begin(k), with_open(c, Some(k)))),
        Word::End => ended(c),
        Word::Unknown => Err((Refusal::UnknownCommand, c)),
    }
}

fn with_open(c: Cursor, sim: Option<SimulationCommand>) -> Cursor
    ensures { result ≡ with_open c sim }
{
    Cursor { sim, ..c }
}

// `$end` closes the open simulation command.
fn ended(c: Cursor) -> Reading<Command>
    ensures { result ≡ ended_of c.sim c }
{
    let k = c.sim.ok_or((Refusal::UnmatchedEnd, c))?;
    Ok((Command::End(k), with_open(c, None)))
}
