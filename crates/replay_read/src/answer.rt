// The answer to one case: every command, then the end or the fourth refusal.
ghost use Rattle.std.specs.Prelude.{◌≤◌};

use command::Command;
use parser::Next;
use replay::line::{Line, Shown, Word};
use replay::{line, put_byte, put_number};
use token::Cursor;

// Reading a case stops once this many answers count; a refusal counts as one, the end as all.
const STOP: u64 = 4;

// Every answer takes a byte, refuses or ends, so this many are enough.
const MOST_ANSWERS: u64 = 4294967296;

// One answer of the reader: the line that shows it, the reader's line and cursor then, and how much it counts.
#[derive(Clone, Copy)]
struct Shows {
    line: Line,
    at: u64,
    cursor: Cursor,
    counts: u64,
}

pub fn answer(case: &[u8], number: u64, out: &mut [u8], at: usize) -> usize {
    let mut o = replay::put_case(out, at, number);
    let mut c = parser::start();
    let mut count: u64 = 0;
    for _ in 0..MOST_ANSWERS {
        let a = answer_of(parser::next_command(case, c));
        o = put_answer(out, o, case, a);
        c = a.cursor;
        count += a.counts;
        if STOP <= count {
            return o;
        }
    }
    o
}

fn answer_of(next: Next) -> Shows
    ensures { result.counts ≤ 4 }
{
    match next {
        Next::Command(k, cursor) => Shows {
            line: line_of(k),
            at: cursor.line,
            cursor,
            counts: 0,
        },
        Next::Refused(e, at, cursor) => Shows {
            line: line::worded(line::REFUSED, Word::Number(e.number())),
            at,
            cursor,
            counts: 1,
        },
        Next::Done(cursor) => Shows {
            line: line::bare(line::DONE),
            at: cursor.line,
            cursor,
            counts: STOP,
        },
    }
}

fn put_answer(out: &mut [u8], at: usize, s: &[u8], a: Shows) -> usize {
    let o = line::put_line(out, at, s, a.line);
    let p = put_number(out, o, a.at);
    let q = put_number(out, p, a.cursor.place as u64);
    put_byte(out, q, b'\n')
}

fn line_of(k: Command) -> Line {
    Line {
        name: name_of(k),
        kind: kind_of(k),
        first: first_of(k),
        second: second_of(k),
        shown: shown_of(k),
        last: last_of(k),
    }
}

fn name_of(k: Command) -> u64 {
    match k {
        Command::Comment(_) => line::COMMENT,
        Command::Date(_) => line::DATE,
        Command::Version(_) => line::VERSION,
        Command::Timescale(_, _) => line::TIMESCALE,
        Command::ScopeDef(_, _) => line::SCOPE,
        Command::Upscope => line::UPSCOPE,
        Command::VarDef(_, _, _, _, _) => line::VAR,
        Command::Enddefinitions => line::ENDDEFINITIONS,
        Command::Timestamp(_) => line::TIME,
        Command::ChangeScalar(_, _) => line::SCALAR,
        Command::ChangeVector(_, _) => line::VECTOR,
        Command::ChangeReal(_, _) => line::REAL,
        Command::ChangeString(_, _) => line::STRING,
        Command::Begin(_) => line::BEGIN,
        Command::End(_) => line::END,
    }
}

fn kind_of(k: Command) -> Word {
    match k {
        Command::ScopeDef(t, _) => Word::Scope(t),
        Command::VarDef(t, _, _, _, _) => Word::Var(t),
        Command::Begin(t) | Command::End(t) => Word::Sim(t),
        _ => Word::None,
    }
}

// A size, a time or an id.
fn first_of(k: Command) -> Word {
    match k {
        Command::Timescale(n, _) | Command::VarDef(_, n, _, _, _) => Word::Number(n as u64),
        Command::Timestamp(t) => Word::Number(t.0),
        Command::ChangeScalar(i, _)
        | Command::ChangeVector(i, _)
        | Command::ChangeReal(i, _)
        | Command::ChangeString(i, _) => Word::Number(i.0),
        _ => Word::None,
    }
}

fn second_of(k: Command) -> Word {
    match k {
        Command::Timescale(_, u) => Word::Unit(u),
        Command::VarDef(_, _, i, _, _) => Word::Number(i.0),
        Command::ChangeScalar(_, v) => Word::Value(v),
        _ => Word::None,
    }
}

fn shown_of(k: Command) -> Shown {
    match k {
        Command::Comment(t)
        | Command::Date(t)
        | Command::Version(t)
        | Command::ScopeDef(_, t)
        | Command::VarDef(_, _, _, t, _)
        | Command::ChangeReal(_, t)
        | Command::ChangeString(_, t) => Shown::Text(t),
        Command::ChangeVector(_, t) => Shown::Values(t),
        _ => Shown::None,
    }
}

fn last_of(k: Command) -> Word {
    match k {
        Command::VarDef(_, _, _, _, x) => Word::Index(x),
        _ => Word::None,
    }
}
