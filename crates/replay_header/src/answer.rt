// The answer to one case: the header's rows, what it kept, and how it ended. The words lent are filled beforehand, and those after
// the rows must stay.
ghost use Rattle.std.specs.Prelude.{◌≤◌};

use header::{Ended, Header, HeaderAnswer};
use replay::line::{Line, Shown, Word};
use replay::{line, put, put_byte, put_word};
use rows::{Row, RowNumber, WORDS};
use scope::Var;
use std::io::Stdout;
use text::{Spelled, Text};
use timescale::TimescaleUnit;
use token::Cursor;

// What the table is filled with.
const MARK: u64 = 0xeeee_eeee_eeee_eeee;

// Words lent that make no row.
const ODD: usize = 7;

const MOST_ROWS: usize = 5000;

pub fn answer(
    stdout: Stdout,
    case: &[u8],
    number: u64,
    table: &mut [u64],
    out: &mut [u8],
    at: usize,
) -> usize {
    let o = replay::put_case(out, at, number);
    let head = replay::line_at(case, 0);
    let rows = replay::number_in(text::part(case, head));
    let lent = replay::least(words_of(rows as usize) + ODD, table.len());
    let start = replay::after(case, head);
    let dump = text::part(
        case,
        Text {
            start,
            len: case.len(),
        },
    );
    answer_dump(stdout, dump, &mut table[..lent], out, o)
}

// The words of so many rows.
fn words_of(rows: usize) -> usize
    ensures { result ≤ 50000 }
{
    replay::least(rows, MOST_ROWS) * WORDS
}

fn answer_dump(stdout: Stdout, dump: &[u8], table: &mut [u64], out: &mut [u8], at: usize) -> usize {
    let a = read_filled(dump, table);
    put_answer(stdout, out, at, dump, table, a)
}

// Fills the table and reads the header into it.
fn read_filled(dump: &[u8], table: &mut [u64]) -> HeaderAnswer {
    table.fill(MARK);
    header::read_header(dump, parser::start(), table)
}

// Whether every word from `at` on is as it was.
fn is_marked(table: &[u64], at: usize) -> bool {
    table.iter().skip(at).all(|&w| w == MARK)
}

fn put_answer(
    stdout: Stdout,
    out: &mut [u8],
    at: usize,
    s: &[u8],
    table: &[u64],
    a: HeaderAnswer,
) -> usize {
    let o = put_rows(stdout, out, at, s, table, a.count);
    let p = put_kept(out, o, s, a.header);
    let q = put_ended(out, p, s, a.ended, a.cursor);
    if is_marked(table, words_of(a.count)) {
        return replay::flush(stdout, out, q);
    }
    put(out, q, b"spoilt\n")
}

fn put_rows(
    stdout: Stdout,
    out: &mut [u8],
    at: usize,
    s: &[u8],
    table: &[u64],
    count: usize,
) -> usize {
    let mut o = at;
    for i in 0..count {
        o = put_row(out, o, s, rows::row_at(table, i));
        o = replay::flush(stdout, out, o);
    }
    o
}

// The line of a row and its parent.
fn put_row(out: &mut [u8], at: usize, s: &[u8], row: Row) -> usize {
    let o = line::put_line(out, at, s, row_line(row));
    let p = put_word(out, o, parent_word(row));
    put_byte(out, p, b'\n')
}

fn row_line(row: Row) -> Line {
    match row {
        Row::Scope(_, k, t) => Line {
            name: line::SCOPE,
            kind: Word::Scope(k),
            first: Word::None,
            second: Word::None,
            shown: Shown::Text(t),
            last: Word::None,
        },
        Row::Var(_, v) => var_line(v),
        Row::Comment(_, t) => line::texted(line::COMMENT, t),
        Row::None => line::bare(line::NONE),
    }
}

fn var_line(v: Var) -> Line {
    Line {
        name: line::VAR,
        kind: Word::Var(v.var_type),
        first: Word::Number(v.size as u64),
        second: Word::Number(v.code.0),
        shown: Shown::Text(v.reference),
        last: Word::Index(v.index),
    }
}

fn parent_word(row: Row) -> Spelled {
    match row {
        Row::Scope(p, _, _) | Row::Var(p, _) | Row::Comment(p, _) => spell_parent(p),
        Row::None => text::spell(b""),
    }
}

fn spell_parent(p: Option<RowNumber>) -> Spelled {
    match p {
        None => text::spell(b"top"),
        Some(n) => number::decimal(n.0),
    }
}

fn put_kept(out: &mut [u8], at: usize, s: &[u8], h: Header) -> usize {
    let o = put_whole(out, at, s, text_line(line::DATE, h.date));
    let p = put_whole(out, o, s, text_line(line::VERSION, h.version));
    put_whole(out, p, s, timescale_line(h.timescale))
}

// A line and its LF.
fn put_whole(out: &mut [u8], at: usize, s: &[u8], line: Line) -> usize {
    let o = line::put_line(out, at, s, line);
    put_byte(out, o, b'\n')
}

fn text_line(name: u64, k: Option<Text>) -> Line {
    match k {
        None => line::worded(name, Word::Dash),
        Some(t) => line::texted(name, t),
    }
}

fn timescale_line(k: Option<(u32, TimescaleUnit)>) -> Line {
    match k {
        None => line::worded(line::TIMESCALE, Word::Dash),
        Some((n, unit)) => Line {
            name: line::TIMESCALE,
            kind: Word::None,
            first: Word::Number(n as u64),
            second: Word::Unit(unit),
            shown: Shown::None,
            last: Word::None,
        },
    }
}

fn put_ended(out: &mut [u8], at: usize, s: &[u8], e: Ended, c: Cursor) -> usize {
    let o = line::put_line(out, at, s, ended_line(e, c));
    let p = replay::put_open(out, o, c.sim);
    put_byte(out, p, b'\n')
}

// How the header ended, and the reader's line then.
fn ended_line(e: Ended, c: Cursor) -> Line {
    match e {
        Ok(()) => placed_line(line::HEADER, Word::Number(c.line), Word::None, c),
        Err((r, at)) => {
            placed_line(line::REFUSED, Word::Number(r.number()), Word::Number(at), c)
        }
    }
}

// A line that ends in the cursor's place and whether a newline is pending.
fn placed_line(name: u64, kind: Word, first: Word, c: Cursor) -> Line {
    Line {
        name,
        kind,
        first,
        second: Word::Number(c.place as u64),
        shown: Shown::None,
        last: Word::Number(u64::from(c.pending)),
    }
}
