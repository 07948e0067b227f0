// The canonical form: lines of a name, words and a text.
use command::SimulationCommand;
use console::{put, put_byte};
use scope::{ReferenceIndex, ScopeType, VarType};
use text::{Spelled, Text};
use timescale::TimescaleUnit;
use value::Value;

// The names of lines: numbers of the words of NAMES.
pub const COMMENT: u64 = 0;

pub const DATE: u64 = 1;

pub const VERSION: u64 = 2;

pub const TIMESCALE: u64 = 3;

pub const SCOPE: u64 = 4;

pub const UPSCOPE: u64 = 5;

pub const VAR: u64 = 6;

pub const ENDDEFINITIONS: u64 = 7;

pub const TIME: u64 = 8;

pub const SCALAR: u64 = 9;

pub const VECTOR: u64 = 10;

pub const REAL: u64 = 11;

pub const STRING: u64 = 12;

pub const BEGIN: u64 = 13;

pub const END: u64 = 14;

pub const DONE: u64 = 15;

pub const REFUSED: u64 = 16;

pub const HEADER: u64 = 17;

pub const NONE: u64 = 18;

const NAMES: [u8; 129] =
    *b"comment date version timescale scope upscope var enddefinitions time scalar vector real string begin end done refused header none";

// A line: its name, and what stands after it, each where there is one.
#[derive(Clone, Copy)]
pub struct Line {
    pub name: u64,
    pub kind: Word,
    pub first: Word,
    pub second: Word,
    pub shown: Shown,
    pub last: Word,
}

// A word by what it means.
#[derive(Clone, Copy)]
pub enum Word {
    None,
    Dash,
    Number(u64),
    Scope(ScopeType),
    Var(VarType),
    Unit(TimescaleUnit),
    Sim(SimulationCommand),
    Value(Value),
    Index(ReferenceIndex),
}

// A text as its bytes, or as values in lower case.
#[derive(Clone, Copy)]
pub enum Shown {
    None,
    Text(Text),
    Values(Text),
}

// The line of a name alone.
pub fn bare(name: u64) -> Line {
    line_of(name, Word::None, Shown::None)
}

// The line of a name and a text.
pub fn texted(name: u64, t: Text) -> Line {
    line_of(name, Word::None, Shown::Text(t))
}

// The line of a name and a word.
pub fn worded(name: u64, kind: Word) -> Line {
    line_of(name, kind, Shown::None)
}

fn line_of(name: u64, kind: Word, shown: Shown) -> Line {
    Line {
        name,
        kind,
        first: Word::None,
        second: Word::None,
        shown,
        last: Word::None,
    }
}

// Puts the line, all but its LF. The text is a place in `s`.
pub fn put_line(out: &mut [u8], at: usize, s: &[u8], line: Line) -> usize {
    let o = put(out, at, crate::word(&NAMES, line.name));
    let p = put_words(out, o, line.kind, line.first, line.second);
    let q = put_shown(out, p, s, line.shown);
    put_word(out, q, spell(line.last))
}

fn put_words(out: &mut [u8], at: usize, a: Word, b: Word, c: Word) -> usize {
    let o = put_word(out, at, spell(a));
    let p = put_word(out, o, spell(b));
    put_word(out, p, spell(c))
}

fn spell(w: Word) -> Spelled {
    match w {
        Word::None => text::spell(b""),
        Word::Dash => text::spell(b"-"),
        Word::Number(n) => number::decimal(n),
        Word::Scope(k) => k.spell(),
        Word::Var(k) => k.spell(),
        Word::Unit(u) => u.spell(),
        Word::Sim(k) => k.spell(),
        Word::Value(v) => spell_byte(v.byte()),
        Word::Index(x) => spell_index(x),
    }
}

fn spell_byte(b: u8) -> Spelled {
    text::spell(&[b])
}

// The index, or `-`.
fn spell_index(x: ReferenceIndex) -> Spelled {
    match x {
        ReferenceIndex::None => text::spell(b"-"),
        ReferenceIndex::BitSelect(_) | ReferenceIndex::Range(_, _) => x.spell(),
    }
}

// A space and the word; nothing where it is empty.
pub fn put_word(out: &mut [u8], at: usize, word: Spelled) -> usize {
    if word.len == 0 {
        return at;
    }
    let o = put_byte(out, at, b' ');
    put(out, o, word.as_bytes())
}

// A space and the number.
pub fn put_number(out: &mut [u8], at: usize, n: u64) -> usize {
    put_word(out, at, number::decimal(n))
}

// A space and the open simulation command's name, or `-`.
pub fn put_open(out: &mut [u8], at: usize, o: Option<SimulationCommand>) -> usize {
    put_word(out, at, spell_open(o))
}

fn spell_open(o: Option<SimulationCommand>) -> Spelled {
    match o {
        None => text::spell(b"-"),
        Some(k) => k.spell(),
    }
}

// The line that begins a case's answer.
pub fn put_case(out: &mut [u8], at: usize, number: u64) -> usize {
    let o = put(out, at, b"case");
    let p = put_number(out, o, number);
    put_byte(out, p, b'\n')
}

fn put_shown(out: &mut [u8], at: usize, s: &[u8], shown: Shown) -> usize {
    match shown {
        Shown::None => at,
        Shown::Text(t) => put_text(out, at, text::part(s, t)),
        Shown::Values(t) => put_values(out, at, text::part(s, t)),
    }
}

// A space, `"`, and the bytes: 33 to 126 but the backslash as themselves, others as `\xNN`.
pub fn put_text(out: &mut [u8], at: usize, text: &[u8]) -> usize {
    let mut o = put(out, at, b" \"");
    for &b in text {
        o = put_escaped(out, o, b);
    }
    o
}

fn put_escaped(out: &mut [u8], at: usize, b: u8) -> usize {
    if b.is_ascii_graphic() && b != b'\\' {
        return put_byte(out, at, b);
    }
    // Two bytes one by one: a copy of so few costs more.
    let o = put_byte(out, at, b'\\');
    let p = put_byte(out, o, b'x');
    let q = put_byte(out, p, hex(b / 16));
    put_byte(out, q, hex(b % 16))
}

fn hex(n: u8) -> u8 {
    let d = n % 16;
    if d < 10 { b'0' + d } else { b'a' + (d - 10) }
}

// A space and the values in lower case.
pub fn put_values(out: &mut [u8], at: usize, text: &[u8]) -> usize {
    let mut o = put_byte(out, at, b' ');
    for &b in text {
        o = put_byte(out, o, value::vector::lowered(b));
    }
    o
}
