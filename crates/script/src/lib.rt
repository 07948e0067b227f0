// The calls of a write case as they are written: lines of words, and the commands that the words mean (docs/ORACLE.md, "A write
// case"). Nothing is promised of these but that they are safe and end.
#![tactic(auto)]

use command::{Command, SimulationCommand, Time};
use idcode::IdCode;
use replay::word;
use scope::{ReferenceIndex, ScopeType, VarType};
use text::Text;
use timescale::TimescaleUnit;
use value::Value;

// The k-th word as a number; 0 where it is none.
pub fn number_at(line: &[u8], k: u64) -> u64 {
    replay::number_in(word(line, k))
}

// Stores the numbers of the words from the k-th on, as many as fit, and answers how many words there were.
pub fn numbers_from(line: &[u8], k: u64, into: &mut [u64]) -> usize {
    for n in 0..into.len() {
        let at = k.wrapping_add(n as u64);
        if replay::words_from(line, at).is_empty() {
            return n;
        }
        into[n] = number_at(line, at);
    }
    into.len()
}

fn narrow_at(line: &[u8], k: u64) -> u32 {
    match number::parse_u32(word(line, k)) {
        Some(v) => v,
        None => 0,
    }
}

fn signed_at(line: &[u8], k: u64) -> i32 {
    match number::parse_i32(word(line, k)) {
        Some(v) => v,
        None => 0,
    }
}

// The text at the start of a line: two words.
fn text_in(line: &[u8]) -> Text {
    let start = number_at(line, 0) as usize;
    let len = number_at(line, 1) as usize;
    Text { start, len }
}

// The index at the start of a line: one to three words.
fn index_in(line: &[u8]) -> ReferenceIndex {
    let n = signed_at(line, 1);
    let m = signed_at(line, 2);
    match number_at(line, 0) {
        0 => ReferenceIndex::None,
        1 => ReferenceIndex::BitSelect(n),
        _ => ReferenceIndex::Range(n, m),
    }
}

// A simulation command is counted from 1.
fn sim_of(n: u64) -> SimulationCommand {
    if n == 0 {
        SimulationCommand::Dumpvars
    } else {
        SimulationCommand::from_number(n - 1)
    }
}

// What the k-th word says is open: 0 for nothing.
pub fn open_at(line: &[u8], k: u64) -> Option<SimulationCommand> {
    match number_at(line, k) {
        0 => None,
        n => Some(sim_of(n)),
    }
}

// The words at which a call's line has its number, its type, its text and its index. No line has a tenth word.
#[derive(Clone, Copy)]
struct Places {
    number: u64,
    kind: u64,
    text: u64,
    index: u64,
}

fn places_of(call: u64) -> Places {
    match call {
        4 => at(2, 3, 0, 0),
        5 => at(0, 2, 3, 0),
        8 => at(3, 2, 5, 7),
        9 => at(3, 2, 4, 6),
        10 | 14 | 15 | 16 => at(2, 0, 3, 9),
        12 => at(2, 0, 0, 0),
        13 => at(2, 3, 0, 0),
        _ => at(0, 2, 2, 0),
    }
}

fn at(number: u64, kind: u64, text: u64, index: u64) -> Places {
    Places {
        number,
        kind,
        text,
        index,
    }
}

// The command that a call writes; `next` is the id that a variable gets where the call names none.
pub fn command_of(line: &[u8], next: IdCode) -> Command {
    let call = number_at(line, 1);
    let p = places_of(call);
    let n = number_at(line, p.number);
    let kind = number_at(line, p.kind);
    let text = text_in(replay::words_from(line, p.text));
    match call {
        1 => Command::Comment(text),
        2 => Command::Date(text),
        3 => Command::Version(text),
        4 => Command::Timescale(narrow_at(line, p.number), TimescaleUnit::from_number(kind)),
        5 => Command::ScopeDef(ScopeType::from_number(kind), text),
        6 => Command::ScopeDef(ScopeType::Module, text),
        7 => Command::Upscope,
        8 => variable(
            line,
            p,
            VarType::from_number(kind),
            IdCode(number_at(line, 4)),
            text,
        ),
        9 => variable(line, p, VarType::from_number(kind), next, text),
        10 => variable(line, p, VarType::Wire, next, text),
        11 => Command::Enddefinitions,
        _ => change_of(call, n, kind, text),
    }
}

fn variable(line: &[u8], p: Places, kind: VarType, id: IdCode, name: Text) -> Command {
    let size = narrow_at(line, p.number);
    let index = index_in(replay::words_from(line, p.index));
    Command::VarDef(kind, size, id, name, index)
}

// The calls from the twelfth on.
fn change_of(call: u64, n: u64, kind: u64, text: Text) -> Command {
    match call {
        12 => Command::Timestamp(Time(n)),
        13 => Command::ChangeScalar(IdCode(n), Value::from_number(kind)),
        14 => Command::ChangeVector(IdCode(n), text),
        15 => Command::ChangeReal(IdCode(n), text),
        16 => Command::ChangeString(IdCode(n), text),
        17 => Command::Begin(sim_of(kind)),
        _ => Command::End(sim_of(kind)),
    }
}
