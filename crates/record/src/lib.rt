// One command as nine words, for callers that share numbers alone, and the command that nine words are.
#![tactic(auto)]

pub mod used;

ghost use Rattle.std.specs.Prelude.{◌≡◌, ◌+◌, ◌*◌, ◌≤◌, length};
ghost use Rattle.record.specs.Record.{record_of, record_at, command_of, command_in, var_command, var_row, words_at, listed, plain_words, text_words, var_words, put as put_words, put_at};
ghost use Rattle.record.specs.Used.{amount_most};

use command::{Command, SimulationCommand, Time};
use idcode::IdCode;
use rows::{Row, RowWords};
use scope::{ScopeType, Var};
use text::Text;
use timescale::TimescaleUnit;
use value::Value;

// A record's words in a table's order; those that its kind does not use are 0.
#[derive(Clone, Copy)]
pub struct RecordWords {
    // One of the kinds below.
    pub kind: u64,
    // The type's number: of a unit, a scope's or variable's type, a value or a simulation command.
    pub number: u64,
    // The quantity, width or time.
    pub amount: u64,
    pub code: u64,
    // Place and length of the text.
    pub start: u64,
    pub len: u64,
    // The index, as in a header's row.
    pub form: u64,
    pub first: u64,
    pub second: u64,
}

// Words a record.
pub const WORDS: usize = 9;

// The kinds of records, in the order of `Command`.
pub const COMMENT: u64 = 1;

pub const DATE: u64 = 2;

pub const VERSION: u64 = 3;

pub const TIMESCALE: u64 = 4;

pub const SCOPE: u64 = 5;

pub const UPSCOPE: u64 = 6;

pub const VAR: u64 = 7;

pub const ENDDEFINITIONS: u64 = 8;

pub const TIMESTAMP: u64 = 9;

pub const SCALAR: u64 = 10;

pub const VECTOR: u64 = 11;

pub const REAL: u64 = 12;

pub const STRING: u64 = 13;

pub const BEGIN: u64 = 14;

pub const END: u64 = 15;

// The words of a command.
pub fn words_of(k: Command) -> RecordWords
    ensures { result ≡ record_of k }
{
    match k {
        Command::Comment(t) => text_words(COMMENT, 0, 0, t),
        Command::Date(t) => text_words(DATE, 0, 0, t),
        Command::Version(t) => text_words(VERSION, 0, 0, t),
        Command::Timescale(n, u) => plain_words(TIMESCALE, u.number(), n as u64, 0),
        Command::ScopeDef(t, name) => text_words(SCOPE, t.number(), 0, name),
        Command::Upscope => plain_words(UPSCOPE, 0, 0, 0),
        Command::VarDef(var_type, size, code, reference, index) => var_words(Var {
            var_type,
            size,
            code,
            reference,
            index,
        }),
        Command::Enddefinitions => plain_words(ENDDEFINITIONS, 0, 0, 0),
        Command::Timestamp(t) => timestamp_words(t.0),
        Command::ChangeScalar(i, v) => scalar_words(v.number(), i.0),
        Command::ChangeVector(i, t) => text_words(VECTOR, 0, i.0, t),
        Command::ChangeReal(i, t) => text_words(REAL, 0, i.0, t),
        Command::ChangeString(i, t) => text_words(STRING, 0, i.0, t),
        Command::Begin(s) => plain_words(BEGIN, s.number(), 0, 0),
        Command::End(s) => plain_words(END, s.number(), 0, 0),
    }
}

// The words of a record that has neither a text nor an index.
fn plain_words(kind: u64, number: u64, amount: u64, code: u64) -> RecordWords
    ensures { result ≡ plain_words kind number amount code }
{
    RecordWords {
        kind,
        number,
        amount,
        code,
        start: 0,
        len: 0,
        form: 0,
        first: 0,
        second: 0,
    }
}

// The words of a record that has a text, and neither an amount nor an index.
fn text_words(kind: u64, number: u64, code: u64, text: Text) -> RecordWords
    ensures { result ≡ text_words kind number code text }
{
    RecordWords {
        kind,
        number,
        amount: 0,
        code,
        start: text.start as u64,
        len: text.len as u64,
        form: 0,
        first: 0,
        second: 0,
    }
}

// The words of a timestamp.
pub fn timestamp_words(time: u64) -> RecordWords
    ensures { result ≡ plain_words 9 0 time 0 }
{
    plain_words(TIMESTAMP, 0, time, 0)
}

// The words of a scalar's change, by its value's number and its code.
pub fn scalar_words(number: u64, code: u64) -> RecordWords
    ensures { result ≡ plain_words 10 number 0 code }
{
    plain_words(SCALAR, number, 0, code)
}

// The words of a vector's change, by its code and its text.
pub fn vector_words(code: u64, text: Text) -> RecordWords
    ensures { result ≡ text_words 11 0 code text }
{
    text_words(VECTOR, 0, code, text)
}

// The words of a variable's definition.
pub fn var_words(v: Var) -> RecordWords
    ensures { result ≡ var_words v }
{
    let var_type = v.var_type;
    let code = v.code;
    let name = v.reference;
    let index = v.index;
    RecordWords {
        kind: VAR,
        number: var_type.number(),
        amount: v.size as u64,
        code: code.0,
        start: name.start as u64,
        len: name.len as u64,
        form: rows::index_form(index),
        first: rows::first_word(index),
        second: rows::second_word(index),
    }
}

// Stores the words of record `n`.
pub fn put(records: &mut [u64], n: usize, w: RecordWords)
    requires { 9 * n + 9 ≤ length records.old }
    ensures { records.new ≡ put_words records.old n (listed w) }
{
    put_at(records, WORDS * n, w);
}

// Stores the words of the record whose first word stands at `at`.
pub fn put_at(records: &mut [u64], at: usize, w: RecordWords)
    requires { at + 9 ≤ length records.old }
    ensures { records.new ≡ put_at records.old at (listed w) }
{
    records[at] = w.kind;
    records[at + 1] = w.number;
    records[at + 2] = w.amount;
    records[at + 3] = w.code;
    records[at + 4] = w.start;
    records[at + 5] = w.len;
    records[at + 6] = w.form;
    records[at + 7] = w.first;
    records[at + 8] = w.second;
}

// Record `i` of a table.
pub fn record_at(records: &[u64], i: usize) -> Option<Command>
    ensures { result ≡ record_at records.now i }
{
    if records.len() / WORDS <= i {
        return None;
    }
    words_at(records, WORDS * i).command()
}

// The words from `at` on.
fn words_at(records: &[u64], at: usize) -> RecordWords
    requires { at + 9 ≤ length records.now }
    ensures { result ≡ words_at records.now at }
{
    RecordWords {
        kind: records[at],
        number: records[at + 1],
        amount: records[at + 2],
        code: records[at + 3],
        start: records[at + 4],
        len: records[at + 5],
        form: records[at + 6],
        first: records[at + 7],
        second: records[at + 8],
    }
}

impl RecordWords {
    // The command of the words.
    pub fn command(self) -> Option<Command>
        ensures { result ≡ command_of self }
    {
        if self.kind == VAR {
            return var_of(self.var_row().row());
        }
        if self.form != 0 || self.first != 0 || self.second != 0 {
            return None;
        }
        if !used::is_used(self) {
            return None;
        }
        Some(self.made())
    }

    // The words of a variable as those of a header's row.
    fn var_row(self) -> RowWords
        ensures { result ≡ var_row self }
    {
        RowWords {
            kind: rows::VAR,
            parent: 0,
            number: self.number,
            width: self.amount,
            code: self.code,
            start: self.start,
            len: self.len,
            form: self.form,
            first: self.first,
            second: self.second,
        }
    }

    // The command of a kind other than a variable's, by the words that it uses.
    fn made(self) -> Command
        requires { self.amount ≤ amount_most self.kind }
        ensures { result ≡ command_in self }
    {
        let text = Text {
            start: self.start as usize,
            len: self.len as usize,
        };
        let code = IdCode(self.code);
        let kind = self.kind;
        match kind {
            COMMENT => Command::Comment(text),
            DATE => Command::Date(text),
            VERSION => Command::Version(text),
            TIMESCALE => Command::Timescale(
                self.amount as u32,
                TimescaleUnit::from_number(self.number),
            ),
            SCOPE => Command::ScopeDef(ScopeType::from_number(self.number), text),
            UPSCOPE => Command::Upscope,
            ENDDEFINITIONS => Command::Enddefinitions,
            TIMESTAMP => Command::Timestamp(Time(self.amount)),
            SCALAR => Command::ChangeScalar(code, Value::from_number(self.number)),
            VECTOR => Command::ChangeVector(code, text),
            REAL => Command::ChangeReal(code, text),
            STRING => Command::ChangeString(code, text),
            BEGIN => Command::Begin(SimulationCommand::from_number(self.number)),
            _ => Command::End(SimulationCommand::from_number(self.number)),
        }
    }
}

// The command of a header's row.
fn var_of(row: Row) -> Option<Command>
    ensures { result ≡ var_command row }
{
    match row {
        Row::Var(_, v) => {
            let t = v.var_type;
            let i = v.code;
            let r = v.reference;
            let x = v.index;
            Some(Command::VarDef(t, v.size, i, r, x))
        }
        Row::Scope(_, _, _) => None,
        Row::Comment(_, _) => None,
        Row::None => None,
    }
}
