// The commands of a dump, and every refusal with the number that the page gives it (the records of lib.rs of vcd 0.7.0).
// Texts and vectors are places in the lent input.
#![tactic(auto)]

ghost use Rattle.std.specs.Prelude.{◌≡◌, ◌≤◌, length, drop};
ghost use Rattle.text.specs.Bytes.{bytes, starts};
ghost use Rattle.text.specs.Names.{lookup};
ghost use Rattle.text.specs.Texts.{spelled};
ghost use Rattle.command.specs.Words.{sim_name, words, word_of, end_mark, first_end};
ghost use Rattle.command.specs.Refusals.{number_of};
ghost use Rattle.command.specs.Numbers.{sim_number, sim_of};

use idcode::{IdCode, InvalidIdCode};
use scope::{ReferenceIndex, ScopeType, VarType};
use text::{Spelled, Text};
use timescale::TimescaleUnit;
use value::Value;

// A time, in units of the timescale.
#[derive(Clone, Copy)]
pub struct Time(pub u64);

// An element in a VCD file.
#[derive(Clone, Copy)]
pub enum Command {
    Comment(Text),
    Date(Text),
    Version(Text),
    Timescale(u32, TimescaleUnit),
    ScopeDef(ScopeType, Text),
    Upscope,
    VarDef(VarType, u32, IdCode, Text, ReferenceIndex),
    Enddefinitions,
    Timestamp(Time),
    ChangeScalar(IdCode, Value),
    ChangeVector(IdCode, Text),
    ChangeReal(IdCode, Text),
    ChangeString(IdCode, Text),
    Begin(SimulationCommand),
    End(SimulationCommand),
}

// A simulation command type, used in `Command::Begin` and `Command::End`.
#[derive(Clone, Copy, PartialEq, Eq)]
pub enum SimulationCommand {
    Dumpall,
    Dumpoff,
    Dumpon,
    Dumpvars,
}

#[derive(Clone, Copy)]
pub enum Refusal {
    UnexpectedEof = 1,
    InvalidUtf8,
    UnexpectedCharacter,
    TokenTooLong,
    ExpectedEndCommand,
    UnmatchedEnd,
    UnknownCommand,
    UnexpectedHeaderCommand,
    ParseIntError,
    ParseFloatError,
    InvalidTimescaleUnit,
    InvalidScopeType,
    InvalidVarType,
    InvalidReferenceIndex,
    InvalidValueChar,
    IdEmpty,
    IdInvalidChars,
    IdTooLong,
    TooDeep,
    TableFull,
    NoRoom,
    NotWritable,
    BadTable,
    ListFull,
    BadPlace,
}

// How reading many commands ended: as it should, or by a refusal and the line of it.
pub type Ended = Result<(), (Refusal, u64)>;

// The words after `$`, compared in reading and written by the writer.
pub const COMMENT: [u8; 7] = *b"comment";

pub const DATE: [u8; 4] = *b"date";

pub const VERSION: [u8; 7] = *b"version";

pub const TIMESCALE: [u8; 9] = *b"timescale";

pub const SCOPE: [u8; 5] = *b"scope";

pub const UPSCOPE: [u8; 7] = *b"upscope";

pub const VAR: [u8; 3] = *b"var";

pub const ENDDEFINITIONS: [u8; 14] = *b"enddefinitions";

pub const DUMPALL: [u8; 7] = *b"dumpall";

pub const DUMPOFF: [u8; 7] = *b"dumpoff";

pub const DUMPON: [u8; 6] = *b"dumpon";

pub const DUMPVARS: [u8; 8] = *b"dumpvars";

// The closing mark. After its first byte stands the word that ends a simulation command.
pub const END: [u8; 4] = *b"$end";

// The words after `$`.
#[derive(Clone, Copy)]
pub enum Word {
    Comment,
    Date,
    Version,
    Timescale,
    Scope,
    Upscope,
    Var,
    Enddefinitions,
    Begin(SimulationCommand),
    End,
    Unknown,
}

impl Word {
    #[tactic(auto, using(text::proofs::Names::hit, text::proofs::Names::miss, text::proofs::Names::ended))]
    pub fn from_str(s: &[u8]) -> Word
        ensures { result ≡ word_of s.now }
    {
        if text::equals(s, &COMMENT) {
            return Word::Comment;
        }
        if text::equals(s, &DATE) {
            return Word::Date;
        }
        if text::equals(s, &VERSION) {
            return Word::Version;
        }
        if text::equals(s, &TIMESCALE) {
            return Word::Timescale;
        }
        Word::from_fifth(s)
    }

    // The words from the fifth on.
    #[tactic(auto, using(text::proofs::Names::hit, text::proofs::Names::miss, text::proofs::Names::ended))]
    fn from_fifth(s: &[u8]) -> Word
        ensures { result ≡ lookup (drop 4 words) Word.Unknown s.now }
    {
        if text::equals(s, &SCOPE) {
            return Word::Scope;
        }
        if text::equals(s, &UPSCOPE) {
            return Word::Upscope;
        }
        if text::equals(s, &VAR) {
            return Word::Var;
        }
        if text::equals(s, &ENDDEFINITIONS) {
            return Word::Enddefinitions;
        }
        Word::from_ninth(s)
    }

    // The words from the ninth on.
    #[tactic(auto, using(text::proofs::Names::hit, text::proofs::Names::miss, text::proofs::Names::ended))]
    fn from_ninth(s: &[u8]) -> Word
        ensures { result ≡ lookup (drop 8 words) Word.Unknown s.now }
    {
        if text::equals(s, &DUMPALL) {
            return Word::Begin(SimulationCommand::Dumpall);
        }
        if text::equals(s, &DUMPOFF) {
            return Word::Begin(SimulationCommand::Dumpoff);
        }
        if text::equals(s, &DUMPON) {
            return Word::Begin(SimulationCommand::Dumpon);
        }
        if text::equals(s, &DUMPVARS) {
            return Word::Begin(SimulationCommand::Dumpvars);
        }
        let mark = END;
        if text::equals(s, &mark[1..]) {
            return Word::End;
        }
        Word::Unknown
    }
}

// Whether the closing mark stands at i.
#[tactic(auto, using(crate::proofs::Ends::at_place))]
fn end_at(s: &[u8], i: usize) -> bool
    requires { i ≤ length s.now }
    ensures { result ≡ starts end_mark (drop i s.now) }
{
    // Nearly every byte is turned away by its own test, before four are compared.
    4 <= s.len() - i && s[i] == b'$' && text::equals(&s[i..i + 4], &END)
}

// The place of the first closing mark.
pub fn find_end(s: &[u8]) -> Option<usize>
    ensures { result ≡ first_end s.now }
{
    (0..s.len()).find(|&i| end_at(s, i))
}

impl SimulationCommand {
    pub fn spell(self) -> Spelled
        ensures { result ≡ spelled (bytes (sim_name self)) }
    {
        match self {
            SimulationCommand::Dumpall => text::spell(&DUMPALL),
            SimulationCommand::Dumpoff => text::spell(&DUMPOFF),
            SimulationCommand::Dumpon => text::spell(&DUMPON),
            SimulationCommand::Dumpvars => text::spell(&DUMPVARS),
        }
    }

    // The command's place in the order above, from 0.
    pub fn number(self) -> u64
        ensures { result ≡ sim_number self }
    {
        self as u64
    }

    // The command of a number; numbers past the last mean the last.
    #[tactic(auto, unfolding(crate::specs::Numbers::sim_of))]
    pub fn from_number(n: u64) -> SimulationCommand
        ensures { result ≡ sim_of n }
    {
        match n {
            0 => SimulationCommand::Dumpall,
            1 => SimulationCommand::Dumpoff,
            2 => SimulationCommand::Dumpon,
            _ => SimulationCommand::Dumpvars,
        }
    }
}

impl Refusal {
    // The page's number.
    pub fn number(self) -> u64
        ensures { result ≡ number_of self }
    {
        // The refusals stand in the page's order, the first at 1.
        self as u64
    }
}

// The refusal of a text that is no id.
impl From<InvalidIdCode> for Refusal {
    ghost use Rattle.command.specs.Refusals.{id_refusal};

    ghost from_gives = { λ e r. r ≡ id_refusal e };

    fn from(e: InvalidIdCode) -> Refusal {
        match e {
            InvalidIdCode::Empty => Refusal::IdEmpty,
            InvalidIdCode::InvalidChars => Refusal::IdInvalidChars,
            InvalidIdCode::TooLong => Refusal::IdTooLong,
        }
    }
}
