// What the listing program prints, a turn at a time: each turn puts whole lines at the start of a lent buffer and answers the state that
// the next one starts from. The rows of the header and of a variable's listing stay in two lent tables between turns.
#![tactic(auto)]

ghost use Rattle.std.specs.Prelude.{◌≡◌, ◌&&◌, length};
ghost use Rattle.list_job.specs.Whole.{met_lines, end_lines, met_then, long_lines, is_full, is_whole};
ghost use Rattle.list_job.specs.Turns.{Does, Begins, Lists, Prints, Puts, count_of, is_finished, ended_whole, turn_of, row_turn, met_row};

use command::Refusal;
use listing::Ended;
use rows::Row;
use scope::Var;
use text::Text;
use token::Cursor;

// The most changes of a variable that are listed.
pub const CHANGES: usize = 1024;

// The words of both tables, and the bytes of an output in which every line has room.
pub const ROW_WORDS: usize = lines::HEADER_ROWS * rows::WORDS;

pub const CHANGE_WORDS: usize = CHANGES * listing::WORDS;

pub const ROOM: usize = 131136;

// Where the header ended, how many rows it has, the next of them, what was met so far, and whether all listings so far ended whole.
#[derive(Clone, Copy)]
pub struct Place {
    pub cursor: Cursor,
    pub count: usize,
    pub row: usize,
    pub met: Option<(Refusal, u64)>,
    pub whole: bool,
}

// A variable whose changes are printed: the next of its listing's rows, how many there are, and how the listing ended.
#[derive(Clone, Copy)]
pub struct Printing {
    pub name: Text,
    pub width: u32,
    pub next: usize,
    pub count: usize,
    pub ended: Ended,
}

// Finished tells whether the dump was whole: nothing of it was refused, and no listing was full.
#[derive(Clone, Copy)]
pub enum State {
    Begin,
    Row(Place),
    Lines(Place, Printing),
    Finished(bool),
}

// How many bytes a turn put, and the state then.
#[derive(Clone, Copy)]
pub struct Turn {
    pub count: usize,
    pub next: State,
}

pub fn is_finished(state: State) -> bool
    ensures { result ≡ is_finished state }
{
    matches!(state, State::Finished(_))
}

// The outcome, once it is finished.
pub fn is_whole(state: State) -> bool
    ensures { result ≡ ended_whole state }
{
    matches!(state, State::Finished(true))
}

// One turn.
pub fn take_turn(
    input: &[u8],
    state: State,
    rows: &mut [u64],
    changes: &mut [u64],
    out: &mut [u8],
) -> Turn
    ensures { Does result rows.new changes.new out.new out.old (turn_of input.now (length out.old) rows.old changes.old state) }
{
    match state {
        State::Begin => turn_begin(input, rows, out),
        State::Row(p) => turn_row(input, p, rows, changes, out),
        State::Lines(p, l) => turn_lines(input, p, l, changes, out),
        State::Finished(whole) => last(0, whole),
    }
}

// The header.
fn turn_begin(input: &[u8], rows: &mut [u64], out: &mut [u8]) -> Turn
    ensures { Begins result rows.new out.new input.now rows.old out.old }
{
    if lines::TAKEN < input.len() {
        return last(put_long(out), false);
    }
    let h = header::read_header(input, parser::start(), rows);
    match h.ended {
        Ok(()) => Turn {
            count: 0,
            next: State::Row(Place {
                cursor: h.cursor,
                count: h.count,
                row: 0,
                met: None,
                whole: true,
            }),
        },
        Err((e, line)) => last(put_met(Some((e, line)), out), false),
    }
}

fn last(count: usize, whole: bool) -> Turn
    ensures { result ≡ record { count = count; next = State.Finished whole } }
{
    Turn {
        count,
        next: State::Finished(whole),
    }
}

// The next row of the header: only variables are listed. After the last one, what was met.
fn turn_row(input: &[u8], p: Place, rows: &[u64], changes: &mut [u64], out: &mut [u8]) -> Turn
    ensures { Does result rows.now changes.new out.new out.old (row_turn input.now (length out.old) rows.now changes.old p) }
{
    if p.count <= p.row {
        return last(put_met(p.met, out), p.whole);
    }
    let next = Place {
        row: p.row + 1,
        ..p
    };
    match rows::row_at(rows, p.row) {
        Row::Var(_, v) => turn_var(input, next, v, changes),
        Row::Scope(_, _, _) => pass(next),
        Row::Comment(_, _) => pass(next),
        Row::None => pass(next),
    }
}

fn pass(next: Place) -> Turn
    ensures { result ≡ record { count = 0; next = State.Row next } }
{
    Turn {
        count: 0,
        next: State::Row(next),
    }
}

// Lists a variable.
fn turn_var(input: &[u8], p: Place, v: Var, changes: &mut [u64]) -> Turn
    ensures { Lists result changes.new input.now changes.old p v }
{
    let a = listing::list(input, p.cursor, v.code, changes);
    Turn {
        count: 0,
        next: State::Lines(
            p,
            Printing {
                name: v.reference,
                width: v.size,
                next: 0,
                count: a.count,
                ended: a.ended,
            },
        ),
    }
}

// As many lines of a variable as have room; after the last one, that it is full.
fn turn_lines(input: &[u8], p: Place, l: Printing, changes: &[u64], out: &mut [u8]) -> Turn
    ensures { Prints result out.new input.now changes.now out.old p l }
{
    let name = text::part(input, l.name);
    if l.next < l.count {
        let n = lines::put_changes(input, name, l.width, changes, l.next, l.count, out);
        if n.next <= l.next {
            return last(0, false);
        }
        return Turn {
            count: n.count,
            next: State::Lines(p, Printing { next: n.next, ..l }),
        };
    }
    Turn {
        count: put_end(name, l.ended, out),
        next: State::Row(after_listing(p, l.ended)),
    }
}

// The place after a listing that ended so.
fn after_listing(p: Place, ended: Ended) -> Place
    ensures { result ≡ met_row p ended }
{
    Place {
        met: met_then(p.met, ended),
        whole: whole_then(p.whole, ended),
        ..p
    }
}

// Whether all are whole, with a listing that ended so.
fn whole_then(whole: bool, ended: Ended) -> bool
    ensures { result ≡ is_whole ended && whole }
{
    match ended {
        Ok(()) => whole,
        Err((_, _)) => false,
    }
}

// Whether a listing ended because it was full.
fn is_full(e: Refusal) -> bool
    ensures { result ≡ is_full e }
{
    e.number() == Refusal::ListFull.number()
}

// The refusal met after a listing that ended so: a full one met none.
fn met_then(met: Option<(Refusal, u64)>, ended: Ended) -> Option<(Refusal, u64)>
    ensures { result ≡ met_then met ended }
{
    match ended {
        Ok(()) => met,
        Err((e, line)) => { if is_full(e) { met } else { Some((e, line)) } }
    }
}

fn put_long(out: &mut [u8]) -> usize
    ensures { Puts result out.new long_lines out.old }
{
    counted(lines::put_long(out))
}

// `refused NUMBER at LINE`, if a refusal was met.
fn put_met(met: Option<(Refusal, u64)>, out: &mut [u8]) -> usize
    ensures { Puts result out.new (met_lines met) out.old }
{
    match met {
        None => 0,
        Some((e, line)) => counted(lines::put_refused(e.number(), line, out)),
    }
}

// `NAME full`, if the listing ended so.
fn put_end(name: &[u8], ended: Ended, out: &mut [u8]) -> usize
    ensures { Puts result out.new (end_lines name.now ended) out.old }
{
    match ended {
        Ok(()) => 0,
        Err((e, _)) => {
            if is_full(e) {
                counted(lines::put_full(name, out))
            } else {
                0
            }
        }
    }
}

fn counted(p: Option<usize>) -> usize
    ensures { result ≡ count_of p }
{
    match p {
        Some(n) => n,
        None => 0,
    }
}
