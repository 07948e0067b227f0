// A dump written anew, a turn at a time: each turn puts bytes at the start of a lent buffer and answers the state that the next one
// starts from.
#![tactic(auto)]

ghost use Rattle.std.specs.Prelude.{◌≡◌, false, length};
ghost use Rattle.command.specs.Refusals.{number_of};
ghost use Rattle.lines.specs.Lines.{refused_line};
ghost use Rattle.write.specs.Layout.{fresh};
ghost use Rattle.write_header.specs.Written.{header_call};
ghost use Rattle.reformat_job.specs.Turns.{Does, Leaves, turn_of, begin_turn, commands_turn, last_of, headed_turn, next_of, goes_on, count_of, is_finished, is_whole};

use command::Refusal;
use header::Header;
use rewrite::Rewritten;
use token::Cursor;
use write::Writer;
use write_header::HeaderWritten;

// The words of the rows and the bytes of output that are lent to a turn: both are part of the answer.
pub const ROW_WORDS: usize = lines::HEADER_ROWS * rows::WORDS;

pub const LENT: usize = 65536;

// Where the turns stand: before the header, after some commands, before the line of a refusal, or at the end, after the whole dump or
// not.
#[derive(Clone, Copy)]
pub enum State {
    Begin,
    Commands(Cursor, Writer),
    Last(Refusal, u64),
    Finished(bool),
}

// How many bytes a turn put, and the state then.
#[derive(Clone, Copy)]
pub struct Turn {
    pub count: usize,
    pub next: State,
}

pub fn is_finished(state: State) -> bool
    ensures { result ≡ is_finished state }
{
    matches!(state, State::Finished(_))
}

// Whether the turns ended after the whole dump.
pub fn is_whole(state: State) -> bool
    ensures { result ≡ is_whole state }
{
    matches!(state, State::Finished(true))
}

// One turn.
pub fn take_turn(input: &[u8], state: State, rows: &mut [u64], out: &mut [u8]) -> Turn
    ensures { Does result rows.new out.new out.old (turn_of input.now (length out.old) rows.old state) }
{
    match state {
        State::Begin => turn_begin(input, rows, out),
        State::Commands(c, w) => turn_commands(input, c, w, out),
        State::Last(e, line) => turn_last(e, line, out),
        State::Finished(whole) => Turn {
            count: 0,
            next: State::Finished(whole),
        },
    }
}

// Reads the header, and writes it where it is whole.
fn turn_begin(input: &[u8], rows: &mut [u64], out: &mut [u8]) -> Turn
    ensures { Does result rows.new out.new out.old (begin_turn input.now (length out.old) rows.old) }
{
    if lines::TAKEN < input.len() {
        return last(lines::put_long(out));
    }
    let h = header::read_header(input, parser::start(), rows);
    match h.ended {
        Ok(()) => turn_header(input, h.header, rows, h.count, h.cursor, out),
        Err((e, line)) => Turn {
            count: 0,
            next: State::Last(e, line),
        },
    }
}

// The header of a fresh writer, in one call.
fn turn_header(
    input: &[u8],
    kept: Header,
    rows: &[u64],
    count: usize,
    c: Cursor,
    out: &mut [u8],
) -> Turn
    ensures answer { result ≡ headed_turn c (header_call fresh input.now kept rows.now count out.old).answer }
    ensures bytes { out.new ≡ (header_call fresh input.now kept rows.now count out.old).left }
{
    match write_header::header(Writer::new(), input, kept, rows, count, out) {
        Ok((n, w)) => Turn {
            count: n,
            next: State::Commands(c, w),
        },
        Err((e, n, _)) => Turn {
            count: n,
            next: State::Last(e, c.line),
        },
    }
}

// As many commands as the output has room for.
fn turn_commands(input: &[u8], c: Cursor, w: Writer, out: &mut [u8]) -> Turn
    ensures { Leaves result out.new out.old (λ table. commands_turn input.now (length out.old) table c w) }
{
    let r = rewrite::rewrite(input, c, w, out);
    Turn {
        count: r.count,
        next: next_state(r),
    }
}

fn next_state(r: Rewritten) -> State
    ensures { result ≡ next_of r.cursor r.writer r.count r.ended }
{
    match r.ended {
        Ok(()) => State::Finished(true),
        Err((e, line)) => {
            if goes_on(e, r.count) {
                State::Commands(r.cursor, r.writer)
            } else {
                State::Last(e, line)
            }
        }
    }
}

// Whether the next turn has room for what this one had none for: not where all of the output was free.
fn goes_on(e: Refusal, count: usize) -> bool
    ensures { result ≡ goes_on e count }
{
    count != 0 && e.number() == Refusal::NoRoom.number()
}

// `refused NUMBER at LINE`.
fn turn_last(e: Refusal, line: u64, out: &mut [u8]) -> Turn
    ensures { Leaves result out.new out.old (λ table. last_of (length out.old) table (refused_line (number_of e) line)) }
{
    last(lines::put_refused(e.number(), line, out))
}

// The end after a last line.
fn last(p: Option<usize>) -> Turn
    ensures { result ≡ record { count = count_of p; next = State.Finished false } }
{
    match p {
        Some(n) => Turn {
            count: n,
            next: State::Finished(false),
        },
        None => Turn {
            count: 0,
            next: State::Finished(false),
        },
    }
}
