// The listing of a code's changes into lent rows: an addition to what vcd 0.7.0 has.
#![tactic(auto)]

ghost use Rattle.std.specs.Prelude.{◌≡◌, length, ℕ, ◌+◌, ◌≤◌, ◌<◌, Option};
ghost use Rattle.listing.specs.Listing.{list_of, list_on_of, answer_of, Passes, Held};
ghost use Rattle.fast.specs.Fast.{Reads};
ghost use Rattle.command.specs.declared.Command.{Command};
ghost use Rattle.change.specs.Rows.{filled};
ghost use Rattle.token.specs.Read.{Valid};
ghost use Rattle.text.specs.Texts.{limit};

pub use change::{Change, ChangeKind, WORDS, change_at};
pub use command::Ended;
use command::{Command, Refusal, Time};
use fast::Fast;
use idcode::IdCode;
use list_step::Step;
use parser::Next;
use token::Cursor;

#[derive(Clone, Copy)]
pub struct ListAnswer {
    pub cursor: Cursor,
    pub count: usize,
    pub ended: Ended,
    pub since: Option<Time>,
}

// Lists the changes of `code` from the cursor on, where no timestamp was read before.
pub fn list(input: &[u8], c: Cursor, code: IdCode, rows: &mut [u64]) -> ListAnswer
    ensures answer { result ≡ answer_of (list_of input.now c code rows.old) }
    ensures table { rows.new ≡ filled (list_of input.now c code rows.old).rows rows.old }
{
    list_on(input, c, None, code, rows)
}

// Lists on from a cursor before which `since` was the last time: after 24, from the cursor and the time that were answered. A `loop`,
// since each command moves the cursor by what was read.
pub fn list_on(
    input: &[u8],
    c: Cursor,
    since: Option<Time>,
    code: IdCode,
    rows: &mut [u64],
) -> ListAnswer
    ensures answer { result ≡ answer_of (list_on_of input.now c since code rows.old) }
    ensures table { rows.new ≡ filled (list_on_of input.now c since code rows.old).rows rows.old }
{
    if !parser::placed(input, c) {
        return answer(c, 0, Err((Refusal::BadPlace, c.line)), since);
    }
    let cap = rows.len() / change::WORDS;
    let mut cur = c;
    let mut n: usize = 0;
    let mut last = since;
    loop {
        let ran = fast_run(input, cur, last, code);
        cur = ran.cursor;
        last = ran.since;
        match list_step::step_fast(input, cur, code) {
            Step::Time(d, t) => {
                last = Some(t);
                cur = d;
            }
            Step::Change(d, kind, v) => {
                if cap <= n {
                    return full(cur, n, last);
                }
                change::put_change(rows, n, last, d.line, kind, v);
                n += 1;
                cur = d;
            }
            Step::Other(d) => {
                cur = d;
            }
            Step::Refused(d, e, line) => {
                return answer(d, n, Err((e, line)), last);
            }
            Step::Done(d) => {
                return answer(d, n, Ok(()), last);
            }
        }
    }
}

// Where a run stands, and the last time then.
#[derive(Clone, Copy)]
struct Stand {
    cursor: Cursor,
    since: Option<Time>,
}

// Passes the most usual commands that are no changes of the code. Of times only the place of the last is kept.
fn fast_run(input: &[u8], c: Cursor, before: Option<Time>, code: IdCode) -> Stand
    requires { Valid input.now c }
    ensures { Passes input.now code c before result.cursor result.since }
{
    let most = fast::short_commands(input.len(), c.place, input.len());
    let mut cur = c;
    let mut last = input.len();
    for _ in 0..most {
        let at = cur.place;
        match fast::parse_short(input, at) {
            Fast::Time(_, end) => {
                last = at;
                cur = token::word_read(cur, end, input[end]);
            }
            Fast::Scalar(i, end) => {
                if i == code.0 {
                    return so_far(input, cur, last, before);
                }
                cur = token::word_read(cur, end, input[end]);
            }
            _ => return so_far(input, cur, last, before),
        }
    }
    so_far(input, cur, last, before)
}

// The run whose last time stands at `last`; at the end of the input where it passed none.
fn so_far(input: &[u8], cursor: Cursor, last: usize, before: Option<Time>) -> Stand
    requires { (length input.now ≤ limit) × (last < length input.now → last + 34 ≤ length input.now) }
    ensures { (result.cursor ≡ cursor) × ((u : Option Time) → Held input.now before last u → result.since ≡ u) }
{
    let since = if last < input.len() {
        time_at(input, last)
    } else {
        before
    };
    Stand { cursor, since }
}

// The timestamp that stands at a place.
fn time_at(input: &[u8], at: usize) -> Option<Time>
    requires { (length input.now ≤ limit) × (at + 34 ≤ length input.now) }
    ensures { (v e : ℕ) → Reads input.now at e (Command.Timestamp (record { 0 = v })) → result ≡ Some (record { 0 = v }) }
{
    match fast::parse_short(input, at) {
        Fast::Time(t, _) => Some(Time(t)),
        _ => time_read(input, at),
    }
}

// The timestamp that stands at a place, by the slow path.
fn time_read(input: &[u8], at: usize) -> Option<Time>
    requires { (length input.now ≤ limit) × (at ≤ length input.now) }
    ensures { (v e : ℕ) → Reads input.now at e (Command.Timestamp (record { 0 = v })) → result ≡ Some (record { 0 = v }) }
{
    let c = Cursor {
        place: at,
        line: 1,
        pending: false,
        sim: None,
    };
    match parser::next_command(input, c) {
        Next::Command(k, _) => match k {
            Command::Timestamp(t) => Some(t),
            _ => None,
        },
        _ => None,
    }
}

// 24: the cursor and the last time as they stood before the change.
fn full(c: Cursor, count: usize, since: Option<Time>) -> ListAnswer
    ensures { result ≡ record { cursor = c; count = count; ended = Err (Refusal.ListFull, c.line); since = since } }
{
    answer(c, count, Err((Refusal::ListFull, c.line)), since)
}

fn answer(cursor: Cursor, count: usize, ended: Ended, since: Option<Time>) -> ListAnswer
    ensures { result ≡ record { cursor = cursor; count = count; ended = ended; since = since } }
{
    ListAnswer {
        cursor,
        count,
        ended,
        since,
    }
}
