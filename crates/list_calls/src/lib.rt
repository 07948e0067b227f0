// The listing calls of the library for C and Rust, over numbers and lent arrays alone. Each answers OK or the number of a refusal. The
// cursor and the last time travel as words that the caller keeps (crates vcd_state and change); words that are none are refused by
// BAD_PLACE with nothing changed.
#![tactic(auto)]

ghost use Rattle.std.specs.Prelude.{◌≡◌};
ghost use Rattle.list_calls.specs.Listings.{list_call, list_on_call, status_of};

use idcode::IdCode;
use listing::Ended;

const OK: u64 = 0;

const BAD_PLACE: u64 = 25;

// Lists the changes of a code from the cursor on into rows of six words, and counts them.
pub fn list(input: &[u8], cursor: &mut [u64], code: u64, rows: &mut [u64], count: &mut u64) -> u64
    ensures status { result ≡ (list_call input.now cursor.old code rows.old count.old).status }
    ensures cursor { cursor.new ≡ (list_call input.now cursor.old code rows.old count.old).cursor }
    ensures rows { rows.new ≡ (list_call input.now cursor.old code rows.old count.old).table }
    ensures count { count.new ≡ (list_call input.now cursor.old code rows.old count.old).count }
{
    let mut since = [0, 0];
    list_on(input, cursor, &mut since, code, rows, count)
}

// The same from where a listing stopped: `since` is the last time before the cursor, and afterwards the last one that was read.
pub fn list_on(
    input: &[u8],
    cursor: &mut [u64],
    since: &mut [u64],
    code: u64,
    rows: &mut [u64],
    count: &mut u64,
) -> u64
    ensures status { result ≡ (list_on_call input.now cursor.old since.old code rows.old count.old).status }
    ensures cursor { cursor.new ≡ (list_on_call input.now cursor.old since.old code rows.old count.old).cursor }
    ensures since { since.new ≡ (list_on_call input.now cursor.old since.old code rows.old count.old).since }
    ensures rows { rows.new ≡ (list_on_call input.now cursor.old since.old code rows.old count.old).table }
    ensures count { count.new ≡ (list_on_call input.now cursor.old since.old code rows.old count.old).count }
{
    match vcd_state::cursor_of(cursor) {
        None => BAD_PLACE,
        Some(c) => match change::since_in(since) {
            None => BAD_PLACE,
            Some(t) => {
                let a = listing::list_on(input, c, t, IdCode(code), rows);
                let d = a.cursor;
                let last = a.since;
                let ended = a.ended;
                vcd_state::put_cursor(cursor, d);
                change::put_since(since, last);
                *count = a.count as u64;
                status(ended)
            }
        },
    }
}

fn status(e: Ended) -> u64
    ensures { result ≡ status_of e }
{
    match e {
        Ok(()) => OK,
        Err((r, _)) => r.number(),
    }
}
