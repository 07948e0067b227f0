// The reading calls of the library for C and Rust, over numbers and lent arrays alone: commands, headers, names, and the rows of headers
// and listings. Each answers OK or the number of a refusal; reading answers DONE at the end. State travels as words that the caller keeps
// (crate vcd_state); an array of the wrong length, or words that are no state, are refused by BAD_PLACE with nothing changed.
#![tactic(auto)]

ghost use Rattle.std.specs.Prelude.{◌≡◌, ◌+◌, ◌*◌, ◌≤◌, length, take, drop};
ghost use Rattle.find.specs.Find.{found as found_row};
ghost use Rattle.find.specs.declared.Kind.{Kind};
ghost use Rattle.read_calls.specs.Reading.{
  next_call,
  read_call,
  read_status,
  header_call_of,
  header_status,
  row_status,
  row_copied,
  is_row_call,
  is_change_call,
  found_status,
  found_after,
};

use change::Change;
use find::FoundRow;
use rows::Row;

const OK: u64 = 0;

// The end of the input.
const DONE: u64 = 255;

const BAD_PLACE: u64 = 25;

// No row.
const NONE: u64 = 0xffff_ffff_ffff_ffff;

// Reads the next command into a record of nine words.
#[tactic(auto, unfolding(crate::specs::Reading::next_call))]
pub fn next(input: &[u8], cursor: &mut [u64], words: &mut [u64]) -> u64
    ensures status { result ≡ (next_call input.now cursor.old words.old).status }
    ensures cursor { cursor.new ≡ (next_call input.now cursor.old words.old).cursor }
    ensures words { words.new ≡ (next_call input.now cursor.old words.old).table }
{
    if words.len() != record::WORDS {
        return BAD_PLACE;
    }
    match vcd_state::cursor_of(cursor) {
        Some(c) => {
            let a = records::read(input, c, words);
            vcd_state::put_cursor(cursor, a.cursor);
            read_status(a.ended)
        }
        None => BAD_PLACE,
    }
}

// Reads commands into records until they are full or reading ends, and counts them.
#[tactic(auto, unfolding(crate::specs::Reading::read_call))]
pub fn read(input: &[u8], cursor: &mut [u64], records: &mut [u64], count: &mut u64) -> u64
    ensures status { result ≡ (read_call input.now cursor.old records.old count.old).status }
    ensures cursor { cursor.new ≡ (read_call input.now cursor.old records.old count.old).cursor }
    ensures records { records.new ≡ (read_call input.now cursor.old records.old count.old).table }
    ensures count { count.new ≡ (read_call input.now cursor.old records.old count.old).count }
{
    match vcd_state::cursor_of(cursor) {
        Some(c) => {
            let a = records::read(input, c, records);
            vcd_state::put_cursor(cursor, a.cursor);
            *count = a.count as u64;
            read_status(a.ended)
        }
        None => BAD_PLACE,
    }
}

fn read_status(e: records::Ended) -> u64
    ensures { result ≡ read_status e }
{
    match e {
        records::Ended::Full => OK,
        records::Ended::Whole => DONE,
        records::Ended::Refused(r, _) => r.number(),
    }
}

// Reads a header into rows of ten words, and what it keeps into ten words.
#[tactic(auto, unfolding(crate::specs::Reading::header_call_of))]
pub fn header(input: &[u8], cursor: &mut [u64], rows: &mut [u64], head: &mut [u64]) -> u64
    ensures status { result ≡ (header_call_of input.now cursor.old rows.old head.old).status }
    ensures cursor { cursor.new ≡ (header_call_of input.now cursor.old rows.old head.old).cursor }
    ensures rows { rows.new ≡ (header_call_of input.now cursor.old rows.old head.old).rows }
    ensures head { head.new ≡ (header_call_of input.now cursor.old rows.old head.old).head }
{
    if head.len() != vcd_state::HEAD {
        return BAD_PLACE;
    }
    match vcd_state::cursor_of(cursor) {
        Some(c) => {
            let a = header::read_header(input, c, rows);
            vcd_state::put_cursor(cursor, a.cursor);
            vcd_state::put_head(head, a.header, a.count);
            header_status(a.ended)
        }
        None => BAD_PLACE,
    }
}

fn header_status(e: header::Ended) -> u64
    ensures { result ≡ header_status e }
{
    match e {
        Ok(()) => OK,
        Err((r, _)) => r.number(),
    }
}

// Copies row `i` of a header; BAD_PLACE where there is none, or where its words are no row.
#[tactic(auto, unfolding(crate::specs::Reading::row_status, crate::specs::Reading::row_copied, crate::specs::Reading::is_row_call))]
pub fn row(rows: &[u64], i: usize, row: &mut [u64]) -> u64
    ensures status { result ≡ row_status (is_row_call rows.now i row.old) }
    ensures row { row.new ≡ row_copied (is_row_call rows.now i row.old) 10 rows.now i row.old }
{
    if row.len() != rows::WORDS {
        return BAD_PLACE;
    }
    match rows::row_at(rows, i) {
        Row::None => BAD_PLACE,
        Row::Scope(_, _, _) | Row::Var(_, _) | Row::Comment(_, _) => copy_row(rows, i, row),
    }
}

// Copies as many words as `row` has, from its place in the table on.
fn copy_row(rows: &[u64], i: usize, row: &mut [u64]) -> u64
    requires { length row.old * i + length row.old ≤ length rows.now }
    ensures status { result ≡ 0 }
    ensures row { row.new ≡ take (length row.old) (drop (length row.old * i) rows.now) }
{
    let words = row.len();
    let at = words * i;
    row.copy_from_slice(&rows[at..at + words]);
    OK
}

// The row of the scope at a path of names, parted by one space; NONE where there is none. A refusal leaves `row` as it was.
pub fn find_scope(input: &[u8], rows: &[u64], count: usize, path: &[u8], row: &mut u64) -> u64
    ensures status { result ≡ found_status (found_row input.now Kind.Scope rows.now count path.now) }
    ensures row { row.new ≡ found_after row.old (found_row input.now Kind.Scope rows.now count path.now) }
{
    found(find::find_scope(input, rows, count, path), row)
}

// The row of the variable at a path of names, parted by one space; NONE where there is none. A refusal leaves `row` as it was.
pub fn find_var(input: &[u8], rows: &[u64], count: usize, path: &[u8], row: &mut u64) -> u64
    ensures status { result ≡ found_status (found_row input.now Kind.Var rows.now count path.now) }
    ensures row { row.new ≡ found_after row.old (found_row input.now Kind.Var rows.now count path.now) }
{
    found(find::find_var(input, rows, count, path), row)
}

fn found(f: FoundRow, row: &mut u64) -> u64
    ensures status { result ≡ found_status f }
    ensures row { row.new ≡ found_after row.old f }
{
    match f {
        Ok(Some(n)) => {
            *row = n.0;
            OK
        }
        Ok(None) => {
            *row = NONE;
            OK
        }
        Err(e) => e.number(),
    }
}

// Copies row `i` of a listing; BAD_PLACE where there is none, or where its words are no row.
#[tactic(auto, unfolding(crate::specs::Reading::row_status, crate::specs::Reading::row_copied, crate::specs::Reading::is_change_call))]
pub fn change(rows: &[u64], i: usize, change: &mut [u64]) -> u64
    ensures status { result ≡ row_status (is_change_call rows.now i change.old) }
    ensures change { change.new ≡ row_copied (is_change_call rows.now i change.old) 6 rows.now i change.old }
{
    if change.len() != change::WORDS {
        return BAD_PLACE;
    }
    match change::change_at(rows, i) {
        Change::None => BAD_PLACE,
        Change::Is(_, _, _, _) => copy_row(rows, i, change),
    }
}
