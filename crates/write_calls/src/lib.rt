// The writing calls of the library for C and Rust, over numbers and lent arrays alone: commands, headers, rewriting, vectors at a width
// and id codes. Each answers OK or the number of a refusal. State travels as words that the caller keeps (crate vcd_state); an array of
// the wrong length, or words that are no state, are refused by BAD_PLACE with nothing changed.
#![tactic(auto)]

ghost use Rattle.std.specs.Prelude.{◌≡◌, length};
ghost use Rattle.idcode.specs.Id.{parse_id};
ghost use Rattle.widen.specs.Widen.{widen_answer, widen_bytes};
ghost use Rattle.write_calls.specs.Writing.{
  command_call,
  written_status,
  written_state,
  written_count,
  write_header_call,
  head_status,
  head_state,
  head_count,
  rewrite_call,
  rewrite_status,
  line_after,
  widen_status,
  widen_count,
  id_status,
  id_bytes,
  id_count,
  code_status,
  code_after,
};

use command::Refusal;
use idcode::IdCode;
use text::Text;
use write::Written;
use write_header::HeaderWritten;

const OK: u64 = 0;

const NO_ROOM: u64 = 21;

const NOT_WRITABLE: u64 = 22;

const BAD_PLACE: u64 = 25;

// No id.
const NONE: u64 = 0xffff_ffff_ffff_ffff;

// Writes the command of a record, whose texts stand in `src`, and counts its bytes.
pub fn command(
    writer: &mut [u64],
    src: &[u8],
    words: &[u64],
    out: &mut [u8],
    count: &mut u64,
) -> u64
    ensures status { result ≡ (command_call writer.old src.now words.now out.old count.old).status }
    ensures writer { writer.new ≡ (command_call writer.old src.now words.now out.old count.old).writer }
    ensures out { out.new ≡ (command_call writer.old src.now words.now out.old count.old).output }
    ensures count { count.new ≡ (command_call writer.old src.now words.now out.old count.old).count }
{
    if words.len() != record::WORDS {
        return BAD_PLACE;
    }
    match vcd_state::writer_of(writer) {
        Some(w) => match record::record_at(words, 0) {
            Some(k) => wrote(w.command(src, k, out), writer, count),
            None => BAD_PLACE,
        },
        None => BAD_PLACE,
    }
}

// A refused command leaves state and count as they were.
fn wrote(r: Written, writer: &mut [u64], count: &mut u64) -> u64
    requires { length writer.old ≡ 3 }
    ensures status { result ≡ written_status r }
    ensures writer { writer.new ≡ written_state writer.old r }
    ensures count { count.new ≡ written_count count.old r }
{
    match r {
        Ok((n, v)) => {
            vcd_state::put_writer(writer, v);
            *count = n as u64;
            OK
        }
        Err(e) => e.number(),
    }
}

// Writes a header: what is kept and the rows that `head` counts.
pub fn write_header(
    writer: &mut [u64],
    src: &[u8],
    head: &[u64],
    rows: &[u64],
    out: &mut [u8],
    count: &mut u64,
) -> u64
    ensures status { result ≡ (write_header_call writer.old src.now head.now rows.now out.old count.old).status }
    ensures writer { writer.new ≡ (write_header_call writer.old src.now head.now rows.now out.old count.old).writer }
    ensures out { out.new ≡ (write_header_call writer.old src.now head.now rows.now out.old count.old).output }
    ensures count { count.new ≡ (write_header_call writer.old src.now head.now rows.now out.old count.old).count }
{
    match vcd_state::writer_of(writer) {
        Some(w) => match vcd_state::head_of(head) {
            Some((h, n)) => wrote_header(
                write_header::header(w, src, h, rows, n, out),
                writer,
                count,
            ),
            None => BAD_PLACE,
        },
        None => BAD_PLACE,
    }
}

// Commands written before a refusal stay, and are counted.
fn wrote_header(r: HeaderWritten, writer: &mut [u64], count: &mut u64) -> u64
    requires { length writer.old ≡ 3 }
    ensures status { result ≡ head_status r }
    ensures writer { writer.new ≡ head_state r }
    ensures count { count.new ≡ head_count r }
{
    match r {
        Ok((n, v)) => {
            vcd_state::put_writer(writer, v);
            *count = n as u64;
            OK
        }
        Err((e, n, v)) => {
            vcd_state::put_writer(writer, v);
            *count = n as u64;
            e.number()
        }
    }
}

// Rewrites commands from the cursor on, as many as the output has room for; counts bytes, and stores the line of a refusal.
pub fn rewrite(
    input: &[u8],
    cursor: &mut [u64],
    writer: &mut [u64],
    out: &mut [u8],
    count: &mut u64,
    line: &mut u64,
) -> u64
    ensures status { result ≡ (rewrite_call input.now cursor.old writer.old out.old count.old line.old).status }
    ensures cursor { cursor.new ≡ (rewrite_call input.now cursor.old writer.old out.old count.old line.old).cursor }
    ensures writer { writer.new ≡ (rewrite_call input.now cursor.old writer.old out.old count.old line.old).writer }
    ensures out { out.new ≡ (rewrite_call input.now cursor.old writer.old out.old count.old line.old).output }
    ensures count { count.new ≡ (rewrite_call input.now cursor.old writer.old out.old count.old line.old).count }
    ensures line { line.new ≡ (rewrite_call input.now cursor.old writer.old out.old count.old line.old).line }
{
    match vcd_state::cursor_of(cursor) {
        Some(c) => match vcd_state::writer_of(writer) {
            Some(w) => {
                let a = rewrite::rewrite(input, c, w, out);
                let d = a.cursor;
                let v = a.writer;
                let ended = a.ended;
                vcd_state::put_cursor(cursor, d);
                vcd_state::put_writer(writer, v);
                *count = a.count as u64;
                rewrite_status(ended, line)
            }
            None => BAD_PLACE,
        },
        None => BAD_PLACE,
    }
}

fn rewrite_status(e: rewrite::Ended, line: &mut u64) -> u64
    ensures status { result ≡ rewrite_status e }
    ensures line { line.new ≡ line_after line.old e }
{
    match e {
        Ok(()) => OK,
        Err((r, n)) => {
            *line = n;
            r.number()
        }
    }
}

// Writes a vector of the input in lower case at a width, and counts its bytes.
pub fn widen(
    input: &[u8],
    start: usize,
    len: usize,
    width: u32,
    out: &mut [u8],
    count: &mut u64,
) -> u64
    ensures status { result ≡ widen_status (widen_answer input.now (record { start = start; len = len }) width out.old) }
    ensures out { out.new ≡ widen_bytes input.now (record { start = start; len = len }) width out.old }
    ensures count { count.new ≡ widen_count count.old (widen_answer input.now (record { start = start; len = len }) width out.old) }
{
    match widen::widen(input, Text { start, len }, width, out) {
        Ok(n) => {
            *count = n as u64;
            OK
        }
        Err(e) => e.number(),
    }
}

// Writes the text of an id code, and counts its bytes.
pub fn id_text(code: u64, out: &mut [u8], count: &mut u64) -> u64
    ensures status { result ≡ id_status code out.old }
    ensures out { out.new ≡ id_bytes code out.old }
    ensures count { count.new ≡ id_count code out.old count.old }
{
    if code == NONE {
        return NOT_WRITABLE;
    }
    match IdCode(code).put(out) {
        Some(n) => {
            *count = n as u64;
            OK
        }
        None => NO_ROOM,
    }
}

// The code that a text means.
pub fn id_code(text: &[u8], code: &mut u64) -> u64
    ensures status { result ≡ code_status (parse_id text.now) }
    ensures code { code.new ≡ code_after code.old (parse_id text.now) }
{
    match IdCode::from_str(text) {
        Ok(i) => {
            *code = i.0;
            OK
        }
        Err(e) => Refusal::from(e).number(),
    }
}
