// The library's fifteen calls, each that of `read_calls`, `list_calls` or `write_calls`, over numbers and lent arrays alone. `vcd_c`
// exports them.
#![tactic(auto)]

ghost use Rattle.std.specs.Prelude.{◌≡◌};
ghost use Rattle.find.specs.Find.{found as found_row};
ghost use Rattle.find.specs.declared.Kind.{Kind};
ghost use Rattle.idcode.specs.Id.{parse_id};
ghost use Rattle.list_calls.specs.Listings.{list_call, list_on_call};
ghost use Rattle.read_calls.specs.Reading.{
  next_call,
  read_call,
  header_call_of,
  row_status,
  row_copied,
  is_row_call,
  is_change_call,
  found_status,
  found_after,
};
ghost use Rattle.widen.specs.Widen.{widen_answer, widen_bytes};
ghost use Rattle.write_calls.specs.Writing.{
  command_call,
  write_header_call,
  rewrite_call,
  widen_status,
  widen_count,
  id_status,
  id_bytes,
  id_count,
  code_status,
  code_after,
};

// Reads the next command into a record of nine words.
pub fn vcd_next(input: &[u8], cursor: &mut [u64], words: &mut [u64]) -> u64
    ensures status { result ≡ (next_call input.now cursor.old words.old).status }
    ensures cursor { cursor.new ≡ (next_call input.now cursor.old words.old).cursor }
    ensures words { words.new ≡ (next_call input.now cursor.old words.old).table }
{
    read_calls::next(input, cursor, words)
}

// Reads commands into records until they are full or reading ends, and counts them.
pub fn vcd_read(input: &[u8], cursor: &mut [u64], records: &mut [u64], count: &mut u64) -> u64
    ensures status { result ≡ (read_call input.now cursor.old records.old count.old).status }
    ensures cursor { cursor.new ≡ (read_call input.now cursor.old records.old count.old).cursor }
    ensures records { records.new ≡ (read_call input.now cursor.old records.old count.old).table }
    ensures count { count.new ≡ (read_call input.now cursor.old records.old count.old).count }
{
    read_calls::read(input, cursor, records, count)
}

// Reads a header into rows of ten words, and what it keeps into ten words.
pub fn vcd_header(input: &[u8], cursor: &mut [u64], rows: &mut [u64], head: &mut [u64]) -> u64
    ensures status { result ≡ (header_call_of input.now cursor.old rows.old head.old).status }
    ensures cursor { cursor.new ≡ (header_call_of input.now cursor.old rows.old head.old).cursor }
    ensures rows { rows.new ≡ (header_call_of input.now cursor.old rows.old head.old).rows }
    ensures head { head.new ≡ (header_call_of input.now cursor.old rows.old head.old).head }
{
    read_calls::header(input, cursor, rows, head)
}

// Copies row `i` of a header; BAD_PLACE where there is none, or where its words are no row.
pub fn vcd_row(rows: &[u64], i: usize, row: &mut [u64]) -> u64
    ensures status { result ≡ row_status (is_row_call rows.now i row.old) }
    ensures row { row.new ≡ row_copied (is_row_call rows.now i row.old) 10 rows.now i row.old }
{
    read_calls::row(rows, i, row)
}

// The row of the scope at a path of names, parted by one space; NONE where there is none.
pub fn vcd_find_scope(input: &[u8], rows: &[u64], count: usize, path: &[u8], row: &mut u64) -> u64
    ensures status { result ≡ found_status (found_row input.now Kind.Scope rows.now count path.now) }
    ensures row { row.new ≡ found_after row.old (found_row input.now Kind.Scope rows.now count path.now) }
{
    read_calls::find_scope(input, rows, count, path, row)
}

// The row of the variable at a path of names, parted by one space; NONE where there is none.
pub fn vcd_find_var(input: &[u8], rows: &[u64], count: usize, path: &[u8], row: &mut u64) -> u64
    ensures status { result ≡ found_status (found_row input.now Kind.Var rows.now count path.now) }
    ensures row { row.new ≡ found_after row.old (found_row input.now Kind.Var rows.now count path.now) }
{
    read_calls::find_var(input, rows, count, path, row)
}

// Writes the command of a record, whose texts stand in `src`, and counts its bytes.
pub fn vcd_command(
    writer: &mut [u64],
    src: &[u8],
    words: &[u64],
    out: &mut [u8],
    count: &mut u64,
) -> u64
    ensures status { result ≡ (command_call writer.old src.now words.now out.old count.old).status }
    ensures writer { writer.new ≡ (command_call writer.old src.now words.now out.old count.old).writer }
    ensures out { out.new ≡ (command_call writer.old src.now words.now out.old count.old).output }
    ensures count { count.new ≡ (command_call writer.old src.now words.now out.old count.old).count }
{
    write_calls::command(writer, src, words, out, count)
}

// Writes a header: what is kept and the rows that `head` counts.
pub fn vcd_write_header(
    writer: &mut [u64],
    src: &[u8],
    head: &[u64],
    rows: &[u64],
    out: &mut [u8],
    count: &mut u64,
) -> u64
    ensures status { result ≡ (write_header_call writer.old src.now head.now rows.now out.old count.old).status }
    ensures writer { writer.new ≡ (write_header_call writer.old src.now head.now rows.now out.old count.old).writer }
    ensures out { out.new ≡ (write_header_call writer.old src.now head.now rows.now out.old count.old).output }
    ensures count { count.new ≡ (write_header_call writer.old src.now head.now rows.now out.old count.old).count }
{
    write_calls::write_header(writer, src, head, rows, out, count)
}

// Rewrites commands from the cursor on, as many as the output has room for; counts bytes, and stores the line of a refusal.
pub fn vcd_rewrite(
    input: &[u8],
    cursor: &mut [u64],
    writer: &mut [u64],
    out: &mut [u8],
    count: &mut u64,
    line: &mut u64,
) -> u64
    ensures status { result ≡ (rewrite_call input.now cursor.old writer.old out.old count.old line.old).status }
    ensures cursor { cursor.new ≡ (rewrite_call input.now cursor.old writer.old out.old count.old line.old).cursor }
    ensures writer { writer.new ≡ (rewrite_call input.now cursor.old writer.old out.old count.old line.old).writer }
    ensures out { out.new ≡ (rewrite_call input.now cursor.old writer.old out.old count.old line.old).output }
    ensures count { count.new ≡ (rewrite_call input.now cursor.old writer.old out.old count.old line.old).count }
    ensures line { line.new ≡ (rewrite_call input.now cursor.old writer.old out.old count.old line.old).line }
{
    write_calls::rewrite(input, cursor, writer, out, count, line)
}

// Lists the changes of a code from the cursor on into rows of six words, and counts them.
pub fn vcd_list(
    input: &[u8],
    cursor: &mut [u64],
    code: u64,
    rows: &mut [u64],
    count: &mut u64,
) -> u64
    ensures status { result ≡ (list_call input.now cursor.old code rows.old count.old).status }
    ensures cursor { cursor.new ≡ (list_call input.now cursor.old code rows.old count.old).cursor }
    ensures rows { rows.new ≡ (list_call input.now cursor.old code rows.old count.old).table }
    ensures count { count.new ≡ (list_call input.now cursor.old code rows.old count.old).count }
{
    list_calls::list(input, cursor, code, rows, count)
}

// The same from where a listing stopped: `since` is the last time before the cursor, and afterwards the last one that was read.
pub fn vcd_list_on(
    input: &[u8],
    cursor: &mut [u64],
    since: &mut [u64],
    code: u64,
    rows: &mut [u64],
    count: &mut u64,
) -> u64
    ensures status { result ≡ (list_on_call input.now cursor.old since.old code rows.old count.old).status }
    ensures cursor { cursor.new ≡ (list_on_call input.now cursor.old since.old code rows.old count.old).cursor }
    ensures since { since.new ≡ (list_on_call input.now cursor.old since.old code rows.old count.old).since }
    ensures rows { rows.new ≡ (list_on_call input.now cursor.old since.old code rows.old count.old).table }
    ensures count { count.new ≡ (list_on_call input.now cursor.old since.old code rows.old count.old).count }
{
    list_calls::list_on(input, cursor, since, code, rows, count)
}

// Copies row `i` of a listing; BAD_PLACE where there is none, or where its words are no row.
pub fn vcd_change(rows: &[u64], i: usize, change: &mut [u64]) -> u64
    ensures status { result ≡ row_status (is_change_call rows.now i change.old) }
    ensures change { change.new ≡ row_copied (is_change_call rows.now i change.old) 6 rows.now i change.old }
{
    read_calls::change(rows, i, change)
}

// Writes a vector of the input in lower case at a width, and counts its bytes.
pub fn vcd_widen(
    input: &[u8],
    start: usize,
    len: usize,
    width: u32,
    out: &mut [u8],
    count: &mut u64,
) -> u64
    ensures status { result ≡ widen_status (widen_answer input.now (record { start = start; len = len }) width out.old) }
    ensures out { out.new ≡ widen_bytes input.now (record { start = start; len = len }) width out.old }
    ensures count { count.new ≡ widen_count count.old (widen_answer input.now (record { start = start; len = len }) width out.old) }
{
    write_calls::widen(input, start, len, width, out, count)
}

// Writes the text of an id code, and counts its bytes.
pub fn vcd_id_text(code: u64, out: &mut [u8], count: &mut u64) -> u64
    ensures status { result ≡ id_status code out.old }
    ensures out { out.new ≡ id_bytes code out.old }
    ensures count { count.new ≡ id_count code out.old count.old }
{
    write_calls::id_text(code, out, count)
}

// The code that a text means.
pub fn vcd_id_code(text: &[u8], code: &mut u64) -> u64
    ensures status { result ≡ code_status (parse_id text.now) }
    ensures code { code.new ≡ code_after code.old (parse_id text.now) }
{
    write_calls::id_code(text, code)
}
