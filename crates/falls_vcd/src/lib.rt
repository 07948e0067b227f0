// The contracts of the library for C once more, each over its call: wrong programs are edits of these.
#![tactic(auto)]

ghost use Rattle.std.specs.Prelude.{◌≡◌};
ghost use Rattle.read_calls.specs.Reading.{row_status, row_copied, is_row_call};
ghost use Rattle.write_calls.specs.Writing.{id_status, id_bytes, id_count};

pub fn vcd_row(rows: &[u64], i: usize, row: &mut [u64]) -> u64
    ensures status { result ≡ row_status (is_row_call rows.now i row.old) }
    ensures row { row.new ≡ row_copied (is_row_call rows.now i row.old) 10 rows.now i row.old }
{
    vcd::vcd_row(rows, i, row)
}

pub fn vcd_id_text(code: u64, out: &mut [u8], count: &mut u64) -> u64
    ensures status { result ≡ id_status code out.old }
    ensures out { out.new ≡ id_bytes code out.old }
    ensures count { count.new ≡ id_count code out.old count.old }
{
    vcd::vcd_id_text(code, out, count)
}
