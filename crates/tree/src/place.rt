// Whether the texts of a table's rows lie in their buffer: what 25 asks of rows.
ghost use Rattle.std.specs.Prelude.{◌≡◌, ◌/◌, ◌<◌, length};
ghost use Rattle.rows.specs.Rows.{row_at, rows_of};
ghost use Rattle.tree.specs.Place.{row_outside, some_outside};

use text::Text;

// A row's text is where its words say; most lie in the source, and of those it need not be asked whether the words are a row.
fn row_outside(src: &[u8], rows: &[u64], i: usize) -> bool
    requires { i < length rows.now / 10 }
    ensures { result ≡ row_outside src.now (row_at rows.now i) }
{
    let at = rows::WORDS * i;
    let t = Text {
        start: rows[at + 5] as usize,
        len: rows[at + 6] as usize,
    };
    if text::within(src, t) {
        return false;
    }
    rows::peek::kind_at(rows, i) != 0
}

// Whether one of the first `count` rows has a text outside; rows past the table's end have none.
pub fn some_outside(src: &[u8], rows: &[u64], count: usize) -> bool
    ensures { result ≡ some_outside src.now (rows_of rows.now count) }
{
    // The table's end is asked in each turn, so that the compiler drops the same question in `kind_at`: `any` over the rows held took 1.8
    // times as long.
    for i in 0..count {
        if rows.len() / rows::WORDS <= i {
            return false;
        }
        if row_outside(src, rows, i) {
            return true;
        }
    }
    false
}
