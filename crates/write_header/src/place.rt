// What 25 asks before a header is written: every text lies in the source.
ghost use Rattle.std.specs.Prelude.{◌≡◌};
ghost use Rattle.rows.specs.Rows.{rows_of};
ghost use Rattle.write_header.specs.Written.{misplaced as is_misplaced, kept_outside};

use header::Header;
use text::Text;

// 25: the source is over the limit, or a text outside it.
pub fn misplaced(src: &[u8], h: Header, rows: &[u64], count: usize) -> bool
    ensures { result ≡ is_misplaced src.now h (rows_of rows.now count) }
{
    if text::LIMIT < src.len() {
        return true;
    }
    kept_outside(src, h.date)
        || kept_outside(src, h.version)
        || tree::place::some_outside(src, rows, count)
}

fn kept_outside(src: &[u8], k: Option<Text>) -> bool
    ensures { result ≡ kept_outside src.now k }
{
    match k {
        None => false,
        Some(t) => !text::within(src, t),
    }
}
