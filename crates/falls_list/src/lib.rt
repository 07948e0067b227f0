// The contracts of listings once more, each over its call: wrong programs are edits of these.
#![tactic(auto)]

ghost use Rattle.std.specs.Prelude.{◌≡◌};
ghost use Rattle.change.specs.Rows.{change_at, filled};
ghost use Rattle.listing.specs.Listing.{list_of, list_on_of, answer_of};
ghost use Rattle.widen.specs.Widen.{widen_answer, widen_bytes};

use command::{Refusal, Time};
use idcode::IdCode;
use listing::{Change, ListAnswer};
use text::Text;
use token::Cursor;

pub fn list(input: &[u8], c: Cursor, code: IdCode, rows: &mut [u64]) -> ListAnswer
    ensures answer { result ≡ answer_of (list_of input.now c code rows.old) }
    ensures table { rows.new ≡ filled (list_of input.now c code rows.old).rows rows.old }
{
    listing::list(input, c, code, rows)
}

pub fn list_on(
    input: &[u8],
    c: Cursor,
    since: Option<Time>,
    code: IdCode,
    rows: &mut [u64],
) -> ListAnswer
    ensures answer { result ≡ answer_of (list_on_of input.now c since code rows.old) }
    ensures table { rows.new ≡ filled (list_on_of input.now c since code rows.old).rows rows.old }
{
    listing::list_on(input, c, since, code, rows)
}

pub fn change_at(rows: &[u64], i: usize) -> Change
    ensures { result ≡ change_at rows.now i }
{
    listing::change_at(rows, i)
}

pub fn widen(input: &[u8], t: Text, width: u32, out: &mut [u8]) -> Result<usize, Refusal>
    ensures { (result ≡ widen_answer input.now t width out.old) × (out.new ≡ widen_bytes input.now t width out.old) }
{
    widen::widen(input, t, width, out)
}
