// The contracts of rows, records and look-ups once more, each over its call: wrong programs are edits of these.
#![tactic(auto)]

pub mod table;

ghost use Rattle.std.specs.Prelude.{◌≡◌};
ghost use Rattle.rows.specs.Rows.{row_at};
ghost use Rattle.find.specs.Find.{found};

use find::{FoundRow, Kind};
use rows::Row;

pub fn row_at(rows: &[u64], i: usize) -> Row
    ensures { result ≡ row_at rows.now i }
{
    rows::row_at(rows, i)
}

pub fn find_scope(input: &[u8], rows: &[u64], count: usize, path: &[u8]) -> FoundRow
    ensures { result ≡ found input.now Kind.Scope rows.now count path.now }
{
    find::find_scope(input, rows, count, path)
}

pub fn find_var(input: &[u8], rows: &[u64], count: usize, path: &[u8]) -> FoundRow
    ensures { result ≡ found input.now Kind.Var rows.now count path.now }
{
    find::find_var(input, rows, count, path)
}
