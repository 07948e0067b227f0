// The header's rows as a lent slice of structs, filled in file order: a thin outer call over the reading into a flat table.
#![tactic(auto)]

ghost use Rattle.std.specs.Prelude.{◌≡◌, length};
ghost use Rattle.rows.specs.Rows.{row_at, filled};
ghost use Rattle.header.specs.Header.{answer_of};
ghost use Rattle.lent_rows.specs.Rows.{struct_of, fill_rows, header_in, header_into, placed};

use header::HeaderAnswer;
use rows::{Row, RowNumber};
use scope::{ScopeType, Var};
use text::Text;
use token::Cursor;

// What stands in a row; nothing in one that was never filled.
#[derive(Clone, Copy)]
pub enum ScopeItem {
    Scope(ScopeType, Text),
    Var(Var),
    Comment(Text),
    None,
}

// A row of a header: the scope that it stands in, and what it is.
#[derive(Clone, Copy)]
pub struct HeaderRow {
    pub parent: Option<RowNumber>,
    pub item: ScopeItem,
}

// Words of a flat table of the most rows.
const TABLE: usize = 40960;

// Reads the header that begins at the cursor: as `read_header` with a table of as many rows, at most 4,096.
pub fn read_rows(input: &[u8], c: Cursor, rows: &mut [HeaderRow]) -> HeaderAnswer
    ensures { (result ≡ answer_of (header_in input.now c (length rows.old)))
        × (rows.new ≡ placed (header_in input.now c (length rows.old)).rows rows.old) }
{
    let mut flat = [0u64; TABLE];
    let a = read_flat(input, c, &mut flat, rows.len());
    fill(&flat, rows, a.count);
    a
}

// Row `i` of a flat table, as a struct.
fn struct_at(words: &[u64], i: usize) -> HeaderRow
    ensures { result ≡ struct_of (row_at words.now i) }
{
    match rows::row_at(words, i) {
        Row::Scope(parent, t, name) => HeaderRow {
            parent,
            item: ScopeItem::Scope(t, name),
        },
        Row::Var(parent, v) => HeaderRow {
            parent,
            item: ScopeItem::Var(v),
        },
        Row::Comment(parent, t) => HeaderRow {
            parent,
            item: ScopeItem::Comment(t),
        },
        Row::None => HeaderRow {
            parent: None,
            item: ScopeItem::None,
        },
    }
}

// The first `n` rows, or as many as there are, from a flat table; the later ones stay.
#[tactic(auto, unfolding(crate::specs::Rows::fill_rows))]
fn fill(words: &[u64], rows: &mut [HeaderRow], n: usize)
    ensures { rows.new ≡ fill_rows 0 n words.now rows.old }
{
    let m = text::least(n, rows.len());
    for k in 0..m {
        rows[k] = struct_at(words, k);
    }
}

// Reads a header into the part of a flat table that has room for `n` rows.
fn read_flat(input: &[u8], c: Cursor, flat: &mut [u64], n: usize) -> HeaderAnswer
    ensures { (result ≡ answer_of (header_into input.now c flat.old n)) × (flat.new ≡ filled (header_into input.now c flat.old n).rows flat.old) }
{
    let room = text::least(n, flat.len() / rows::WORDS);
    header::read_header(input, c, &mut flat[..rows::WORDS * room])
}
