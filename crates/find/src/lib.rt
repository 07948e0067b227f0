// Looking up a row by a path of names, as the crate's `Header::find_scope` and `Header::find_var`.
#![tactic(auto)]

ghost use Rattle.std.specs.Prelude.{◌≡◌, length};
ghost use Rattle.scope.specs.Index.{up_to_byte};
ghost use Rattle.rows.specs.Rows.{rows_of};
ghost use Rattle.find.specs.Find.{found, sought, is_named, first_named};

use command::Refusal;
use rows::{Row, RowNumber};

// The row; none; or 25, where a text of the rows lies outside the input.
pub type FoundRow = Result<Option<RowNumber>, Refusal>;

// What is looked for.
#[derive(Clone, Copy)]
pub enum Kind {
    Scope,
    Var,
}

// The scope at a path of names, parted by one space, among the first `count` rows.
pub fn find_scope(input: &[u8], rows: &[u64], count: usize, path: &[u8]) -> FoundRow
    ensures { result ≡ found input.now Kind.Scope rows.now count path.now }
{
    find(input, Kind::Scope, rows, count, path)
}

// The variable at a path.
pub fn find_var(input: &[u8], rows: &[u64], count: usize, path: &[u8]) -> FoundRow
    ensures { result ≡ found input.now Kind.Var rows.now count path.now }
{
    find(input, Kind::Var, rows, count, path)
}

// Texts are compared only where all of them lie in the input.
fn find(input: &[u8], kind: Kind, rows: &[u64], count: usize, path: &[u8]) -> FoundRow
    ensures { result ≡ found input.now kind rows.now count path.now }
{
    if text::LIMIT < input.len() {
        return Err(Refusal::BadPlace);
    }
    if tree::place::some_outside(input, rows, count) {
        return Err(Refusal::BadPlace);
    }
    Ok(seek(input, kind, rows, count, path))
}

// A `loop`, since it moves by names.
fn seek(input: &[u8], kind: Kind, rows: &[u64], count: usize, path: &[u8]) -> Option<RowNumber>
    ensures { result ≡ sought input.now kind rows.now count path.now }
{
    if path.len() == 0 {
        return None;
    }
    let mut at = 0;
    let mut parent = rows::TOP;
    loop {
        let left = &path[at..];
        let len = name_len(left);
        let name = &left[..len];
        if left.len() <= len {
            return first_named(input, kind, parent, name, rows, count);
        }
        let n = first_named(input, Kind::Scope, parent, name, rows, count)?;
        parent = n.0;
        at += len + 1;
    }
}

// The length of the first name.
fn name_len(s: &[u8]) -> usize
    ensures { result ≡ length (up_to_byte 32 s.now) }
{
    s.iter().position(|&b| b == b' ').unwrap_or(s.len())
}

// The first row of a kind, a parent and a name.
fn first_named(
    input: &[u8],
    kind: Kind,
    parent: u64,
    name: &[u8],
    rows: &[u64],
    count: usize,
) -> Option<RowNumber>
    ensures { result ≡ first_named input.now kind parent name.now 0 (rows_of rows.now count) }
{
    let held = count.min(rows.len() / rows::WORDS);
    for i in 0..held {
        if is_named(input, kind, parent, name, rows::row_at(rows, i)) {
            return Some(RowNumber(i as u64));
        }
    }
    None
}

fn is_named(input: &[u8], kind: Kind, parent: u64, name: &[u8], row: Row) -> bool
    ensures { result ≡ is_named input.now kind parent name.now row }
{
    match row {
        Row::Scope(p, _, t) => match kind {
            Kind::Scope => rows::parent_word(p) == parent && text::is_word(input, t, name),
            Kind::Var => false,
        },
        Row::Var(p, v) => match kind {
            Kind::Scope => false,
            Kind::Var => rows::parent_word(p) == parent && text::is_word(input, v.reference, name),
        },
        Row::Comment(_, _) => false,
        Row::None => false,
    }
}
