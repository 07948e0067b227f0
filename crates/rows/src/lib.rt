// The rows of a header's table, ten words each, and how they are read and stored.
#![tactic(auto)]

pub mod peek;

ghost use Rattle.std.specs.Prelude.{◌≡◌, ◌+◌, ◌*◌, ◌≤◌, ◌<◌, cond, eqb, length};
ghost use Rattle.rows.specs.Rows.{is_plain, var_of, row_at, row_of, words_at, row_words, listed, text_at, text_words, var_words, parent_of, parent_word, index_of, is_index, index_form, index_first, index_second, signed_of, word_of, put};
ghost use Rattle.rows.specs.Peek.{kind_of};

use idcode::IdCode;
use scope::{ReferenceIndex, ScopeType, Var, VarType};
use text::Text;

// A row's number in its table, from 0.
#[derive(Clone, Copy)]
pub struct RowNumber(pub u64);

// A row by value; none where there is none, or where the words are no row.
#[derive(Clone, Copy)]
pub enum Row {
    Scope(Option<RowNumber>, ScopeType, Text),
    Var(Option<RowNumber>, Var),
    Comment(Option<RowNumber>, Text),
    None,
}

// A row's words in a table's order; those that its kind does not use are 0.
#[derive(Clone, Copy)]
pub struct RowWords {
    // SCOPE, VAR or COMMENT.
    pub kind: u64,
    // The row of its scope, or TOP.
    pub parent: u64,
    // The type's number.
    pub number: u64,
    pub width: u64,
    pub code: u64,
    // Place and length of the text.
    pub start: u64,
    pub len: u64,
    // The index: its form, 0 none, 1 `[n]`, 2 `[m:n]`, and its numbers by two's complement of 32 bits.
    pub form: u64,
    pub first: u64,
    pub second: u64,
}

// Words a row.
pub const WORDS: usize = 10;

// The most rows that a table takes, and the most scopes one in another.
pub const MOST_ROWS: usize = 4096;

pub const LEVELS: usize = 64;

// The parent of what stands at top.
pub const TOP: u64 = 0xffff_ffff_ffff_ffff;

// The kinds of rows.
pub const SCOPE: u64 = 1;

pub const VAR: u64 = 2;

pub const COMMENT: u64 = 3;

// Row `i` of a table.
#[tactic(auto, unfolding(crate::specs::Rows::row_at))]
pub fn row_at(rows: &[u64], i: usize) -> Row
    ensures { result ≡ row_at rows.now i }
{
    if rows.len() / WORDS <= i {
        return Row::None;
    }
    words_at(rows, WORDS * i).row()
}

// The words from `at` on.
fn words_at(rows: &[u64], at: usize) -> RowWords
    requires { at + 10 ≤ length rows.now }
    ensures { result ≡ words_at rows.now at }
{
    RowWords {
        kind: rows[at],
        parent: rows[at + 1],
        number: rows[at + 2],
        width: rows[at + 3],
        code: rows[at + 4],
        start: rows[at + 5],
        len: rows[at + 6],
        form: rows[at + 7],
        first: rows[at + 8],
        second: rows[at + 9],
    }
}

// Words that are all 0, which are no row.
fn no_words() -> RowWords
    ensures { result ≡ text_words 0 0 0 (text_at 0 0) }
{
    text_words(0, 0, 0, Text { start: 0, len: 0 })
}

impl RowWords {
    pub fn row(self) -> Row
        ensures { result ≡ row_of self }
    {
        let text = Text {
            start: self.start as usize,
            len: self.len as usize,
        };
        match self.row_kind() {
            SCOPE => Row::Scope(
                parent_of(self.parent),
                ScopeType::from_number(self.number),
                text,
            ),
            VAR => Row::Var(parent_of(self.parent), self.var()),
            COMMENT => Row::Comment(parent_of(self.parent), text),
            _ => Row::None,
        }
    }

    // The kind of the row that the words are; 0 where they are none.
    #[tactic(auto, unfolding(crate::specs::Rows::row_of))]
    fn row_kind(self) -> u64
        ensures { result ≡ kind_of (row_of self) }
    {
        if self.kind == VAR {
            return if self.number <= 17
                && self.width < 4294967296
                && is_index(self.form, self.first, self.second)
            {
                VAR
            } else {
                0
            };
        }
        if self.kind == SCOPE {
            return if self.number <= 4 && self.is_plain() {
                SCOPE
            } else {
                0
            };
        }
        if self.kind == COMMENT && self.number == 0 && self.is_plain() {
            COMMENT
        } else {
            0
        }
    }

    // Whether the words are 0 that only a variable uses.
    #[tactic(auto, unfolding(crate::specs::Rows::all_zero))]
    fn is_plain(self) -> bool
        ensures { result ≡ is_plain self }
    {
        self.width == 0 && self.code == 0 && self.form == 0 && self.first == 0 && self.second == 0
    }

    // The variable of a variable's words.
    fn var(self) -> Var
        requires { self.width < 4294967296 }
        ensures { result ≡ var_of self }
    {
        let reference = Text {
            start: self.start as usize,
            len: self.len as usize,
        };
        Var {
            var_type: VarType::from_number(self.number),
            size: self.width as u32,
            code: IdCode(self.code),
            reference,
            index: index_of(self.form, self.first, self.second),
        }
    }
}

#[tactic(auto, unfolding(crate::specs::Rows::parent_of))]
fn parent_of(w: u64) -> Option<RowNumber>
    ensures { result ≡ parent_of w }
{
    if w == TOP {
        return None;
    }
    Some(RowNumber(w))
}

pub fn parent_word(p: Option<RowNumber>) -> u64
    ensures { result ≡ parent_word p }
{
    match p {
        None => TOP,
        Some(n) => n.0,
    }
}

#[tactic(auto, unfolding(crate::specs::Rows::is_index))]
pub fn is_index(form: u64, a: u64, b: u64) -> bool
    ensures { result ≡ is_index form a b }
{
    form <= 2 && a <= most_first(form) && b <= most_second(form)
}

// The largest numbers of a form. Which form it is cannot be foreseen, so it chooses numbers, not ways.
fn most_first(form: u64) -> u64
    ensures { result ≡ cond (eqb form 0) 0 4294967295 }
{
    if form == 0 { 0 } else { 4294967295 }
}

fn most_second(form: u64) -> u64
    ensures { result ≡ cond (eqb form 2) 4294967295 0 }
{
    if form == 2 { 4294967295 } else { 0 }
}

#[tactic(auto, unfolding(crate::specs::Rows::index_of))]
pub fn index_of(form: u64, a: u64, b: u64) -> ReferenceIndex
    ensures { result ≡ index_of form a b }
{
    match form {
        0 => ReferenceIndex::None,
        1 => ReferenceIndex::BitSelect(signed(a)),
        _ => ReferenceIndex::Range(signed(a), signed(b)),
    }
}

// A number of 32 bits, by two's complement; of a larger word, which is none, that of the largest of 32 bits.
fn signed(w: u64) -> i32
    ensures { result ≡ signed_of w }
{
    if w < 2147483648 {
        return w as i32;
    }
    if 4294967295 < w {
        return 0 - 1;
    }
    ((w as i64) - 4294967296) as i32
}

fn word(n: i32) -> u64
    ensures { result ≡ word_of n }
{
    if n < 0 {
        return ((n as i64) + 4294967296) as u64;
    }
    n as u64
}

// Stores the words of row `n`.
#[tactic(auto, using(std::proofs::lemmas::Slice::overwrites), unfolding(crate::specs::Rows::listed, crate::specs::Rows::put))]
fn put_row(rows: &mut [u64], n: usize, w: RowWords)
    requires { (n < 4096) × (10 * n + 10 ≤ length rows.old) }
    ensures { rows.new ≡ put rows.old n (listed w) }
{
    let list = [
        w.kind, w.parent, w.number, w.width, w.code, w.start, w.len, w.form, w.first, w.second,
    ];
    let at = WORDS * n;
    rows[at..at + WORDS].copy_from_slice(&list);
}

pub fn put_scope(rows: &mut [u64], n: usize, p: Option<RowNumber>, t: ScopeType, name: Text)
    requires { (n < 4096) × (10 * n + 10 ≤ length rows.old) }
    ensures { rows.new ≡ put rows.old n (row_words (Row.Scope p t name)) }
{
    put_row(rows, n, text_words(SCOPE, parent_word(p), t.number(), name));
}

pub fn put_comment(rows: &mut [u64], n: usize, p: Option<RowNumber>, t: Text)
    requires { (n < 4096) × (10 * n + 10 ≤ length rows.old) }
    ensures { rows.new ≡ put rows.old n (row_words (Row.Comment p t)) }
{
    put_row(rows, n, text_words(COMMENT, parent_word(p), 0, t));
}

pub fn put_var(rows: &mut [u64], n: usize, p: Option<RowNumber>, v: Var)
    requires { (n < 4096) × (10 * n + 10 ≤ length rows.old) }
    ensures { rows.new ≡ put rows.old n (row_words (Row.Var p v)) }
{
    put_row(rows, n, var_words(parent_word(p), v));
}

// The words of a scope or a comment.
fn text_words(kind: u64, parent: u64, number: u64, text: Text) -> RowWords
    ensures { result ≡ text_words kind parent number text }
{
    RowWords {
        kind,
        parent,
        number,
        width: 0,
        code: 0,
        start: text.start as u64,
        len: text.len as u64,
        form: 0,
        first: 0,
        second: 0,
    }
}

fn var_words(parent: u64, v: Var) -> RowWords
    ensures { result ≡ var_words parent v }
{
    let var_type = v.var_type;
    let code = v.code;
    let name = v.reference;
    let index = v.index;
    RowWords {
        kind: VAR,
        parent,
        number: var_type.number(),
        width: v.size as u64,
        code: code.0,
        start: name.start as u64,
        len: name.len as u64,
        form: index_form(index),
        first: first_word(index),
        second: second_word(index),
    }
}

pub fn index_form(x: ReferenceIndex) -> u64
    ensures { result ≡ index_form x }
{
    match x {
        ReferenceIndex::None => 0,
        ReferenceIndex::BitSelect(_) => 1,
        ReferenceIndex::Range(_, _) => 2,
    }
}

pub fn first_word(x: ReferenceIndex) -> u64
    ensures { result ≡ index_first x }
{
    match x {
        ReferenceIndex::None => 0,
        ReferenceIndex::BitSelect(a) => word(a),
        ReferenceIndex::Range(a, _) => word(a),
    }
}

pub fn second_word(x: ReferenceIndex) -> u64
    ensures { result ≡ index_second x }
{
    match x {
        ReferenceIndex::None => 0,
        ReferenceIndex::BitSelect(_) => 0,
        ReferenceIndex::Range(_, b) => word(b),
    }
}
