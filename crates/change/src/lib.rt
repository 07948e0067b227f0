// The rows of a listing: six words each. Whether there is a time (0, 1), the time, the line, the kind (1 scalar, 2 vector, 3 real,
// 4 string), start and length of the value in the input. And the last time alone, in the first two of these words, for callers that
// keep it from one listing to the next.
#![tactic(auto)]

ghost use Rattle.std.specs.Prelude.{◌≡◌, [], ◌∷◌, ◌+◌, ◌*◌, ◌≤◌, length};
ghost use Rattle.change.specs.Rows.{change_at, change_of, change_words, is_since, kind_number, kind_of, put, since_in, since_of, since_words};

use command::Time;
use text::Text;

#[derive(Clone, Copy)]
pub enum ChangeKind {
    Scalar,
    Vector,
    Real,
    String,
}

// A row by value: its time, line, kind and value; none where there is none, or where the words are no row.
#[derive(Clone, Copy)]
pub enum Change {
    Is(Option<Time>, u64, ChangeKind, Text),
    None,
}

// Words a row.
pub const WORDS: usize = 6;

// Words of a time alone.
pub const SINCE: usize = 2;

// Row `i` of a table.
#[tactic(auto, unfolding(crate::specs::Rows::change_at))]
pub fn change_at(rows: &[u64], i: usize) -> Change
    ensures { result ≡ change_at rows.now i }
{
    if rows.len() / WORDS <= i {
        return Change::None;
    }
    let at = WORDS * i;
    change_of(
        rows[at],
        rows[at + 1],
        rows[at + 2],
        rows[at + 3],
        rows[at + 4],
        rows[at + 5],
    )
}

// The row of these words: has a time, time, line, kind, start, length.
#[tactic(auto, unfolding(crate::specs::Rows::change_of))]
fn change_of(h: u64, t: u64, line: u64, k: u64, s: u64, l: u64) -> Change
    ensures { result ≡ change_of h t line k s l }
{
    if !is_since(h, t) || k < 1 || 4 < k {
        return Change::None;
    }
    let value = Text {
        start: s as usize,
        len: l as usize,
    };
    Change::Is(since_of(h, t), line, kind_of(k), value)
}

#[tactic(auto, unfolding(crate::specs::Rows::is_since))]
fn is_since(h: u64, t: u64) -> bool
    ensures { result ≡ is_since h t }
{
    if h == 0 {
        return t == 0;
    }
    h == 1
}

#[tactic(auto, unfolding(crate::specs::Rows::since_of))]
fn since_of(h: u64, t: u64) -> Option<Time>
    ensures { result ≡ since_of h t }
{
    if h == 0 {
        return None;
    }
    Some(Time(t))
}

// The time of two words.
#[tactic(auto, unfolding(crate::specs::Rows::since_in))]
pub fn since_in(w: &[u64]) -> Option<Option<Time>>
    ensures { result ≡ since_in w.now }
{
    if w.len() != SINCE || !is_since(w[0], w[1]) {
        return None;
    }
    Some(since_of(w[0], w[1]))
}

// Stores a time.
pub fn put_since(w: &mut [u64], since: Option<Time>)
    requires { length w.old ≡ 2 }
    ensures { w.new ≡ since_words since }
{
    match since {
        None => put_two(w, 0, 0),
        Some(t) => put_two(w, 1, t.0),
    }
}

fn put_two(w: &mut [u64], has: u64, time: u64)
    requires { length w.old ≡ 2 }
    ensures { w.new ≡ has ∷ time ∷ [] }
{
    w[0] = has;
    w[1] = time;
}

#[tactic(auto, unfolding(crate::specs::Rows::kind_of))]
fn kind_of(k: u64) -> ChangeKind
    ensures { result ≡ kind_of k }
{
    match k {
        1 => ChangeKind::Scalar,
        2 => ChangeKind::Vector,
        3 => ChangeKind::Real,
        _ => ChangeKind::String,
    }
}

fn kind_number(k: ChangeKind) -> u64
    ensures { result ≡ kind_number k }
{
    match k {
        ChangeKind::Scalar => 1,
        ChangeKind::Vector => 2,
        ChangeKind::Real => 3,
        ChangeKind::String => 4,
    }
}

// Stores row `n`.
pub fn put_change(
    rows: &mut [u64],
    n: usize,
    since: Option<Time>,
    line: u64,
    kind: ChangeKind,
    value: Text,
)
    requires { 6 * n + 6 ≤ length rows.old }
    ensures { rows.new ≡ put rows.old n (change_words (Change.Is since line kind value)) }
{
    let k = kind_number(kind);
    let s = value.start as u64;
    let l = value.len as u64;
    match since {
        None => put_row(rows, n, &[0, 0, line, k, s, l]),
        Some(t) => put_row(rows, n, &[1, t.0, line, k, s, l]),
    }
}

#[tactic(auto, using(std::proofs::lemmas::Slice::overwrites), unfolding(crate::specs::Rows::put))]
fn put_row(rows: &mut [u64], n: usize, w: &[u64])
    requires { (length w.now ≡ 6) × (6 * n + 6 ≤ length rows.old) }
    ensures { rows.new ≡ put rows.old n w.now }
{
    let at = WORDS * n;
    rows[at..at + WORDS].copy_from_slice(w);
}
