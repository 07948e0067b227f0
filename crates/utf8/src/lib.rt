// UTF-8: which byte texts are well formed, as Rust's from_utf8 judges.
#![tactic(auto)]

ghost use Rattle.std.specs.Prelude.{◌≡◌, List, [], ◌∷◌, ℕ, ◌≤◌, length, drop};
ghost use Rattle.utf8.specs.Utf8.{table37, due_after, well_formed, valid_utf8, due_from, due_list, ◌to◌};

// How many bytes of a character are still due, and the range of the next of them.
#[derive(Clone, Copy)]
pub struct Due {
    pub more: u8,
    pub low: u8,
    pub high: u8,
}

// So many bytes due, the next of them from low to high.
fn due_from(more: u8, low: u8, high: u8) -> Due
    ensures { due_list result ≡ due_from more (low to high) }
{
    Due { more, low, high }
}

// What a first byte asks for. A byte that begins no character asks for one byte that none is.
#[tactic(auto, unfolding(crate::specs::Utf8::lies, crate::specs::Utf8::due_after, crate::specs::Utf8::due_from))]
fn lead(b: u8) -> Due
    ensures { due_list result ≡ due_after table37 b }
{
    match b {
        0x00..=0x7F => due_from(0, 0x80, 0xBF),
        0xC2..=0xDF => due_from(1, 0x80, 0xBF),
        0xE0 => due_from(2, 0xA0, 0xBF),
        0xE1..=0xEC | 0xEE | 0xEF => due_from(2, 0x80, 0xBF),
        0xED => due_from(2, 0x80, 0x9F),
        0xF0 => due_from(3, 0x90, 0xBF),
        0xF1..=0xF3 => due_from(3, 0x80, 0xBF),
        0xF4 => due_from(3, 0x80, 0x8F),
        _ => due_from(1, 1, 0),
    }
}

// What is due after one byte more.
fn next(d: Due, b: u8) -> Due
    ensures { (s : List ℕ) → well_formed s (due_list result) ≡ well_formed (b ∷ s) (due_list d) }
{
    if d.more == 0 {
        return lead(b);
    }
    if b < d.low || d.high < b {
        return due_from(1, 1, 0);
    }
    due_from(d.more - 1, 0x80, 0xBF)
}

// How many bytes below 128 a text begins with: they need no further look, and are mostly all of it.
fn ascii_end(s: &[u8]) -> usize
    ensures { (result ≤ length s.now) × (valid_utf8 (drop result s.now) ≡ valid_utf8 s.now) }
{
    s.iter().position(|&b| 127 < b).unwrap_or(s.len())
}

// Whether a text is well-formed UTF-8.
pub fn valid(s: &[u8]) -> bool
    ensures { result ≡ valid_utf8 s.now }
{
    let mut d = Due {
        more: 0,
        low: 0x80,
        high: 0xBF,
    };
    for &b in &s[ascii_end(s)..] {
        d = next(d, b);
    }
    d.more == 0
}
