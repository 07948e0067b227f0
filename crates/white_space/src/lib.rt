// Trimming: Unicode's White_Space at both ends of a text.
#![tactic(auto)]

ghost use Rattle.std.specs.Prelude.{◌≡◌, cond, [], ◌∷◌, ◌≤◌, length, get_or, drop};
ghost use Rattle.text.specs.Bytes.{starts};
ghost use Rattle.white_space.specs.WhiteSpace.{blank_at, blanks, Before, kept_of, trimmed};

use text::Text;

// How many bytes the White_Space character has that begins a, b, c; 0 where they begin none.
#[tactic(auto, unfolding(crate::specs::WhiteSpace::blank_at, crate::specs::WhiteSpace::begins_with, text::specs::Bytes::starts))]
fn blank_of(a: u8, b: u8, c: u8) -> usize
    ensures { result ≡ blank_at (a ∷ b ∷ c ∷ []) }
{
    match a {
        0x09..=0x0D | 0x20 => 1,
        0xC2 => blank_c2(b),
        0xE1 => blank_pair(0x9A, 0x80, b, c),
        0xE2 => blank_e2(b, c),
        0xE3 => blank_pair(0x80, 0x80, b, c),
        _ => 0,
    }
}

// The same behind the byte 0xC2.
#[tactic(auto, unfolding(crate::specs::WhiteSpace::blank_at, crate::specs::WhiteSpace::begins_with, text::specs::Bytes::starts))]
fn blank_c2(b: u8) -> usize
    ensures { result ≡ blank_at (0xC2 ∷ b ∷ []) }
{
    match b {
        0x85 | 0xA0 => 2,
        _ => 0,
    }
}

// The same behind the byte 0xE2.
#[tactic(auto, unfolding(crate::specs::WhiteSpace::blank_at, crate::specs::WhiteSpace::begins_with, text::specs::Bytes::starts))]
fn blank_e2(b: u8, c: u8) -> usize
    ensures { result ≡ blank_at (0xE2 ∷ b ∷ c ∷ []) }
{
    if b == 0x80 {
        blank_e2_80(c)
    } else {
        blank_pair(0x81, 0x9F, b, c)
    }
}

// The same behind the bytes 0xE2 and 0x80.
#[tactic(auto, unfolding(crate::specs::WhiteSpace::blank_at, crate::specs::WhiteSpace::begins_with, text::specs::Bytes::starts))]
fn blank_e2_80(c: u8) -> usize
    ensures { result ≡ blank_at (0xE2 ∷ 0x80 ∷ c ∷ []) }
{
    match c {
        0x80..=0x8A | 0xA8 | 0xA9 | 0xAF => 3,
        _ => 0,
    }
}

// 3 where b and c are x and y, the last two bytes of a character; 0 where they are not.
#[tactic(auto, unfolding(text::specs::Bytes::starts))]
fn blank_pair(x: u8, y: u8, b: u8, c: u8) -> usize
    ensures { result ≡ cond (starts (x ∷ y ∷ []) (b ∷ c ∷ [])) 3 0 }
{
    if x == b && y == c { 3 } else { 0 }
}

// The byte at i, or 0 past the end.
fn byte_at(s: &[u8], i: usize) -> u8
    ensures { result ≡ get_or s.now i 0 }
{
    s.get(i).copied().unwrap_or(0)
}

// How many bytes the White_Space character has that begins at i, 0 where none does.
fn blank_at(s: &[u8], i: usize) -> usize
    requires { i ≤ length s.now }
    ensures { result ≡ blank_at (drop i s.now) }
{
    blank_of(byte_at(s, i), byte_at(s, i + 1), byte_at(s, i + 2))
}

// How many bytes of White_Space a text begins with. A step is one to three bytes, so no `for` goes over them.
fn leading(s: &[u8]) -> usize
    ensures { result ≡ blanks 0 s.now }
{
    let mut i: usize = 0;
    while i < s.len() {
        let n = blank_at(s, i);
        if n == 0 {
            return i;
        }
        i += n;
    }
    i
}

// How many bytes the White_Space character has that ends before j, 0 where none does.
fn blank_before(s: &[u8], j: usize) -> usize
    requires { j ≤ length s.now }
    ensures { Before s.now j result }
{
    if j < 1 {
        return 0;
    }
    if blank_at(s, j - 1) == 1 {
        return 1;
    }
    if j < 2 {
        return 0;
    }
    if blank_at(s, j - 2) == 2 {
        return 2;
    }
    if j < 3 {
        return 0;
    }
    if blank_at(s, j - 3) == 3 {
        return 3;
    }
    0
}

// How many bytes are left of a text without the White_Space at its end. A step back is one to three bytes too.
fn kept(s: &[u8]) -> usize
    ensures { result ≡ kept_of s.now }
{
    let mut j = s.len();
    while 0 < j {
        let n = blank_before(s, j);
        if n == 0 {
            return j;
        }
        j -= n;
    }
    j
}

// The text without the White_Space at both ends; where nothing is left, the place is the text's start.
pub fn trim(s: &[u8]) -> Text
    ensures { result ≡ trimmed s.now }
{
    let start = leading(s);
    let len = kept(&s[start..]);
    if len == 0 {
        return Text { start: 0, len: 0 };
    }
    Text { start, len }
}
