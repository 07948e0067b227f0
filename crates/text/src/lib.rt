// Texts as places in a lent buffer, and what Rust's `str` did for the crate: whitespace, equality, short texts by value.
#![tactic(auto)]

ghost use Rattle.std.specs.Prelude.{◌≡◌, true, [], ◌∷◌, ◌++◌, length, take, drop, ◌+◌, ◌≤◌, ◌<◌, min};
ghost use Rattle.text.specs.Bytes.{is_blank, equal, starts};
ghost use Rattle.text.specs.Plain.{Plain};
ghost use Rattle.text.specs.Texts.{is_within, outside as is_outside, part as part_of, spelled, text_in, put_answer, put_bytes};

// A text is a place in a lent buffer.
#[derive(Clone, Copy)]
pub struct Text {
    pub start: usize,
    pub len: usize,
}

// A short text by value: its bytes, then zeros.
#[derive(Clone, Copy)]
pub struct Spelled {
    pub bytes: [u8; 32],
    pub len: usize,
}

impl Spelled {
    // The text, without the zeros behind it.
    #[tactic(auto, unfolding(crate::specs::Texts::text_in))]
    pub fn as_bytes(&self) -> &[u8]
        ensures { result.now ≡ text_in self.now }
    {
        front(&self.bytes, self.len)
    }
}

#[tactic(auto, unfolding(crate::specs::Bytes::is_blank))]
pub fn whitespace_byte(b: u8) -> bool
    ensures { result ≡ is_blank b }
{
    // A ladder, which is compiled to two tests; `matches!` is to three.
    if b == b'\n' {
        return true;
    }
    if b == b' ' {
        return true;
    }
    if b == b'\r' {
        return true;
    }
    b == b'\t'
}

// Whether a text lies in the buffer. No sum is made, so none wraps.
#[tactic(auto, unfolding(crate::specs::Texts::is_within))]
pub fn within(s: &[u8], t: Text) -> bool
    ensures { result ≡ is_within s.now t }
{
    t.start <= s.len() && t.len <= s.len() - t.start
}

// An input has no more bytes than this.
pub const LIMIT: usize = 4294967295;

// What refusal 25 asks of a text: whether the input is over the limit, or the text outside it.
#[tactic(auto, unfolding(crate::specs::Texts::outside))]
pub fn outside(s: &[u8], t: Text) -> bool
    ensures { result ≡ is_outside s.now t }
{
    LIMIT < s.len() || !within(s, t)
}

// The bytes of a text; of one that does not lie in the buffer, those that do.
#[tactic(auto, unfolding(crate::specs::Texts::part))]
pub fn part(s: &[u8], t: Text) -> &[u8]
    ensures { result.now ≡ part_of s.now t }
{
    front(s.get(t.start..).unwrap_or(&[]), t.len)
}

// Whether two byte strings are equal.
#[tactic(auto, using(crate::proofs::Slices::compared))]
pub fn equals(a: &[u8], b: &[u8]) -> bool
    ensures { result ≡ equal a.now b.now }
{
    a == b
}

// Whether a text is the fixed byte string `word`.
pub fn is_word(s: &[u8], t: Text, word: &[u8]) -> bool
    ensures { result ≡ equal (part_of s.now t) word.now }
{
    equals(part(s, t), word)
}

// Whether a text begins with the byte b.
pub fn starts_with(s: &[u8], b: u8) -> bool
    ensures { result ≡ starts (b ∷ []) s.now }
{
    s.starts_with(&[b])
}

// A text by value; its first 32 bytes where it has more.
pub fn spell(s: &[u8]) -> Spelled
    ensures { result ≡ spelled (take 32 s.now) }
{
    let mut bytes = [0u8; 32];
    let len = s.len().min(32);
    bytes[..len].copy_from_slice(&s[..len]);
    Spelled { bytes, len }
}

// Two short texts joined; the first 32 bytes where they have more.
#[tactic(auto, unfolding(crate::specs::Texts::text_in))]
pub fn join(a: Spelled, b: Spelled) -> Spelled
    ensures { result ≡ spelled (take 32 (text_in a ++ text_in b)) }
{
    join_texts(a.as_bytes(), b.as_bytes())
}

// The first bytes of a row, as far as it goes.
pub fn front(row: &[u8], len: usize) -> &[u8]
    ensures { result.now ≡ take len row.now }
{
    row.get(..len).unwrap_or(row)
}

fn join_texts(a: &[u8], b: &[u8]) -> Spelled
    ensures { result ≡ spelled (take 32 (a.now ++ b.now)) }
{
    let Spelled { mut bytes, len } = spell(a);
    let more = b.len().min(32 - len);
    bytes[len..len + more].copy_from_slice(&b[..more]);
    Spelled {
        bytes,
        len: len + more,
    }
}

// Puts a text at the start of `out`, and leaves what stands behind it; answers how many bytes. Where it has no room, nothing changes.
pub fn put_text(s: &[u8], out: &mut [u8]) -> Option<usize>
    ensures { (result ≡ put_answer s.now out.old) × (out.new ≡ put_bytes s.now out.old) }
{
    if out.len() < s.len() {
        return None;
    }
    out[..s.len()].copy_from_slice(s);
    Some(s.len())
}

// 1 for a byte of printable ASCII, 0 for another.
fn plain(b: u8) -> u8
    ensures { (result ≤ 1) × (result ≡ 1 → (32 < b) × (b < 127)) }
{
    if 32 < b && b < 127 { 1 } else { 0 }
}

// Whether the eight bytes from `at` on are printable ASCII. All are counted, so that the compiler looks at them at once. A part of
// loops over long texts.
pub fn plain_eight(s: &[u8], at: usize) -> bool
    requires { at + 8 ≤ length s.now }
    ensures { result ≡ true → Plain s.now at (at + 8) }
{
    let a = plain(s[at]) + plain(s[at + 1]) + plain(s[at + 2]) + plain(s[at + 3]);
    let b = plain(s[at + 4]) + plain(s[at + 5]) + plain(s[at + 6]) + plain(s[at + 7]);
    a + b == 8
}

// A byte as a number of 64 bits.
pub fn wide(b: u8) -> u64
    ensures { result ≡ b }
{
    b as u64
}

// The smaller of two numbers.
pub fn least(a: usize, b: usize) -> usize
    ensures { result ≡ min a b }
{
    a.min(b)
}
