// Texts put at the start of an output: all of a text where it has room, else nothing. Parts of the writer and of what prints lines,
// which hand over room; users call those.
#![tactic(auto)]

ghost use Rattle.std.specs.Prelude.{◌≡◌, [], ◌∷◌, ◌++◌, map, ◌+◌, ◌/◌, ◌%◌, ◌≤◌, ◌<◌, leb, length, take, drop};
ghost use Rattle.text.specs.Bytes.{bytes};
ghost use Rattle.text.specs.Texts.{put_answer, put_bytes};
ghost use Rattle.command.specs.Words.{end_mark};
ghost use Rattle.idcode.specs.Id.{id_text};
ghost use Rattle.value.specs.Values.{lower};
ghost use Rattle.emit.specs.Put.{concat, stored, time_text, scalar_text, vector_text, Inside, closed_answer, closed_bytes};

use idcode::IdCode;

// Whether so many bytes have room; the sum itself could be too large.
pub fn fits(room: usize, a: usize, b: usize, c: usize, d: usize, e: usize) -> bool
    ensures { result ≡ leb (a + b + c + d + e) room }
{
    if room < a {
        return false;
    }
    let left = room - a;
    if left < b {
        return false;
    }
    let left = left - b;
    if left < c {
        return false;
    }
    let left = left - c;
    if left < d {
        return false;
    }
    e <= left - d
}

// Puts `word` into `out` from `at` on, and answers the place after it.
pub fn put(out: &mut [u8], at: usize, word: &[u8]) -> usize
    requires { at + length word.now ≤ length out.old }
    ensures { (result ≡ at + length word.now) × (out.new ≡ stored out.old at word.now) }
{
    // A byte a turn: `copy_from_slice` is compiled to a call of memmove, which the archive for C would need from outside.
    for (i, &b) in word.iter().enumerate() {
        out[at + i] = b;
    }
    at + word.len()
}

// Puts `word` in lower case.
pub fn put_lower(out: &mut [u8], at: usize, word: &[u8]) -> usize
    requires { at + length word.now ≤ length out.old }
    ensures { (result ≡ at + length (map lower word.now)) × (out.new ≡ stored out.old at (map lower word.now)) }
{
    for (i, &b) in word.iter().enumerate() {
        let low = value::vector::lowered(b);
        out[at + i] = low;
    }
    at + word.len()
}

// Puts five words, one after the other.
pub fn put_five(
    out: &mut [u8],
    at: usize,
    a: &[u8],
    b: &[u8],
    c: &[u8],
    d: &[u8],
    e: &[u8],
) -> usize
    requires { at + (length a.now + length b.now + length c.now + length d.now + length e.now) ≤ length out.old }
    ensures { (result ≡ at + length (concat (a.now ∷ b.now ∷ c.now ∷ d.now ∷ e.now ∷ []))) × (out.new ≡ stored out.old at (concat (a.now ∷ b.now ∷ c.now ∷ d.now ∷ e.now ∷ []))) }
{
    let n = put(out, at, a);
    let n = put(out, n, b);
    let n = put(out, n, c);
    let n = put(out, n, d);
    put(out, n, e)
}

// Five words at the start of the output.
pub fn emit(a: &[u8], b: &[u8], c: &[u8], d: &[u8], e: &[u8], out: &mut [u8]) -> Option<usize>
    ensures { (result ≡ put_answer (concat (a.now ∷ b.now ∷ c.now ∷ d.now ∷ e.now ∷ [])) out.old) × (out.new ≡ put_bytes (concat (a.now ∷ b.now ∷ c.now ∷ d.now ∷ e.now ∷ [])) out.old) }
{
    if !fits(out.len(), a.len(), b.len(), c.len(), d.len(), e.len()) {
        return None;
    }
    Some(put_five(out, 0, a, b, c, d, e))
}

// What closes a command: a byte, the mark and a newline.
#[tactic(auto, using(crate::proofs::Storing::stored_mid))]
fn put_closing(out: &mut [u8], at: usize, gap: u8) -> usize
    requires { at + 6 ≤ length out.old }
    ensures { (result ≡ at + 6) × (out.new ≡ stored out.old at (gap ∷ (end_mark ++ bytes "\n"))) }
{
    let mark = command::END;
    out[at..at + 6].copy_from_slice(&[gap, mark[0], mark[1], mark[2], mark[3], b'\n']);
    at + 6
}

// The words of a command that closes with the mark.
fn put_closed(
    out: &mut [u8],
    word: &[u8],
    gap: &[u8],
    a: &[u8],
    mid: &[u8],
    b: &[u8],
    last: u8,
) -> usize
    requires { 7 + (length word.now + length gap.now + length a.now + length mid.now + length b.now) ≤ length out.old }
    ensures { (result ≡ length (concat (bytes "$" ∷ word.now ∷ gap.now ∷ a.now ∷ mid.now ∷ b.now ∷ (last ∷ []) ∷ end_mark ∷ bytes "\n" ∷ []))) × (out.new ≡ stored out.old 0 (concat (bytes "$" ∷ word.now ∷ gap.now ∷ a.now ∷ mid.now ∷ b.now ∷ (last ∷ []) ∷ end_mark ∷ bytes "\n" ∷ []))) }
{
    out[0] = b'$';
    let n = put_five(out, 1, word, gap, a, mid, b);
    put_closing(out, n, last)
}

// A command that closes with the mark: `$` and its word, then `gap`, `a`, `mid` and `b`, then `last`, the mark and a newline.
pub fn emit_closed(
    word: &[u8],
    gap: &[u8],
    a: &[u8],
    mid: &[u8],
    b: &[u8],
    last: u8,
    out: &mut [u8],
) -> Option<usize>
    ensures { (result ≡ put_answer (concat (bytes "$" ∷ word.now ∷ gap.now ∷ a.now ∷ mid.now ∷ b.now ∷ (last ∷ []) ∷ end_mark ∷ bytes "\n" ∷ [])) out.old) × (out.new ≡ put_bytes (concat (bytes "$" ∷ word.now ∷ gap.now ∷ a.now ∷ mid.now ∷ b.now ∷ (last ∷ []) ∷ end_mark ∷ bytes "\n" ∷ [])) out.old) }
{
    if out.len() < 7 {
        return None;
    }
    let room = out.len() - 7;
    if !fits(room, word.len(), gap.len(), a.len(), mid.len(), b.len()) {
        return None;
    }
    Some(put_closed(out, word, gap, a, mid, b, last))
}

// A command that is its word alone.
pub fn emit_bare(word: &[u8], out: &mut [u8]) -> Option<usize>
    ensures { (result ≡ put_answer (concat (bytes "$" ∷ word.now ∷ bytes " " ∷ end_mark ∷ bytes "\n" ∷ [])) out.old) × (out.new ≡ put_bytes (concat (bytes "$" ∷ word.now ∷ bytes " " ∷ end_mark ∷ bytes "\n" ∷ [])) out.old) }
{
    emit_closed(word, b"", b"", b"", b"", b' ', out)
}

// A change whose text is kept, a real's or a string's: its first byte, the text and the id.
#[tactic(auto, using(text::proofs::Rows::text_in_lem))]
pub fn emit_text(first: u8, t: &[u8], id: IdCode, out: &mut [u8]) -> Option<usize>
    ensures { (result ≡ put_answer (concat ((first ∷ []) ∷ t.now ∷ bytes " " ∷ id_text id.0 ∷ bytes "\n" ∷ [])) out.old) × (out.new ≡ put_bytes (concat ((first ∷ []) ∷ t.now ∷ bytes " " ∷ id_text id.0 ∷ bytes "\n" ∷ [])) out.old) }
{
    let code = id.spell();
    emit(&[first], t, b" ", code.as_bytes(), b"\n", out)
}

// A first byte and a newline, around what p says to stand from place 1 on.
fn close(first: u8, p: Option<usize>, out: &mut [u8]) -> Option<usize>
    requires { Inside p (length out.old) }
    ensures { (result ≡ closed_answer p) × (out.new ≡ closed_bytes first p out.old) }
{
    let n = p?;
    out[0] = first;
    out[n + 1] = b'\n';
    Some(n + 2)
}

// A timestamp of eight digits, taken apart by halves: no digit waits for all those after it.
fn emit_eight(n: u64, out: &mut [u8]) -> Option<usize>
    requires { (10000000 ≤ n) × (n < 100000000) × (10 ≤ length out.old) }
    ensures { (result ≡ Some 10) × (out.new ≡ stored out.old 0 (time_text n)) }
{
    let high = n / 10000;
    let low = n % 10000;
    out[0] = b'#';
    put_pair(out, 1, high / 100);
    put_pair(out, 3, high % 100);
    put_pair(out, 5, low / 100);
    put_pair(out, 7, low % 100);
    out[9] = b'\n';
    Some(10)
}

// Two digits.
#[tactic(auto, using(crate::proofs::Storing::stored_mid))]
fn put_pair(out: &mut [u8], at: usize, n: u64)
    requires { (at + 2 ≤ length out.old) × (n < 100) }
    ensures { out.new ≡ stored out.old at ((48 + n / 10) ∷ (48 + n % 10) ∷ []) }
{
    out[at..at + 2].copy_from_slice(&[48 + (n / 10) as u8, 48 + (n % 10) as u8]);
}

// A timestamp.
pub fn emit_time(n: u64, out: &mut [u8]) -> Option<usize>
    ensures { (result ≡ put_answer (time_text n) out.old) × (out.new ≡ put_bytes (time_text n) out.old) }
{
    if 10000000 <= n && n < 100000000 && 10 <= out.len() {
        return emit_eight(n, out);
    }
    if out.len() < 2 {
        return None;
    }
    let last = out.len() - 1;
    close(b'#', number::put_decimal(n, &mut out[1..last]), out)
}

// A scalar's change whose id has one byte.
#[tactic(auto, unfolding(crate::specs::Put::stored))]
fn emit_short(value: u8, id: u8, out: &mut [u8]) -> Option<usize>
    requires { 3 ≤ length out.old }
    ensures { (result ≡ Some 3) × (out.new ≡ stored out.old 0 (value ∷ id ∷ 10 ∷ [])) }
{
    out[..3].copy_from_slice(&[value, id, b'\n']);
    Some(3)
}

// A scalar's change: the value's byte, and the id.
pub fn emit_scalar(value: u8, id: IdCode, out: &mut [u8]) -> Option<usize>
    ensures { (result ≡ put_answer (scalar_text value id.0) out.old) × (out.new ≡ put_bytes (scalar_text value id.0) out.old) }
{
    if id.0 < 94 && 3 <= out.len() {
        return emit_short(value, 33 + id.0 as u8, out);
    }
    if out.len() < 2 {
        return None;
    }
    let last = out.len() - 1;
    close(value, id.put(&mut out[1..last]), out)
}

// A vector's change: the values in lower case, and the id.
pub fn emit_vector(v: &[u8], id: IdCode, out: &mut [u8]) -> Option<usize>
    ensures { (result ≡ put_answer (vector_text v.now id.0) out.old) × (out.new ≡ put_bytes (vector_text v.now id.0) out.old) }
{
    if out.len() < 3 {
        return None;
    }
    if out.len() - 3 < v.len() {
        return None;
    }
    let last = out.len() - 1;
    let at = v.len() + 2;
    let n = id.put(&mut out[at..last])?;
    put_values(out, v);
    out[at + n] = b'\n';
    Some(at + n + 1)
}

// What stands before a vector's id.
fn put_values(out: &mut [u8], v: &[u8])
    requires { length v.now + 2 ≤ length out.old }
    ensures { out.new ≡ stored out.old 0 (concat (bytes "b" ∷ map lower v.now ∷ bytes " " ∷ [])) }
{
    out[0] = b'b';
    let o = put_lower(out, 1, v);
    out[o] = b' ';
}
