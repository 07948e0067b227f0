// A variable's definition laid out at the start of an output: a part of the writer.
#![tactic(auto)]

ghost use Rattle.std.specs.Prelude.{◌≡◌, true, false, cond, [], ◌∷◌, ◌++◌, ◌+◌, ◌≤◌, length, take};
ghost use Rattle.text.specs.Bytes.{bytes};
ghost use Rattle.text.specs.Texts.{put_answer, put_bytes, spelled, text_in};
ghost use Rattle.number.specs.Decimal.{decimal_of, signed_of};
ghost use Rattle.idcode.specs.Id.{id_text};
ghost use Rattle.scope.specs.Types.{var_name};
ghost use Rattle.scope.specs.declared.VarType.{VarType};
ghost use Rattle.emit.specs.Put.{concat};
ghost use Rattle.emit_var.specs.Define.{indexed as indexed_text, definition, var_text, usual, Puts};

use idcode::IdCode;
use scope::{ReferenceIndex, VarType};
use text::Spelled;

// Type, width, id and index of a definition, with what stands around them, have no more bytes than this.
const MOST: usize = 96;

// The bytes of `wire` and of `reg`, from the list of types.
const WIRE_0: u8 = scope::VAR_TYPES[scope::WIRE].name[0];

const WIRE_1: u8 = scope::VAR_TYPES[scope::WIRE].name[1];

const WIRE_2: u8 = scope::VAR_TYPES[scope::WIRE].name[2];

const WIRE_3: u8 = scope::VAR_TYPES[scope::WIRE].name[3];

const REG_0: u8 = scope::VAR_TYPES[scope::REG].name[0];

const REG_1: u8 = scope::VAR_TYPES[scope::REG].name[1];

const REG_2: u8 = scope::VAR_TYPES[scope::REG].name[2];

// A definition: type, width, id, name and index.
pub fn emit_var(
    t: VarType,
    width: u32,
    id: IdCode,
    name: &[u8],
    x: ReferenceIndex,
    out: &mut [u8],
) -> Option<usize>
    ensures { (result ≡ put_answer (var_text t width id name.now x) out.old) × (out.new ≡ put_bytes (var_text t width id name.now x) out.old) }
{
    if out.len() < MOST {
        return emit_near(t, width, id, &name[0..], x, out);
    }
    if out.len() - MOST < name.len() {
        return emit_near(t, width, id, &name[0..], x, out);
    }
    Some(put_var(t, width, id, name, x, out))
}

// A definition where there may be no room: the words are made first.
#[tactic(auto, using(text::proofs::Rows::text_in_lem))]
fn emit_near(
    t: VarType,
    width: u32,
    id: IdCode,
    name: &[u8],
    x: ReferenceIndex,
    out: &mut [u8],
) -> Option<usize>
    ensures { (result ≡ put_answer (var_text t width id name.now x) out.old) × (out.new ≡ put_bytes (var_text t width id name.now x) out.old) }
{
    let kind = t.spell();
    let digits = number::decimal(width as u64);
    let code = id.spell();
    let place = indexed(x);
    emit_words(
        kind.as_bytes(),
        digits.as_bytes(),
        code.as_bytes(),
        name,
        place.as_bytes(),
        out,
    )
}

// The words of a definition: type, width, id, reference and index, which is empty or has a space before it.
fn emit_words(
    kind: &[u8],
    width: &[u8],
    id: &[u8],
    name: &[u8],
    index: &[u8],
    out: &mut [u8],
) -> Option<usize>
    ensures { (result ≡ put_answer (concat (definition kind.now width.now id.now name.now index.now)) out.old) × (out.new ≡ put_bytes (concat (definition kind.now width.now id.now name.now index.now)) out.old) }
{
    if out.len() < 14 {
        return None;
    }
    let room = out.len() - 14;
    if !emit::fits(
        room,
        kind.len(),
        width.len(),
        id.len(),
        name.len(),
        index.len(),
    ) {
        return None;
    }
    Some(put_words(out, kind, width, id, name, index))
}

// Puts the words one after the other.
fn put_words(
    out: &mut [u8],
    kind: &[u8],
    width: &[u8],
    id: &[u8],
    name: &[u8],
    index: &[u8],
) -> usize
    requires { 14 + (length kind.now + length width.now + length id.now + length name.now + length index.now) ≤ length out.old }
    ensures { Puts out.old 0 (concat (definition kind.now width.now id.now name.now index.now)) result out.new }
{
    let n = emit::put_five(out, 0, b"$", &command::VAR, b" ", kind, b" ");
    let n = emit::put_five(out, n, width, b" ", id, b" ", name);
    emit::put_five(out, n, index, b" ", &command::END, b"\n", b"")
}

// A short text with a space before it.
fn spaced(t: Spelled) -> Spelled
    ensures { result ≡ spelled (take 32 (bytes " " ++ text_in t)) }
{
    text::join(text::spell(b" "), t)
}

// An index's text with a space before it.
fn indexed(x: ReferenceIndex) -> Spelled
    ensures { result ≡ spelled (indexed_text x) }
{
    match x {
        ReferenceIndex::None => text::spell(b""),
        ReferenceIndex::BitSelect(n) => spaced(ReferenceIndex::BitSelect(n).spell()),
        ReferenceIndex::Range(msb, lsb) => spaced(ReferenceIndex::Range(msb, lsb).spell()),
    }
}

// The fast path, for a definition that has room: its words put one after the other, with no copy of them made first.
fn put_var(
    t: VarType,
    width: u32,
    id: IdCode,
    name: &[u8],
    x: ReferenceIndex,
    out: &mut [u8],
) -> usize
    requires { length (var_text t width id name.now x) ≤ length out.old }
    ensures { Puts out.old 0 (var_text t width id name.now x) result out.new }
{
    let word = command::VAR;
    let mark = command::END;
    let n = put_four(out, 0, b'$', word[0], word[1], word[2]);
    let n = put_byte(out, n, b' ');
    let n = put_type(out, n, t);
    let n = put_number(out, n, width as u64);
    let n = put_byte(out, n, b' ');
    let n = put_id(out, n, id);
    let n = put_byte(out, n, b' ');
    let n = emit::put(out, n, name);
    let n = put_index(out, n, x);
    let n = put_byte(out, n, b' ');
    let n = put_four(out, n, mark[0], mark[1], mark[2], mark[3]);
    put_byte(out, n, b'\n')
}

#[tactic(auto, using(crate::proofs::Putting::byte_put))]
fn put_byte(out: &mut [u8], at: usize, b: u8) -> usize
    requires { at + 1 ≤ length out.old }
    ensures { Puts out.old at (b ∷ []) result out.new }
{
    out[at] = b;
    at + 1
}

#[tactic(auto, using(emit::proofs::Storing::stored_mid))]
fn put_four(out: &mut [u8], at: usize, a: u8, b: u8, c: u8, d: u8) -> usize
    requires { at + 4 ≤ length out.old }
    ensures { Puts out.old at (a ∷ b ∷ c ∷ d ∷ []) result out.new }
{
    out[at..at + 4].copy_from_slice(&[a, b, c, d]);
    at + 4
}

// A type's name and a space.
fn put_type(out: &mut [u8], at: usize, t: VarType) -> usize
    requires { at + length (bytes (var_name t) ++ bytes " ") ≤ length out.old }
    ensures { Puts out.old at (bytes (var_name t) ++ bytes " ") result out.new }
{
    match t {
        VarType::Wire | VarType::Reg => put_usual(out, at, is_wire(t)),
        _ => {
            let kind = t.spell();
            let n = emit::put(out, at, kind.as_bytes());
            put_byte(out, n, b' ')
        }
    }
}

fn is_wire(t: VarType) -> bool
    ensures { (t ≡ VarType.Wire → result ≡ true) × (t ≡ VarType.Reg → result ≡ false) }
{
    match t {
        VarType::Wire => true,
        _ => false,
    }
}

fn either(first: bool, a: u8, b: u8) -> u8
    ensures { result ≡ cond first a b }
{
    if first { a } else { b }
}

// `wire` or `reg`, and a space. Which of the two cannot be foreseen, so it chooses bytes, not a way.
fn put_usual(out: &mut [u8], at: usize, wire: bool) -> usize
    requires { at + length (usual wire) ≤ length out.old }
    ensures { Puts out.old at (usual wire) result out.new }
{
    let end = if wire { at + 4 } else { at + 3 };
    put_four(
        out,
        at,
        either(wire, WIRE_0, REG_0),
        either(wire, WIRE_1, REG_1),
        either(wire, WIRE_2, REG_2),
        either(wire, WIRE_3, b' '),
    );
    put_byte(out, end, b' ')
}

#[tactic(auto, using(crate::proofs::Putting::by_part))]
fn put_number(out: &mut [u8], at: usize, n: u64) -> usize
    requires { at + length (decimal_of n) ≤ length out.old }
    ensures { Puts out.old at (decimal_of n) result out.new }
{
    if n < 10 {
        return put_byte(out, at, 48 + n as u8);
    }
    if n < 100 {
        let o = put_byte(out, at, 48 + (n / 10) as u8);
        return put_byte(out, o, 48 + (n % 10) as u8);
    }
    match number::put_decimal(n, &mut out[at..]) {
        Some(k) => at + k,
        None => at,
    }
}

#[tactic(auto, using(crate::proofs::Putting::by_part))]
fn put_id(out: &mut [u8], at: usize, id: IdCode) -> usize
    requires { at + length (id_text id.0) ≤ length out.old }
    ensures { Puts out.old at (id_text id.0) result out.new }
{
    match id.put(&mut out[at..]) {
        Some(k) => at + k,
        None => at,
    }
}

fn put_index(out: &mut [u8], at: usize, x: ReferenceIndex) -> usize
    requires { at + length (indexed_text x) ≤ length out.old }
    ensures { Puts out.old at (indexed_text x) result out.new }
{
    match x {
        ReferenceIndex::None => at,
        ReferenceIndex::BitSelect(a) => {
            let n = put_byte(out, at, b' ');
            let n = put_byte(out, n, b'[');
            let n = put_signed(out, n, a);
            put_byte(out, n, b']')
        }
        ReferenceIndex::Range(a, b) => {
            let n = put_byte(out, at, b' ');
            let n = put_byte(out, n, b'[');
            let n = put_signed(out, n, a);
            let n = put_byte(out, n, b':');
            let n = put_signed(out, n, b);
            put_byte(out, n, b']')
        }
    }
}

fn put_signed(out: &mut [u8], at: usize, a: i32) -> usize
    requires { at + length (signed_of a) ≤ length out.old }
    ensures { Puts out.old at (signed_of a) result out.new }
{
    let size = a.unsigned_abs() as u64;
    if 0 <= a {
        return put_number(out, at, size);
    }
    let n = put_byte(out, at, b'-');
    put_number(out, n, size)
}
