// The crate's own unit tests (value.rs, idcode.rs, scope.rs): their inputs, and what is answered. The stored output is what the crate
// itself answers to them, printed by oracle/src/bin/units.rs.
#![tactic(auto)]

use idcode::{IdCode, InvalidIdCode};
use replay::{put, put_byte, put_number, put_text, put_word};
use scope::ReferenceIndex;
use text::Spelled;
use value::{Value, vector};

fn main(rt: HostRuntime) {
    let mut out = [0u8; 8192];
    let used = report(&mut out);
    console::finish(
        rt.stderr(),
        &rt,
        replay::write_front(rt.stdout(), &out, used),
        true,
        b"unit_tests: writing failed\n",
    );
}

fn report(out: &mut [u8]) -> usize {
    let a = show_vectors(out, 0);
    let b = show_codes(out, a);
    let c = show_ids(out, b);
    show_indexes(out, c)
}

fn show_vectors(out: &mut [u8], at: usize) -> usize {
    let a = show_vector(out, at, b"1010");
    let b = show_vector(out, a, b"xz");
    let c = show_vector(out, b, b"X");
    let d = show_vector(out, c, b"01xz");
    show_vector(out, d, b"01x")
}

// The vector, its length, the bit at each index and one past them, and the vector as it is written.
fn show_vector(out: &mut [u8], at: usize, s: &[u8]) -> usize {
    let mut o = put(out, at, b"vector ");
    o = put(out, o, s);
    o = put_number(out, o, vector::len(s) as u64);
    for i in 0..=s.len() {
        o = put_bit(out, o, vector::get(s, i));
    }
    o = replay::put_values(out, o, s);
    put_byte(out, o, b'\n')
}

fn put_bit(out: &mut [u8], at: usize, b: Option<Value>) -> usize {
    let o = put_byte(out, at, b' ');
    match b {
        Some(v) => put_byte(out, o, v.byte()),
        None => put_byte(out, o, b'-'),
    }
}

// Ten thousand codes from the first on: how many read back as themselves. Some are shown.
fn show_codes(out: &mut [u8], at: usize) -> usize {
    let mut o = at;
    let mut id = IdCode::FIRST;
    let mut back: u64 = 0;
    for i in 0..10000 {
        let spelled = id.spell();
        if reads_back(spelled, id) {
            back += 1;
        }
        o = show_code(out, o, i, spelled);
        id = after(id);
    }
    o = put(out, o, b"back");
    o = put_number(out, o, back);
    put_byte(out, o, b'\n')
}

fn after(id: IdCode) -> IdCode {
    match id.next() {
        Some(i) => i,
        None => id,
    }
}

fn reads_back(spelled: Spelled, id: IdCode) -> bool {
    match IdCode::from_str(spelled.as_bytes()) {
        Ok(i) => i.0 == id.0,
        Err(_) => false,
    }
}

// Every 500th code, and nothing of the others.
fn show_code(out: &mut [u8], at: usize, i: u64, spelled: Spelled) -> usize {
    if i % 500 != 0 {
        return at;
    }
    let a = put(out, at, b"code");
    let b = put_number(out, a, i);
    let c = put_word(out, b, spelled);
    put_byte(out, c, b'\n')
}

fn show_ids(out: &mut [u8], at: usize) -> usize {
    let a = show_id(out, at, b"!");
    let b = show_id(out, a, b"!!!!!!!!!!");
    let c = show_id(out, b, b"~");
    let d = show_id(out, c, b"~~~~~~~~~");
    let e = show_id(out, d, b"n999999999");
    let f = show_id(out, e, b"n9999999999");
    show_id(out, f, b"")
}

fn show_id(out: &mut [u8], at: usize, s: &[u8]) -> usize {
    let a = put(out, at, b"id ");
    let b = put(out, a, s);
    let c = put_parsed(out, b, IdCode::from_str(s));
    put_byte(out, c, b'\n')
}

fn put_parsed(out: &mut [u8], at: usize, p: Result<IdCode, InvalidIdCode>) -> usize {
    match p {
        Ok(i) => {
            let o = put_number(out, at, i.0);
            put_word(out, o, i.spell())
        }
        Err(e) => match e {
            InvalidIdCode::Empty => put(out, at, b" refused 16"),
            InvalidIdCode::InvalidChars => put(out, at, b" refused 17"),
            InvalidIdCode::TooLong => put(out, at, b" refused 18"),
        },
    }
}

fn show_indexes(out: &mut [u8], at: usize) -> usize {
    let a = show_index(out, at, b"[0]");
    let b = show_index(out, a, b"[ 1 ]");
    let c = show_index(out, b, b"[7:0]");
    let d = show_index(out, c, b"[12:-4]");
    let e = show_index(out, d, b"[ 0 : 8 ]");
    show_index(out, e, b"[7")
}

fn show_index(out: &mut [u8], at: usize, s: &[u8]) -> usize {
    let a = put(out, at, b"index");
    let b = put_text(out, a, s);
    let c = put_index(out, b, ReferenceIndex::from_str(s));
    put_byte(out, c, b'\n')
}

fn put_index(out: &mut [u8], at: usize, p: Option<ReferenceIndex>) -> usize {
    match p {
        Some(x) => put_word(out, at, x.spell()),
        None => put(out, at, b" refused 14"),
    }
}
