// Reading: the wires are found by their names, and each falling edge of the clock takes the data's value.
use command::Command;
use idcode::IdCode;
use parser::Next;
use rows::Row;
use token::Cursor;
use value::Value;

// Every command takes a byte, so this many are enough.
const MOST_COMMANDS: u64 = 4294967296;

// What is known so far.
#[derive(Clone, Copy)]
struct Register {
    bits: u32,
    data: bool,
    clock: bool,
}

// Decodes the signal; 0 where a wire is missing.
pub fn read_clocked_vcd(input: &[u8]) -> u32 {
    let mut rows = [0u64; 160];
    let h = header::read_header(input, parser::start(), &mut rows);
    let Some(clock) = wire(input, &rows, h.count, b"top clock") else {
        return 0;
    };
    let Some(data) = wire(input, &rows, h.count, b"top data") else {
        return 0;
    };
    decode(input, h.cursor, clock, data)
}

// The code of a wire.
fn wire(input: &[u8], rows: &[u64], count: usize, path: &[u8]) -> Option<IdCode> {
    match find::find_var(input, rows, count, path) {
        Ok(Some(n)) => match rows::row_at(rows, n.0 as usize) {
            Row::Var(_, v) => Some(v.code),
            Row::Scope(_, _, _) | Row::Comment(_, _) | Row::None => None,
        },
        Ok(None) | Err(_) => None,
    }
}

fn decode(input: &[u8], c: Cursor, clock: IdCode, data: IdCode) -> u32 {
    let mut cur = c;
    let mut reg = Register {
        bits: 0,
        data: false,
        clock: false,
    };
    for _ in 0..MOST_COMMANDS {
        match parser::next_command(input, cur) {
            Next::Command(k, d) => {
                cur = d;
                reg = changed(reg, k, clock, data);
            }
            Next::Refused(_, _, _) | Next::Done(_) => return reg.bits,
        }
    }
    reg.bits
}

fn changed(r: Register, k: Command, clock: IdCode, data: IdCode) -> Register {
    let Command::ChangeScalar(i, v) = k else {
        return r;
    };
    let bit = matches!(v, Value::V1);
    if i.0 == clock.0 {
        clocked(r, bit)
    } else if i.0 == data.0 {
        Register { data: bit, ..r }
    } else {
        r
    }
}

// A falling edge shifts the data in from the left.
fn clocked(r: Register, clock: bool) -> Register {
    let bits = if r.clock && !clock {
        (r.bits >> 1) | (u32::from(r.data) << 31)
    } else {
        r.bits
    };
    Register { bits, clock, ..r }
}
