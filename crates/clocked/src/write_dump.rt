// Writing: each call goes after the bytes of the one before, with the state that it answered.
ghost use Rattle.std.specs.Prelude.{◌<◌, ◌≤◌, length};

use command::{Command, SimulationCommand, Time};
use idcode::IdCode;
use text::Text;
use timescale::TimescaleUnit;
use value::Value;
use write::{Added, Writer, Written};

// The dump so far: how many bytes, and the state.
#[derive(Clone, Copy)]
struct Dump {
    len: usize,
    writer: Writer,
}

// The names in one text: `top`, `clock`, `data`.
const NAMES: [u8; 12] = *b"topclockdata";

// Writes out a clock and a data signal.
pub fn write_clocked_vcd(shift_reg: u32, out: &mut [u8]) -> usize {
    let d = header(out);
    let mut d = initial(d, out);
    for i in 0..32 {
        let bit = (shift_reg >> i) & 1 != 0;
        d = clocked_bit(d, out, 8 * i + 4, bit);
    }
    d.len
}

// One bit: the clock rises with it, and falls.
fn clocked_bit(d: Dump, out: &mut [u8], t: u64, bit: bool) -> Dump
    requires { t < 1000 }
{
    let d = rise(d, out, t, bit);
    let d = timestamp(d, out, t + 4);
    change(d, out, clock(), Value::V0)
}

fn rise(d: Dump, out: &mut [u8], t: u64, bit: bool) -> Dump {
    let d = timestamp(d, out, t);
    let d = change(d, out, clock(), Value::V1);
    change(d, out, data(), Value::from(bit))
}

// The ids that the writer gives first and second.
fn clock() -> IdCode {
    IdCode::FIRST
}

fn data() -> IdCode {
    IdCode(1)
}

fn header(out: &mut [u8]) -> Dump {
    let d = Dump {
        len: 0,
        writer: Writer::new(),
    };
    let d = put(d, out, Command::Timescale(1, TimescaleUnit::US));
    let d = module(d, out, Text { start: 0, len: 3 });
    wires(d, out)
}

fn wires(d: Dump, out: &mut [u8]) -> Dump {
    let d = wire(d, out, Text { start: 3, len: 5 });
    let d = wire(d, out, Text { start: 8, len: 4 });
    let d = put(d, out, Command::Upscope);
    put(d, out, Command::Enddefinitions)
}

fn initial(d: Dump, out: &mut [u8]) -> Dump {
    let d = put(d, out, Command::Begin(SimulationCommand::Dumpvars));
    let d = change(d, out, clock(), Value::V0);
    let d = change(d, out, data(), Value::V0);
    put(d, out, Command::End(SimulationCommand::Dumpvars))
}

fn timestamp(d: Dump, out: &mut [u8], t: u64) -> Dump {
    put(d, out, Command::Timestamp(Time(t)))
}

fn change(d: Dump, out: &mut [u8], id: IdCode, v: Value) -> Dump {
    put(d, out, Command::ChangeScalar(id, v))
}

// How much of the output is used: never more than there is.
fn used(d: Dump, out: &[u8]) -> usize
    ensures { result ≤ length out.now }
{
    text::least(d.len, out.len())
}

// One function acts for all commands but those whose ids or types the writer chooses.
fn put(d: Dump, out: &mut [u8], k: Command) -> Dump {
    let at = used(d, out);
    accepted(d, d.writer.command(&NAMES, k, &mut out[at..]))
}

fn module(d: Dump, out: &mut [u8], name: Text) -> Dump {
    let at = used(d, out);
    accepted(d, d.writer.add_module(&NAMES, name, &mut out[at..]))
}

fn wire(d: Dump, out: &mut [u8], name: Text) -> Dump {
    let at = used(d, out);
    added(d, d.writer.add_wire(&NAMES, 1, name, &mut out[at..]))
}

// A refused call leaves the dump as it is.
fn accepted(d: Dump, w: Written) -> Dump {
    match w {
        Ok((n, writer)) => grown(d, n, writer),
        Err(_) => d,
    }
}

fn added(d: Dump, w: Added) -> Dump {
    match w {
        Ok((n, writer, _)) => grown(d, n, writer),
        Err(_) => d,
    }
}

fn grown(d: Dump, n: usize, writer: Writer) -> Dump {
    if 4096 < d.len || 4096 < n {
        return d;
    }
    Dump {
        len: d.len + n,
        writer,
    }
}
