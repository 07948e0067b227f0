// One call of the writer made twice on outputs filled beforehand: by its own method and by `command`. Both must answer and write the
// same, and leave every byte that is not theirs. A header's call is made once. Nothing is promised of these but that they are safe and end.
#![tactic(auto)]

use command::{Command, Refusal, SimulationCommand};
use write::{Added, Writer, Written};
use write_header::HeaderWritten;

// What the outputs are filled with; no text that may be written has it.
const MARK: u8 = 0xff;

// An answer: the refusal's number or 0, the count, the state afterwards, and the id that was given or 0.
#[derive(Clone, Copy)]
pub struct Outcome {
    pub refusal: u64,
    pub count: usize,
    pub state: Writer,
    pub id: u64,
}

// After a refusal the state is the one before.
fn of_written(w: Writer, r: Written) -> Outcome {
    match r {
        Ok((count, state)) => Outcome {
            refusal: 0,
            count,
            state,
            id: 0,
        },
        Err(e) => refused(w, e.number()),
    }
}

fn of_added(w: Writer, r: Added) -> Outcome {
    match r {
        Ok((count, state, id)) => Outcome {
            refusal: 0,
            count,
            state,
            id: id.0,
        },
        Err(e) => refused(w, e.number()),
    }
}

// A header that is refused may have written commands before.
fn of_header(r: HeaderWritten) -> Outcome {
    match r {
        Ok((count, state)) => Outcome {
            refusal: 0,
            count,
            state,
            id: 0,
        },
        Err((e, count, state)) => Outcome {
            refusal: e.number(),
            count,
            state,
            id: 0,
        },
    }
}

fn refused(state: Writer, refusal: u64) -> Outcome {
    Outcome {
        refusal,
        count: 0,
        state,
        id: 0,
    }
}

// Fills the output and makes the call by its own method; `call` tells apart those that write the same command.
pub fn by_method(w: Writer, src: &[u8], call: u64, k: Command, out: &mut [u8]) -> Outcome {
    out.fill(MARK);
    match call {
        6 => of_written(w, add_module(w, src, k, out)),
        9 => of_added(w, add_var(w, src, k, out)),
        10 => of_added(w, add_wire(w, src, k, out)),
        _ => of_written(w, own(w, src, k, out)),
    }
}

// Fills the output and makes the call by `command`.
pub fn by_command(w: Writer, src: &[u8], k: Command, out: &mut [u8]) -> Outcome {
    out.fill(MARK);
    of_written(w, w.command(src, k, out))
}

// Fills the output and makes a header's call, over the words of a head and of a table.
pub fn by_header(w: Writer, src: &[u8], head: &[u64], rows: &[u64], out: &mut [u8]) -> Outcome {
    out.fill(MARK);
    match vcd_state::head_of(head) {
        Some((h, n)) => of_header(write_header::header(w, src, h, rows, n, out)),
        None => refused(w, 25),
    }
}

fn add_module(w: Writer, src: &[u8], k: Command, out: &mut [u8]) -> Written {
    match k {
        Command::ScopeDef(_, i) => w.add_module(src, i, out),
        _ => Err(Refusal::NotWritable),
    }
}

fn add_var(w: Writer, src: &[u8], k: Command, out: &mut [u8]) -> Added {
    match k {
        Command::VarDef(t, n, _, r, x) => w.add_var(src, t, n, r, x, out),
        _ => Err(Refusal::NotWritable),
    }
}

fn add_wire(w: Writer, src: &[u8], k: Command, out: &mut [u8]) -> Added {
    match k {
        Command::VarDef(_, n, _, r, _) => w.add_wire(src, n, r, out),
        _ => Err(Refusal::NotWritable),
    }
}

// The method that bears the command's name.
fn own(w: Writer, src: &[u8], k: Command, out: &mut [u8]) -> Written {
    match k {
        Command::Comment(t) => w.comment(src, t, out),
        Command::Date(t) => w.date(src, t, out),
        Command::Version(t) => w.version(src, t, out),
        Command::Timescale(n, u) => w.timescale(n, u, out),
        Command::ScopeDef(t, i) => w.scope_def(src, t, i, out),
        Command::Upscope => w.upscope(out),
        Command::VarDef(t, n, i, r, x) => w.var_def(src, t, n, i, r, x, out),
        Command::Enddefinitions => w.enddefinitions(out),
        Command::Timestamp(t) => w.timestamp(t, out),
        Command::ChangeScalar(i, v) => w.change_scalar(i, v, out),
        Command::ChangeVector(i, t) => w.change_vector(src, i, t, out),
        Command::ChangeReal(i, t) => w.change_real(src, i, t, out),
        Command::ChangeString(i, t) => w.change_string(src, i, t, out),
        Command::Begin(k) => w.begin(k, out),
        Command::End(k) => w.end(k, out),
    }
}

// Whether both ways answered and wrote the same, and left the bytes after the count.
pub fn sound(a: Outcome, b: Outcome, one: &[u8], two: &[u8]) -> bool {
    a.refusal == b.refusal
        && a.count == b.count
        && same_state(a.state, b.state)
        && text::equals(one, two)
        && is_marked(one, a.count)
}

fn same_state(v: Writer, w: Writer) -> bool {
    v.depth == w.depth && v.id.0 == w.id.0 && open_number(v.sim) == open_number(w.sim)
}

// A number for what is open, by which two states are compared.
fn open_number(o: Option<SimulationCommand>) -> u64 {
    match o {
        None => 4,
        Some(k) => k.number(),
    }
}

// Whether every byte from `at` on is as it was.
pub fn is_marked(s: &[u8], at: usize) -> bool {
    s.iter().skip(at).all(|&b| b == MARK)
}
