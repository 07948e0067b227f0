// The states that callers keep as words: the cursor (place, line, 1 where a newline is pending, the open simulation command), the writer
// (depth, next id code, the open simulation command), and what a header keeps beside its rows. An open simulation command is 0 for none,
// else one more than its type.
#![tactic(auto)]

ghost use Rattle.std.specs.Prelude.{◌≡◌, [], ◌∷◌, ◌+◌, ◌≤◌, ◌<◌, ◌^◌, length};
ghost use Rattle.emit.specs.Put.{stored};
ghost use Rattle.vcd_state.specs.State.{
  open_of,
  open_word,
  cursor_of,
  cursor_words,
  writer_of,
  writer_words,
  head_of,
  head_words,
  is_kept,
  is_scale,
  text_of,
  scale_of,
  text_words,
  scale_words,
};

use command::SimulationCommand;
use header::Header;
use idcode::IdCode;
use text::Text;
use timescale::TimescaleUnit;
use token::Cursor;
use write::Writer;

pub const CURSOR: usize = 4;

pub const WRITER: usize = 3;

pub const HEAD: usize = 10;

fn open_of(w: u64) -> Option<SimulationCommand>
    ensures { result ≡ open_of w }
{
    match w {
        0 => None,
        _ => Some(SimulationCommand::from_number(w - 1)),
    }
}

fn open_word(o: Option<SimulationCommand>) -> u64
    ensures { result ≡ open_word o }
{
    match o {
        None => 0,
        Some(k) => k.number() + 1,
    }
}

pub fn cursor_of(w: &[u64]) -> Option<Cursor>
    ensures { result ≡ cursor_of w.now }
{
    if w.len() != CURSOR {
        return None;
    }
    if 1 < w[2] {
        return None;
    }
    if 4 < w[3] {
        return None;
    }
    Some(Cursor {
        place: w[0] as usize,
        line: w[1],
        pending: w[2] == 1,
        sim: open_of(w[3]),
    })
}

pub fn put_cursor(w: &mut [u64], c: Cursor)
    requires { length w.old ≡ 4 }
    ensures { w.new ≡ cursor_words c }
{
    let sim = c.sim;
    w[0] = c.place as u64;
    w[1] = c.line;
    w[2] = c.pending as u64;
    w[3] = open_word(sim);
}

pub fn writer_of(w: &[u64]) -> Option<Writer>
    ensures { result ≡ writer_of w.now }
{
    if w.len() != WRITER {
        return None;
    }
    if 4 < w[2] {
        return None;
    }
    Some(Writer {
        depth: w[0],
        id: IdCode(w[1]),
        sim: open_of(w[2]),
    })
}

pub fn put_writer(w: &mut [u64], v: Writer)
    requires { length w.old ≡ 3 }
    ensures { w.new ≡ writer_words v }
{
    let id = v.id;
    let sim = v.sim;
    w[0] = v.depth;
    w[1] = id.0;
    w[2] = open_word(sim);
}

// The count of rows; then date, version and timescale, each 1 and two numbers where it is kept, else three zeros.
pub fn head_of(w: &[u64]) -> Option<(Header, usize)>
    ensures { result ≡ head_of w.now }
{
    if w.len() != HEAD {
        return None;
    }
    if !is_kept(w[1], w[2], w[3]) {
        return None;
    }
    if !is_kept(w[4], w[5], w[6]) {
        return None;
    }
    if !is_scale(w[7], w[8], w[9]) {
        return None;
    }
    let date = text_of(w[1], w[2], w[3]);
    let version = text_of(w[4], w[5], w[6]);
    let timescale = scale_of(w[7], w[8], w[9]);
    Some((
        Header {
            date,
            version,
            timescale,
        },
        w[0] as usize,
    ))
}

// Whether three words are a text that is kept or none.
fn is_kept(h: u64, s: u64, l: u64) -> bool
    ensures { result ≡ is_kept h s l }
{
    match h {
        0 => s == 0 && l == 0,
        1 => true,
        _ => false,
    }
}

fn is_scale(h: u64, n: u64, u: u64) -> bool
    ensures { result ≡ is_scale h n u }
{
    match h {
        0 => n == 0 && u == 0,
        1 => n < 4294967296 && u < 6,
        _ => false,
    }
}

fn text_of(h: u64, s: u64, l: u64) -> Option<Text>
    ensures { result ≡ text_of h s l }
{
    match h {
        0 => None,
        _ => Some(Text {
            start: s as usize,
            len: l as usize,
        }),
    }
}

fn scale_of(h: u64, n: u64, u: u64) -> Option<(u32, TimescaleUnit)>
    requires { n < 2 ^ 32 }
    ensures { result ≡ scale_of h n u }
{
    match h {
        0 => None,
        _ => Some((n as u32, TimescaleUnit::from_number(u))),
    }
}

pub fn put_head(w: &mut [u64], h: Header, count: usize)
    requires { length w.old ≡ 10 }
    ensures { w.new ≡ head_words h count }
{
    let date = h.date;
    let version = h.version;
    let timescale = h.timescale;
    w[0] = count as u64;
    put_text(w, 1, date);
    put_text(w, 4, version);
    put_scale(w, 7, timescale);
}

fn put_text(w: &mut [u64], at: usize, t: Option<Text>)
    requires { at + 3 ≤ length w.old }
    ensures { w.new ≡ stored w.old at (text_words t) }
{
    match t {
        None => put_three(w, at, 0, 0, 0),
        Some(x) => put_three(w, at, 1, x.start as u64, x.len as u64),
    }
}

fn put_scale(w: &mut [u64], at: usize, t: Option<(u32, TimescaleUnit)>)
    requires { at + 3 ≤ length w.old }
    ensures { w.new ≡ stored w.old at (scale_words t) }
{
    match t {
        None => put_three(w, at, 0, 0, 0),
        Some((n, u)) => put_three(w, at, 1, n as u64, u.number()),
    }
}

fn put_three(w: &mut [u64], at: usize, a: u64, b: u64, c: u64)
    requires { at + 3 ≤ length w.old }
    ensures { w.new ≡ stored w.old at (a ∷ b ∷ c ∷ []) }
{
    w[at] = a;
    w[at + 1] = b;
    w[at + 2] = c;
}
