// A whole header written from its rows (`Writer::header` and `Writer::scope` of vcd 0.7.0).
#![tactic(auto)]

mod place;

ghost use Rattle.std.specs.Prelude.{◌≡◌, true, false, [], ◌∷◌, ℕ, ◌≤◌, ◌<◌, length};
ghost use Rattle.command.specs.Meaning.{meaning, date as date_remark, version as version_remark};
ghost use Rattle.rows.specs.Good.{is_good_table};
ghost use Rattle.rows.specs.Rows.{row_at, rows_of};
ghost use Rattle.rows.specs.Peek.{kind_of};
ghost use Rattle.text.specs.Texts.{too_long, outside};
ghost use Rattle.write.specs.Call.{misplaced as is_misplaced};
ghost use Rattle.write_header.specs.Levels.{Inside, Fits, Closes, WritesItem, WritesScope};
ghost use Rattle.write_header.specs.Meanings.{kept_meanings, remark_of, timescale_of, var_meaning, row_meanings};
ghost use Rattle.write_header.specs.Pour.{pour, Writes};
ghost use Rattle.write_header.specs.Written.{header_call, kept_outside, Does};

use command::{Command, Refusal};
use header::Header;
use rows::Row;
use scope::Var;
use text::Text;
use timescale::TimescaleUnit;
use write::{Writer, Written};

// How a header was written: the bytes and the state then; or why it stopped, after so many bytes and at which state.
pub type HeaderWritten = Result<(usize, Writer), (Refusal, usize, Writer)>;

// How a part of it was written: to its end, with the next row, the place after it and the state; or refused.
type Wrote = Result<(usize, usize, Writer), (Refusal, usize, Writer)>;

// Writes a header with these values kept and the first `count` rows of a table.
pub fn header(
    w: Writer,
    src: &[u8],
    h: Header,
    rows: &[u64],
    count: usize,
    out: &mut [u8],
) -> HeaderWritten
    ensures { Does result out.new (header_call w src.now h rows.now count out.old) }
{
    if place::misplaced(src, h, rows, count) {
        return Err((Refusal::BadPlace, 0, w));
    }
    if !tree::good_table(rows, count) {
        return Err((Refusal::BadTable, 0, w));
    }
    let (_, at, v) = write_kept(w, src, h, out)?;
    write_rows(v, src, rows, count, out, at)
}

// One command after the bytes that are written; `row` is the row to go on with.
fn write_one(w: Writer, src: &[u8], k: Command, row: usize, out: &mut [u8], at: usize) -> Wrote
    requires { (at ≤ length out.old) × (is_misplaced src.now k ≡ false) }
    ensures { Writes out.old at w (meaning src.now k ∷ []) row result out.new }
{
    match w.command(src, k, &mut out[at..]) {
        Ok((n, v)) => Ok((row, at + n, v)),
        Err(e) => Err((e, at, w)),
    }
}

// Date, version and timescale, where they are kept.
fn write_kept(w: Writer, src: &[u8], h: Header, out: &mut [u8]) -> Wrote
    requires { (too_long src.now ≡ false) × (kept_outside src.now h.date ≡ false) × (kept_outside src.now h.version ≡ false) }
    ensures { Writes out.old 0 w (kept_meanings src.now h) 0 result out.new }
{
    let (_, at, v) = write_date(w, src, h.date, out)?;
    let (_, past, u) = write_version(v, src, h.version, out, at)?;
    write_timescale(u, src, h.timescale, out, past)
}

fn write_date(w: Writer, src: &[u8], date: Option<Text>, out: &mut [u8]) -> Wrote
    requires { (too_long src.now ≡ false) × (kept_outside src.now date ≡ false) }
    ensures { Writes out.old 0 w (remark_of date_remark src.now date) 0 result out.new }
{
    match date {
        None => Ok((0, 0, w)),
        Some(t) => write_one(w, src, Command::Date(t), 0, out, 0),
    }
}

fn write_version(w: Writer, src: &[u8], version: Option<Text>, out: &mut [u8], at: usize) -> Wrote
    requires { (at ≤ length out.old) × (too_long src.now ≡ false) × (kept_outside src.now version ≡ false) }
    ensures { Writes out.old at w (remark_of version_remark src.now version) 0 result out.new }
{
    match version {
        None => Ok((0, at, w)),
        Some(t) => write_one(w, src, Command::Version(t), 0, out, at),
    }
}

fn write_timescale(
    w: Writer,
    src: &[u8],
    timescale: Option<(u32, TimescaleUnit)>,
    out: &mut [u8],
    at: usize,
) -> Wrote
    requires { (at ≤ length out.old) × (too_long src.now ≡ false) }
    ensures { Writes out.old at w (timescale_of timescale) 0 result out.new }
{
    match timescale {
        None => Ok((0, at, w)),
        Some((n, u)) => write_one(w, src, Command::Timescale(n, u), 0, out, at),
    }
}

// The rows, and the end of the definitions.
fn write_rows(
    w: Writer,
    src: &[u8],
    rows: &[u64],
    n: usize,
    out: &mut [u8],
    at: usize,
) -> HeaderWritten
    requires { (at ≤ length out.old) × Inside src.now rows.now n × (is_good_table (rows_of rows.now n) ≡ true) }
    ensures { Does result out.new (pour out.old at w (row_meanings src.now 0 [] (rows_of rows.now n))) }
{
    let (_, past, v) = write_scope(w, src, rows, n, 0, out, at, rows::TOP, rows::LEVELS)?;
    let (_, end, u) = write_one(v, src, Command::Enddefinitions, 0, out, past)?;
    Ok((end, u))
}

// The items of the scope `me` from row `from` on. A `while`, since the row moves by what an item took.
#[cycle(write_item_write_scope)]
fn write_scope(
    w: Writer,
    src: &[u8],
    rows: &[u64],
    n: usize,
    from: usize,
    out: &mut [u8],
    at: usize,
    me: u64,
    levels: usize,
) -> Wrote
    requires { (from ≤ n) × (n ≤ 4096) × (levels ≤ 64) × (at ≤ length out.old) × Inside src.now rows.now n }
    ensures { WritesScope src.now rows.now n levels me from out.old at w result out.new }
{
    let mut v = w;
    let mut i = from;
    let mut place = at;
    while i < n {
        if tree::parent_at(rows, i) != me {
            return Ok((i, place, v));
        }
        let (next, past, u) = write_item(v, src, rows, n, i, out, place, levels)?;
        i = next;
        place = past;
        v = u;
    }
    Ok((i, place, v))
}

// Row i: a variable or a comment, or a scope with its items.
#[cycle(write_item_write_scope)]
fn write_item(
    w: Writer,
    src: &[u8],
    rows: &[u64],
    n: usize,
    i: usize,
    out: &mut [u8],
    at: usize,
    levels: usize,
) -> Wrote
    requires { (i < n) × (n ≤ 4096) × (levels ≤ 64) × (at ≤ length out.old) × Inside src.now rows.now n }
    ensures { WritesItem src.now rows.now n levels i out.old at w result out.new }
{
    match rows::row_at(rows, i) {
        Row::Scope(_, k, t) => {
            if levels == 0 {
                return Err((Refusal::BadTable, at, w));
            }
            let (next, past, v) = write_one(w, src, Command::ScopeDef(k, t), i + 1, out, at)?;
            close(
                write_scope(v, src, rows, n, next, out, past, i as u64, levels - 1),
                src,
                out,
            )
        }
        Row::Var(_, _) => write_vars(w, src, rows, n, i, out, at),
        Row::Comment(_, t) => write_one(w, src, Command::Comment(t), i + 1, out, at),
        Row::None => Err((Refusal::BadTable, at, w)),
    }
}

// Row `from`, a variable, and those after it that are variables of the same scope.
fn write_vars(
    w: Writer,
    src: &[u8],
    rows: &[u64],
    n: usize,
    from: usize,
    out: &mut [u8],
    at: usize,
) -> Wrote
    requires { (from < n) × (n ≤ 4096) × (at ≤ length out.old) × Inside src.now rows.now n × (kind_of (row_at rows.now from) ≡ 2) }
    ensures { (levels : ℕ) → WritesItem src.now rows.now n levels from out.old at w result out.new }
{
    let me = tree::parent_at(rows, from);
    let mut v = w;
    let mut place = at;
    for i in from..n {
        if !tree::is_var_of(rows, i, me) {
            return Ok((i, place, v));
        }
        let (_, past, u) = write_var(v, src, rows::peek::var_at(rows, i), i + 1, out, place)?;
        place = past;
        v = u;
    }
    Ok((n, place, v))
}

fn write_var(w: Writer, src: &[u8], v: Var, row: usize, out: &mut [u8], at: usize) -> Wrote
    requires { (at ≤ length out.old) × (outside src.now v.reference ≡ false) }
    ensures { Writes out.old at w (var_meaning src.now v ∷ []) row result out.new }
{
    match w.var(src, v, &mut out[at..]) {
        Ok((n, u)) => Ok((row, at + n, u)),
        Err(e) => Err((e, at, w)),
    }
}

// The `$upscope` after a scope's items.
fn close(items: Wrote, src: &[u8], out: &mut [u8]) -> Wrote
    requires { Fits items (length out.old) × (too_long src.now ≡ false) }
    ensures { Closes items out.old result out.new }
{
    let (next, at, w) = items?;
    write_one(w, src, Command::Upscope, next, out, at)
}
