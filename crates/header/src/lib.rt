// The header of a dump (`parse_scope`, `parse_header` and the look-ups of vcd 0.7.0): each scope, variable and comment gives a row of
// a lent table, in file order, with its parent; date, version and timescale are answered by value.
#![tactic(auto)]

ghost use Rattle.std.specs.Prelude.{◌≡◌, ◌/◌, min, ◌*◌, ◌≤◌, ◌<◌, length};
ghost use Rattle.header.specs.Header.{header_of, answer_of, nothing as nothing_kept};
ghost use Rattle.rows.specs.Rows.{filled};
ghost use Rattle.header.specs.Level.{Took, Passes, Follows, item_of, table_of, close_of, keep_of};

pub use command::Ended;
use command::{Command, Refusal};
use parser::Next;
use rows::{LEVELS, MOST_ROWS, RowNumber};
use scope::Var;
use text::Text;
use timescale::TimescaleUnit;
use token::Cursor;

// What a header keeps beside its rows.
#[derive(Clone, Copy)]
pub struct Header {
    pub date: Option<Text>,
    pub version: Option<Text>,
    pub timescale: Option<(u32, TimescaleUnit)>,
}

#[derive(Clone, Copy)]
pub struct HeaderAnswer {
    pub cursor: Cursor,
    pub count: usize,
    pub header: Header,
    pub ended: Ended,
}

// How the items of a scope ended, with the cursor and the count of rows.
type Part = Result<(Cursor, usize), (Refusal, u64, Cursor, usize)>;

// The next item: a row without or with items of its own, stored; a command that gives none; or a refusal with its line.
// Four ways on, so an enum of its own.
#[derive(Clone, Copy)]
enum Item {
    Leaf(Cursor),
    Scope(Cursor),
    Other(Command, Cursor),
    Refused(Refusal, u64, Cursor),
}

// Where reading stands, and the count of rows.
#[derive(Clone, Copy)]
struct Taken {
    cursor: Cursor,
    count: usize,
}

// What a command that gives no row does at top.
#[derive(Clone, Copy)]
enum Move {
    On(Header),
    Ends(Ended),
}

// Reads the header that begins at the cursor. A `loop`, since each command moves the cursor by what was read.
pub fn read_header(input: &[u8], c: Cursor, rows: &mut [u64]) -> HeaderAnswer
    ensures answer { result ≡ answer_of (header_of input.now c rows.old) }
    ensures table { rows.new ≡ filled (header_of input.now c rows.old).rows rows.old }
{
    let cap = capacity(rows.len());
    let mut cur = c;
    let mut n: usize = 0;
    let mut header = nothing();
    loop {
        match take_item(input, cur, rows, n, cap, None, LEVELS) {
            Item::Leaf(d) => {
                cur = d;
                n += 1;
            }
            Item::Scope(d) => match parse_scope(input, d, rows, n + 1, n as u64, cap, LEVELS - 1) {
                Ok((e, m)) => {
                    cur = e;
                    n = m;
                }
                Err((r, line, e, m)) => {
                    return answer(e, m, header, Err((r, line)));
                }
            },
            Item::Other(k, d) => match keep(header, k, d.line) {
                Move::On(h) => {
                    cur = d;
                    header = h;
                }
                Move::Ends(e) => {
                    return answer(d, n, header, e);
                }
            },
            Item::Refused(r, line, d) => {
                return answer(d, n, header, Err((r, line)));
            }
        }
    }
}

// How many rows a table takes.
fn capacity(len: usize) -> usize
    ensures { result ≡ min 4096 (len / 10) }
{
    MOST_ROWS.min(len / rows::WORDS)
}

fn nothing() -> Header
    ensures { result ≡ nothing_kept }
{
    Header {
        date: None,
        version: None,
        timescale: None,
    }
}

fn answer(cursor: Cursor, count: usize, header: Header, ended: Ended) -> HeaderAnswer
    ensures { result ≡ record { cursor = cursor; count = count; header = header; ended = ended } }
{
    HeaderAnswer {
        cursor,
        count,
        header,
        ended,
    }
}

// The items of the scope whose row is `parent`; a scope among them is a call of itself with one level less left. A `loop`, since each
// command moves the cursor by what was read.
fn parse_scope(
    input: &[u8],
    from: Cursor,
    rows: &mut [u64],
    made: usize,
    parent: u64,
    cap: usize,
    levels: usize,
) -> Part
    requires { (made ≤ cap) × (cap ≤ 4096) × (10 * cap ≤ length rows.old) × (levels < 64) }
    ensures { Follows input.now cap parent levels from rows.old made result rows.new }
{
    let mut cur = from;
    let mut n = made;
    let of = Some(RowNumber(parent));
    loop {
        let vars = take_vars(input, cur, rows, n, cap, of);
        n = vars.count;
        match take_item(input, vars.cursor, rows, n, cap, of, levels) {
            Item::Leaf(d) => {
                cur = d;
                n += 1;
            }
            Item::Scope(d) => match parse_scope(input, d, rows, n + 1, n as u64, cap, levels - 1) {
                Ok((e, m)) => {
                    cur = e;
                    n = m;
                }
                Err((r, line, e, m)) => {
                    return Err((r, line, e, m));
                }
            },
            Item::Other(k, d) => {
                return close(k, d, n);
            }
            Item::Refused(r, line, d) => {
                return Err((r, line, d, n));
            }
        }
    }
}

// The variables in their usual form that stand next, by the fast path; their rows are stored.
fn take_vars(
    input: &[u8],
    from: Cursor,
    rows: &mut [u64],
    made: usize,
    cap: usize,
    parent: Option<RowNumber>,
) -> Taken
    requires { (made ≤ cap) × (cap ≤ 4096) × (10 * cap ≤ length rows.old) }
    ensures { Passes input.now cap parent from rows.old made result.cursor result.count rows.new }
{
    if !parser::placed(input, from) {
        return so_far(from, made);
    }
    let mut cur = from;
    for n in made..cap {
        match fast_var::parse_var(input, cur.place) {
            Some((v, end)) => {
                rows::put_var(rows, n, parent, v);
                cur = token::word_read(cur, end, input[end]);
            }
            None => return so_far(cur, n),
        }
    }
    so_far(cur, cap)
}

fn so_far(cursor: Cursor, count: usize) -> Taken
    ensures { result ≡ record { cursor = cursor; count = count } }
{
    Taken { cursor, count }
}

// Reads a command and stores the row that it gives.
fn take_item(
    input: &[u8],
    c: Cursor,
    rows: &mut [u64],
    n: usize,
    cap: usize,
    parent: Option<RowNumber>,
    levels: usize,
) -> Item
    requires { (cap ≤ 4096) × (10 * cap ≤ length rows.old) × (levels ≤ 64) }
    ensures { Took input.now cap parent levels c rows.old n result rows.new }
{
    match parser::next_command(input, c) {
        Next::Command(k, d) => store_item(rows, n, cap, parent, levels, k, d),
        Next::Refused(r, line, d) => Item::Refused(r, line, d),
        Next::Done(d) => Item::Refused(Refusal::UnexpectedEof, d.line, d),
    }
}

// The row of a command that gives one: 19 and then 20 are judged first.
#[tactic(auto, unfolding(crate::specs::Level::item_of, crate::specs::Level::table_of, crate::specs::Level::duty))]
fn store_item(
    rows: &mut [u64],
    n: usize,
    cap: usize,
    parent: Option<RowNumber>,
    levels: usize,
    k: Command,
    d: Cursor,
) -> Item
    requires { (cap ≤ 4096) × (10 * cap ≤ length rows.old) }
    ensures { (result ≡ item_of cap levels n k d) × (rows.new ≡ table_of cap parent levels n k rows.old) }
{
    match k {
        Command::ScopeDef(t, i) => {
            if levels == 0 {
                return Item::Refused(Refusal::TooDeep, d.line, d);
            }
            if cap <= n {
                return Item::Refused(Refusal::TableFull, d.line, d);
            }
            rows::put_scope(rows, n, parent, t, i);
            Item::Scope(d)
        }
        Command::VarDef(t, w, i, r, x) => {
            if cap <= n {
                return Item::Refused(Refusal::TableFull, d.line, d);
            }
            let v = Var {
                var_type: t,
                size: w,
                code: i,
                reference: r,
                index: x,
            };
            rows::put_var(rows, n, parent, v);
            Item::Leaf(d)
        }
        Command::Comment(t) => {
            if cap <= n {
                return Item::Refused(Refusal::TableFull, d.line, d);
            }
            rows::put_comment(rows, n, parent, t);
            Item::Leaf(d)
        }
        _ => Item::Other(k, d),
    }
}

// Inside a scope only `$upscope` is left.
#[tactic(auto, unfolding(crate::specs::Level::close_of, crate::specs::Level::duty))]
fn close(k: Command, d: Cursor, n: usize) -> Part
    ensures { result ≡ close_of k d n }
{
    match k {
        Command::Upscope => Ok((d, n)),
        _ => Err((Refusal::UnexpectedHeaderCommand, d.line, d, n)),
    }
}

// At top the latest date, version and timescale are kept.
#[tactic(auto, unfolding(crate::specs::Level::keep_of, crate::specs::Level::duty))]
fn keep(h: Header, k: Command, line: u64) -> Move
    ensures { result ≡ keep_of h k line }
{
    match k {
        Command::Date(t) => Move::On(Header { date: Some(t), ..h }),
        Command::Version(t) => Move::On(Header {
            version: Some(t),
            ..h
        }),
        Command::Timescale(n, u) => Move::On(Header {
            timescale: Some((n, u)),
            ..h
        }),
        Command::Enddefinitions => Move::Ends(Ok(())),
        _ => Move::Ends(Err((Refusal::UnexpectedHeaderCommand, line))),
    }
}
