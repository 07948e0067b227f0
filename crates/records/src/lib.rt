// Commands read into a lent table of records, one after another.
#![tactic(auto)]

ghost use Rattle.std.specs.Prelude.{◌≡◌, ◌+◌, ◌*◌, ◌≤◌, length};
ghost use Rattle.fast.specs.Fast.{Hits};
ghost use Rattle.parser.specs.Next.{next_from};
ghost use Rattle.token.specs.Read.{Valid};
ghost use Rattle.records.specs.Read.{read_of, answer_of, filled, step_of, as_slow, Inside, table_of, Ran};
ghost use Rattle.text.specs.Texts.{limit};

use command::Refusal;
use fast::Fast;
use parser::Next;
use record::WORDS;
use text::Text;
use token::Cursor;
use value::Value;

// How a run of reading ended: no room for one more, the end of the input, or a refusal and the line of it. Three ways, so an enum of its own.
#[derive(Clone, Copy)]
pub enum Ended {
    Full,
    Whole,
    Refused(Refusal, u64),
}

#[derive(Clone, Copy)]
pub struct ReadAnswer {
    pub cursor: Cursor,
    pub count: usize,
    pub ended: Ended,
}

// Reads commands from the cursor on, one a record, until there is no room for one more. A `loop`, since each command moves the cursor
// by what was read.
pub fn read(input: &[u8], c: Cursor, records: &mut [u64]) -> ReadAnswer
    ensures answer { result ≡ answer_of (read_of input.now c records.old) }
    ensures table { records.new ≡ filled (read_of input.now c records.old).commands records.old }
{
    if !parser::placed(input, c) {
        return answer(c, 0, Ended::Refused(Refusal::BadPlace, c.line));
    }
    let cap = records.len() / WORDS;
    let mut cur = c;
    let mut n: usize = 0;
    loop {
        let ran = fast_run(input, cur, records, n);
        cur = ran.cursor;
        n = ran.count;
        if cap <= n {
            return answer(cur, n, Ended::Full);
        }
        match step_fast(input, cur, records, n) {
            Step::Hit(end) => {
                n += 1;
                cur = token::word_read(cur, end, input[end]);
            }
            Step::Read(d) => {
                n += 1;
                cur = d;
            }
            Step::Ends(d, e) => {
                return answer(d, n, e);
            }
        }
    }
}

fn answer(cursor: Cursor, count: usize, ended: Ended) -> ReadAnswer
    ensures { result ≡ record { cursor = cursor; count = count; ended = ended } }
{
    ReadAnswer {
        cursor,
        count,
        ended,
    }
}

// Where a run stands, and the count of records.
#[derive(Clone, Copy)]
struct Reached {
    cursor: Cursor,
    count: usize,
}

// The fast path: the short commands that stand next, into their records from `n` on, until one misses. The byte that ends a command is
// read before its record is stored, so that it need not be read again. `at` steps by a record's words: one count serves the test and the
// stores, where a `for` over the records' numbers keeps three.
fn fast_run(input: &[u8], c: Cursor, records: &mut [u64], n: usize) -> Reached
    requires { Valid input.now c × (9 * n ≤ length records.old) }
    ensures { Ran input.now c n records.old result.cursor result.count records.new }
{
    let room = records.len() / WORDS - n;
    let stop = WORDS * (n + fast::short_commands(input.len(), c.place, room));
    let mut cur = c;
    let mut at = WORDS * n;
    while at < stop {
        let place = cur.place;
        match fast::parse_short(input, place) {
            Fast::Time(t, end) => {
                let b = input[end];
                record::put_at(records, at, record::timestamp_words(t));
                cur = token::word_read(cur, end, b);
            }
            Fast::Scalar(i, end) => {
                let b = input[end];
                let v = Value::number_at(input[place]);
                record::put_at(records, at, record::scalar_words(v, i));
                cur = token::word_read(cur, end, b);
            }
            _ => return so_far(cur, at / WORDS),
        }
        at += WORDS;
    }
    so_far(cur, at / WORDS)
}

fn so_far(cursor: Cursor, count: usize) -> Reached
    ensures { result ≡ record { cursor = cursor; count = count } }
{
    Reached { cursor, count }
}

// One command read into its record, or how reading ends.
#[derive(Clone, Copy)]
enum Step {
    // The place of the blank that ends it.
    Hit(usize),
    Read(Cursor),
    Ends(Cursor, Ended),
}

// The command at a place, parsed on the fast path. Each loop has its own copy of this call, so that the compiler keeps it in the loop.
fn fast_command(input: &[u8], at: usize) -> Fast
    requires at_in_bounds { at ≤ length input.now }
    requires input_len_bound { length input.now ≤ limit }
    ensures { Hits input.now at result }
{
    if input.len() <= at + 2 {
        return Fast::Miss;
    }
    let b = input[at];
    if b / 2 == 24 {
        return fast::parse_scalar(input, at);
    }
    match b {
        b'#' => fast::parse_timestamp(input, at),
        b'x' | b'X' | b'z' | b'Z' => fast::parse_scalar(input, at),
        b'b' | b'B' => fast::parse_vector(&input[0..], at),
        _ => Fast::Miss,
    }
}

// A step on the fast path; after a miss, the step of a variable's definition.
fn step_fast(input: &[u8], c: Cursor, records: &mut [u64], n: usize) -> Step
    requires valid { Valid input.now c }
    requires n_in_bounds { 9 * n + 9 ≤ length records.old }
    ensures { (as_slow input.now c result ≡ step_of (next_from input.now c)) × Inside input.now result × (records.new ≡ table_of (next_from input.now c) records.old n) }
{
    let at = c.place;
    match fast_command(input, at) {
        Fast::Time(t, end) => {
            record::put(records, n, record::timestamp_words(t));
            Step::Hit(end)
        }
        Fast::Scalar(i, end) => {
            let v = Value::number_at(input[at]);
            record::put(records, n, record::scalar_words(v, i));
            Step::Hit(end)
        }
        Fast::Vector(i, stop, end) => {
            let start = at + 1;
            let len = stop - start;
            record::put(records, n, record::vector_words(i, Text { start, len }));
            Step::Hit(end)
        }
        Fast::Miss => step_var(&input[0..], again(c), records, n),
    }
}

// A cursor made anew: the fast path keeps its own in registers.
fn again(c: Cursor) -> Cursor
    ensures { result ≡ c }
{
    Cursor {
        place: c.place,
        line: c.line,
        pending: c.pending,
        sim: c.sim,
    }
}

// A step on the fast path of a variable's definition; after a miss, the slow path.
fn step_var(input: &[u8], c: Cursor, records: &mut [u64], n: usize) -> Step
    requires valid { Valid input.now c }
    requires n_in_bounds { 9 * n + 9 ≤ length records.old }
    ensures { (as_slow input.now c result ≡ step_of (next_from input.now c)) × Inside input.now result × (records.new ≡ table_of (next_from input.now c) records.old n) }
{
    match fast_var::parse_var(input, c.place) {
        Some((v, end)) => {
            record::put(records, n, record::var_words(v));
            Step::Hit(end)
        }
        None => step_slow(input, c, records, n),
    }
}

// A step on the slow path, which reads any command.
fn step_slow(input: &[u8], c: Cursor, records: &mut [u64], n: usize) -> Step
    requires valid { Valid input.now c }
    requires n_in_bounds { 9 * n + 9 ≤ length records.old }
    ensures { (result ≡ step_of (next_from input.now c)) × (records.new ≡ table_of (next_from input.now c) records.old n) }
{
    match parser::next_command(input, c) {
        Next::Command(k, d) => {
            record::put(records, n, record::words_of(k));
            Step::Read(d)
        }
        Next::Refused(e, line, d) => Step::Ends(d, Ended::Refused(e, line)),
        Next::Done(d) => Step::Ends(d, Ended::Whole),
    }
}
