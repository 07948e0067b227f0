// The look-ups by path, the examples of the crate's documentation among them: a dump on standard input, a line `--`, then paths, one a
// line; for each the scope and the variable that it names. The stored output is the crate's (oracle/src/bin/finds.rs).
#![tactic(auto)]

use find::FoundRow;
use replay::{put, put_byte, put_number, put_word};
use rows::Row;
use text::Text;

fn main(rt: HostRuntime) {
    let mut input = [0u8; 4096];
    let mut out = [0u8; 4096];
    let n = replay::read_input(rt.stdin(), &mut input);
    let used = answer_all(replay::front(&input, n), &mut out);
    replay::finish(
        rt.stdin(),
        rt.stderr(),
        &rt,
        replay::write_front(rt.stdout(), &out, used),
    );
}

// The header ends at its `$enddefinitions`, and the paths begin after the line `--`.
fn answer_all(input: &[u8], out: &mut [u8]) -> usize {
    let mut rows = [0u64; 320];
    let h = header::read_header(input, parser::start(), &mut rows);
    let mut at = after_line(input, h.cursor.place);
    let mut o: usize = 0;
    // Every line has a byte at least.
    for _ in 0..4096 {
        if input.len() <= at {
            return o;
        }
        let line = replay::line_at(input, at);
        o = answer_path(input, &rows, h.count, text::part(input, line), out, o);
        at = after_line(input, at);
    }
    o
}

// The place after the line that begins at `at`.
fn after_line(input: &[u8], at: usize) -> usize {
    replay::after(input, replay::line_at(input, at))
}

fn answer_path(
    input: &[u8],
    rows: &[u64],
    count: usize,
    path: &[u8],
    out: &mut [u8],
    at: usize,
) -> usize {
    let o = put(out, at, b"scope");
    let o = put_found(
        input,
        rows,
        find::find_scope(input, rows, count, path),
        out,
        o,
    );
    let o = put(out, o, b"var");
    put_found(
        input,
        rows,
        find::find_var(input, rows, count, path),
        out,
        o,
    )
}

fn put_found(input: &[u8], rows: &[u64], found: FoundRow, out: &mut [u8], at: usize) -> usize {
    match found {
        Ok(Some(n)) => put_row(input, rows::row_at(rows, n.0 as usize), out, at),
        Ok(None) => put(out, at, b" -\n"),
        Err(_) => put(out, at, b" refused\n"),
    }
}

fn put_row(input: &[u8], row: Row, out: &mut [u8], at: usize) -> usize {
    match row {
        Row::Scope(_, k, t) => {
            let o = put_word(out, at, k.spell());
            put_name(input, t, out, o)
        }
        Row::Var(_, v) => {
            let o = put_word(out, at, v.var_type.spell());
            let o = put_number(out, o, v.size as u64);
            let o = put_number(out, o, v.code.0);
            put_name(input, v.reference, out, o)
        }
        Row::Comment(_, _) => put(out, at, b" comment\n"),
        Row::None => put(out, at, b" none\n"),
    }
}

fn put_name(input: &[u8], t: Text, out: &mut [u8], at: usize) -> usize {
    let o = put_byte(out, at, b' ');
    let o = put(out, o, text::part(input, t));
    put_byte(out, o, b'\n')
}
