// The answer to one case: a line for each call of its script.
ghost use Rattle.std.specs.Prelude.{◌≡◌, length};

use idcode::IdCode;
use replay::{put, put_byte, put_number};
use replay_call::Outcome;
use std::io::Stdout;
use text::{Spelled, Text};
use write::Writer;

// Every line of a case takes a byte, so this many are enough.
const MOST_LINES: u64 = 4294967296;

// The state after a call, and the place after its answer.
#[derive(Clone, Copy)]
struct Step {
    state: Writer,
    at: usize,
}

pub fn answer(
    stdout: Stdout,
    case: &[u8],
    number: u64,
    one: &mut [u8],
    two: &mut [u8],
    out: &mut [u8],
    at: usize,
) -> usize {
    let mut o = replay::put_case(out, at, number);
    let head = replay::line_at(case, 0);
    let first = text::part(case, head);
    let start = replay::after(case, head);
    let source = Text {
        start,
        len: script::number_at(first, 0) as usize,
    };
    let src = text::part(case, source);
    let mut w = state_in(first);
    let mut place = replay::after(case, source);
    for _ in 0..MOST_LINES {
        if case.len() <= place {
            return o;
        }
        let t = replay::line_at(case, place);
        place = replay::after(case, t);
        let step = answer_call(w, src, text::part(case, t), one, two, out, o);
        w = step.state;
        o = replay::flush(stdout, out, step.at);
    }
    o
}

// The state before the first call, from a case's first line.
fn state_in(line: &[u8]) -> Writer {
    let depth = script::number_at(line, 1);
    let id = IdCode(script::number_at(line, 2));
    let sim = script::open_at(line, 3);
    Writer { depth, id, sim }
}

// Lends as much of two outputs as the call's line says.
fn answer_call(
    w: Writer,
    src: &[u8],
    line: &[u8],
    one: &mut [u8],
    two: &mut [u8],
    out: &mut [u8],
    at: usize,
) -> Step {
    let room = script::number_at(line, 0) as usize;
    let r = replay::least(room, one.len());
    let s = replay::least(room, two.len());
    answer_on(w, src, line, &mut one[..r], &mut two[..s], out, at)
}

fn answer_on(
    w: Writer,
    src: &[u8],
    line: &[u8],
    one: &mut [u8],
    two: &mut [u8],
    out: &mut [u8],
    at: usize,
) -> Step {
    let call = script::number_at(line, 1);
    if call == HEADER {
        return answer_header(w, src, line, one, out, at);
    }
    let k = script::command_of(line, w.id);
    let a = replay_call::by_method(w, src, call, k, one);
    let b = replay_call::by_command(w, src, k, two);
    let o = put_outcome(out, at, call, a, one);
    step_of(a, replay_call::sound(a, b, one, two), out, o)
}

// The number of a header's call, and the words of a head.
const HEADER: u64 = 19;

const HEAD: usize = 10;

fn answer_header(
    w: Writer,
    src: &[u8],
    line: &[u8],
    one: &mut [u8],
    out: &mut [u8],
    at: usize,
) -> Step {
    let mut words = table();
    let n = script::numbers_from(line, 2, &mut words);
    answer_table(w, src, &words, n, one, out, at)
}

// Of the words the first are the head, the others the table.
fn answer_table(
    w: Writer,
    src: &[u8],
    words: &[u64],
    count: usize,
    one: &mut [u8],
    out: &mut [u8],
    at: usize,
) -> Step {
    let all = replay::least(count, words.len());
    let head = replay::least(HEAD, all);
    let a = replay_call::by_header(w, src, &words[..head], &words[head..all], one);
    let o = put_outcome(out, at, HEADER, a, one);
    step_of(a, replay_call::is_marked(one, a.count), out, o)
}

// The step after a call's answer: a call that was not sound is told.
fn step_of(a: Outcome, sound: bool, out: &mut [u8], at: usize) -> Step {
    Step {
        state: a.state,
        at: if sound { at } else { put(out, at, b"spoilt\n") },
    }
}

// Room for the longest table of a case.
fn table() -> [u64; 1024]
    ensures { 1024 ≡ length result }
{
    [0; 1024]
}

fn put_outcome(out: &mut [u8], at: usize, call: u64, a: Outcome, bytes: &[u8]) -> usize {
    let o = put(out, at, replay::word(&NAMES, call));
    if 0 < a.refusal {
        let p = put(out, o, b" refused");
        let q = put_number(out, p, a.refusal);
        if call == HEADER {
            return put_written(out, q, call, a, bytes);
        }
        return put_byte(out, q, b'\n');
    }
    let p = put(out, o, b" ok");
    put_written(out, p, call, a, bytes)
}

// The bytes that a call wrote, the state after it, and the id that it gave.
fn put_written(out: &mut [u8], at: usize, call: u64, a: Outcome, bytes: &[u8]) -> usize {
    let written = replay::front(bytes, a.count);
    let o = put_number(out, at, written.len() as u64);
    let p = replay::put_text(out, o, written);
    let q = put_state(out, p, a.state);
    let r = replay::put_word(out, q, given(call, a.id));
    put_byte(out, r, b'\n')
}

// The calls' names, each the word of its call's number.
const NAMES: [u8; 181] =
    *b" comment date version timescale scope_def add_module upscope var_def add_var add_wire enddefinitions timestamp change_scalar change_vector change_real change_string begin end header";

// Two calls answer the id that they gave.
fn given(call: u64, id: u64) -> Spelled {
    match call {
        9 | 10 => number::decimal(id),
        _ => text::spell(b""),
    }
}

fn put_state(out: &mut [u8], at: usize, w: Writer) -> usize {
    let o = put_number(out, at, w.depth);
    let p = put_number(out, o, w.id.0);
    replay::put_open(out, p, w.sim)
}
