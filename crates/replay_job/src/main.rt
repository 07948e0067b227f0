// Reads dumps as cases on standard input (docs/ORACLE.md), after a line `list` or `reformat`, and prints what that program prints for
// each. A further such line begins a further stream of cases. Its stored input and output are the oracle's recorded samples of both
// programs, made by oracle/record from the crate's own answers.
#![tactic(auto)]

ghost use Rattle.std.specs.Prelude.{◌≡◌, length};
ghost use Rattle.list_job.specs.Turns.{lent};

use std::io::{Stdin, Stdout};

fn main(rt: HostRuntime) {
    let mut input = buffer();
    let mut out = listed();
    let mut lent = rewritten();
    replay::finish(
        rt.stdin(),
        rt.stderr(),
        &rt,
        answer_all(rt.stdin(), rt.stdout(), &mut input, &mut out, &mut lent),
    );
}

#[derive(Clone, Copy)]
enum Program {
    List,
    Reformat,
}

// Zeros: room for the longest case.
fn buffer() -> [u8; 131072]
    ensures { 131072 ≡ length result }
{
    [0; 131072]
}

// What a turn of each program is lent.
fn listed() -> [u8; list_job::ROOM]
    ensures { lent ≡ length result }
{
    [0; list_job::ROOM]
}

fn rewritten() -> [u8; reformat_job::LENT]
    ensures { 65536 ≡ length result }
{
    [0; reformat_job::LENT]
}

// Every case and every name takes two bytes at least, so this many are enough.
const MOST_TURNS: u64 = 4294967295;

// Each case's number, then what the program prints for it, which goes to standard output by itself. Answers whether all was written.
fn answer_all(
    stdin: Stdin,
    stdout: Stdout,
    input: &mut [u8],
    out: &mut [u8],
    lent: &mut [u8],
) -> bool {
    let mut have: usize = 0;
    let mut at: usize = 0;
    let mut number: u64 = 0;
    let mut program = None;
    for turn in 0..MOST_TURNS {
        let fed = replay::next_case(stdin, input, at, have);
        have = fed.have;
        match fed.case {
            Some(t) => {
                if !answer(stdout, program, text::part(input, t), number, out, lent) {
                    return false;
                }
                at = replay::after(input, t);
                number += 1;
            }
            None => {
                // What is left stands at the front: a program's name, or nothing.
                let line = replay::line_at(replay::front(input, have), 0);
                program = named(text::part(input, line));
                if program.is_none() {
                    return true;
                }
                at = replay::after(input, line);
                number = 0;
            }
        }
    }
    true
}

fn named(line: &[u8]) -> Option<Program> {
    match line {
        b"list" => Some(Program::List),
        b"reformat" => Some(Program::Reformat),
        _ => None,
    }
}

fn answer(
    stdout: Stdout,
    program: Option<Program>,
    dump: &[u8],
    number: u64,
    out: &mut [u8],
    lent: &mut [u8],
) -> bool {
    if !write_case(stdout, number, out) {
        return false;
    }
    match program {
        Some(Program::List) => job::print_list(stdout, dump, out).written,
        Some(Program::Reformat) => job::print_reformat(stdout, dump, lent).written,
        None => true,
    }
}

fn write_case(stdout: Stdout, number: u64, out: &mut [u8]) -> bool {
    let o = replay::put(out, 0, b"case");
    let o = replay::put_number(out, o, number);
    let o = replay::put_byte(out, o, b'\n');
    replay::write_front(stdout, out, o)
}
