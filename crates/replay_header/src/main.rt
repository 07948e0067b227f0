// Reads cases on standard input (docs/ORACLE.md) and prints what reading each one's header answers, with its rows. Its stored input
// and output are the oracle's recorded sample, made by oracle/record from the crate's own answers.
#![tactic(auto)]

mod answer;

ghost use Rattle.std.specs.Prelude.{◌≡◌, length};

use std::io::{Stdin, Stdout};

fn main(rt: HostRuntime) {
    let mut input = buffer();
    let mut out = buffer();
    let mut table = table();
    let used = answer_all(rt.stdin(), rt.stdout(), &mut input, &mut table, &mut out);
    replay::finish(
        rt.stdin(),
        rt.stderr(),
        &rt,
        replay::write_front(rt.stdout(), &out, used),
    );
}

// Zeros: room for the longest case, and for answers until they are written.
fn buffer() -> [u8; 131072]
    ensures { 131072 ≡ length result }
{
    [0; 131072]
}

// Room for 5,000 rows and some words.
fn table() -> [u64; 50007]
    ensures { 50007 ≡ length result }
{
    [0; 50007]
}

// Every case takes two bytes at least, so this many are enough.
const MOST_CASES: u64 = 4294967295;

// Answers how much of the output is still to be written: the rest was written whenever it was half full.
fn answer_all(
    stdin: Stdin,
    stdout: Stdout,
    input: &mut [u8],
    table: &mut [u64],
    out: &mut [u8],
) -> usize {
    let mut have: usize = 0;
    let mut at: usize = 0;
    let mut used: usize = 0;
    for number in 0..MOST_CASES {
        let fed = replay::next_case(stdin, input, at, have);
        have = fed.have;
        let Some(t) = fed.case else {
            return used;
        };
        used = answer::answer(stdout, text::part(input, t), number, table, out, used);
        at = replay::after(input, t);
    }
    used
}
