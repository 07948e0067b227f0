// Reads cases on standard input (docs/ORACLE.md) and prints what each call of their scripts answers and writes. Its stored input and
// output are the oracle's recorded sample, made by oracle/record from the crate's own answers.
#![tactic(auto)]

mod answer;

ghost use Rattle.std.specs.Prelude.{◌≡◌, length};

use std::io::{Stdin, Stdout};

fn main(rt: HostRuntime) {
    let mut input = buffer();
    let mut out = buffer();
    let mut one = lent();
    let mut two = lent();
    let used = answer_all(
        rt.stdin(),
        rt.stdout(),
        &mut input,
        &mut one,
        &mut two,
        &mut out,
    );
    replay::finish(
        rt.stdin(),
        rt.stderr(),
        &rt,
        replay::write_front(rt.stdout(), &out, used),
    );
}

// Zeros: room for the longest case, and for answers until they are written.
fn buffer() -> [u8; 131072]
    ensures { 131072 ≡ length result }
{
    [0; 131072]
}

// Room for the longest output that a call is lent.
fn lent() -> [u8; 4096]
    ensures { 4096 ≡ length result }
{
    [0; 4096]
}

// Every case takes two bytes at least, so this many are enough.
const MOST_CASES: u64 = 4294967295;

// Answers how much of the output is still to be written: the rest was written whenever it was half full.
fn answer_all(
    stdin: Stdin,
    stdout: Stdout,
    input: &mut [u8],
    one: &mut [u8],
    two: &mut [u8],
    out: &mut [u8],
) -> usize {
    let mut have: usize = 0;
    let mut at: usize = 0;
    let mut used: usize = 0;
    for number in 0..MOST_CASES {
        let fed = replay::next_case(stdin, input, at, have);
        have = fed.have;
        let Some(t) = fed.case else {
            return used;
        };
        used = answer::answer(stdout, text::part(input, t), number, one, two, out, used);
        at = replay::after(input, t);
    }
    used
}
