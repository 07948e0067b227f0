// Reads cases on standard input (docs/ORACLE.md) and prints what reading each answers. Its stored input and output are the oracle's
// recorded sample, made by oracle/record from the crate's own answers.
#![tactic(auto)]

mod answer;

ghost use Rattle.std.specs.Prelude.{◌≡◌, length};

use std::io::Stdout;

fn main(rt: HostRuntime) {
    let mut input = buffer();
    let mut out = buffer();
    let n = replay::read_input(rt.stdin(), &mut input);
    replay::finish(
        rt.stdin(),
        rt.stderr(),
        &rt,
        answer_all(rt.stdout(), replay::front(&input, n), &mut out),
    );
}

// Zeros: room for a chunk of cases, and for more than half of it twice.
fn buffer() -> [u8; 131072]
    ensures { 131072 ≡ length result }
{
    [0; 131072]
}

// Every case takes two bytes at least, so this many are enough.
const MOST_CASES: u64 = 4294967295;

// Writes what is answered whenever the output is half full, and at the end; answers whether the last of it was written.
fn answer_all(stdout: Stdout, input: &[u8], out: &mut [u8]) -> bool {
    let mut at: usize = 0;
    let mut used: usize = 0;
    for number in 0..MOST_CASES {
        let Some(t) = replay::case_at(input, at) else {
            break;
        };
        used = answer::answer(text::part(input, t), number, out, used);
        at = replay::after(input, t);
        if 65536 < used {
            replay::write_front(stdout, out, used);
            used = 0;
        }
    }
    replay::write_front(stdout, out, used)
}
