// Writes the dump on standard input anew: its header and its commands. Reads, then has each turn written, and tells the outcome.
#![tactic(auto)]

ghost use Rattle.std.specs.Prelude.{◌≡◌, length};
ghost use Rattle.reformat_job.specs.Reformat.{lent_bytes};

use job::Printed;
use std::fs::Files;
use std::io::Stderr;

fn main(rt: HostRuntime) {
    let mut input = input();
    let mut out = output();
    match console::read_input(rt.stdin(), &mut input) {
        Some(n) => tell(
            rt.stderr(),
            &rt,
            job::print_reformat(rt.stdout(), console::front(&input, n), &mut out),
        ),
        None => console::fail(rt.stderr(), &rt, b"vcd_reformat: reading failed\n"),
    }
}

fn tell(stderr: Stderr, files: &impl Files, p: Printed) {
    console::finish(
        stderr,
        files,
        p.written,
        p.whole,
        b"vcd_reformat: writing failed\n",
    );
}

// One byte more than is taken, so that a longer dump is seen to be one.
fn input() -> [u8; 65537]
    ensures { 65537 ≡ length result }
{
    [0; 65537]
}

// What a turn is lent.
fn output() -> [u8; reformat_job::LENT]
    ensures { lent_bytes ≡ length result }
{
    [0; reformat_job::LENT]
}
