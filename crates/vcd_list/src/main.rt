// Lists every change of every variable of the dump on standard input: reference, time, line, value. Reads, then has each turn of the
// listing written, and tells the outcome.
#![tactic(auto)]

ghost use Rattle.std.specs.Prelude.{◌≡◌, ◌+◌, length};
ghost use Rattle.lines.specs.Lines.{taken};
ghost use Rattle.list_job.specs.Turns.{lent};

use job::Printed;
use std::fs::Files;
use std::io::Stderr;

// One byte more than is taken, so that a longer dump is seen to be one.
const READ: usize = lines::TAKEN + 1;

fn main(rt: HostRuntime) {
    let mut input = input();
    let mut out = output();
    match console::read_input(rt.stdin(), &mut input) {
        Some(n) => tell(
            rt.stderr(),
            &rt,
            job::print_list(rt.stdout(), console::front(&input, n), &mut out),
        ),
        None => console::fail(rt.stderr(), &rt, b"vcd_list: reading failed\n"),
    }
}

fn tell(stderr: Stderr, files: &impl Files, p: Printed) {
    console::finish(
        stderr,
        files,
        p.written,
        p.whole,
        b"vcd_list: writing failed\n",
    );
}

fn input() -> [u8; READ]
    ensures { taken + 1 ≡ length result }
{
    [0; READ]
}

fn output() -> [u8; list_job::ROOM]
    ensures { lent ≡ length result }
{
    [0; list_job::ROOM]
}
