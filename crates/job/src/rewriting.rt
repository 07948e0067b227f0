// A dump written anew, a turn at a time.
use crate::Printed;
use reformat_job::State;
use std::io::Stdout;

// Writes a dump anew; the output is that of a turn. A write that fails ends it.
pub fn print_reformat(stdout: Stdout, input: &[u8], out: &mut [u8]) -> Printed {
    let mut rows = [0u64; reformat_job::ROW_WORDS];
    take_turns(stdout, input, &mut rows, out)
}

fn take_turns(stdout: Stdout, input: &[u8], rows: &mut [u64], out: &mut [u8]) -> Printed {
    let mut state = State::Begin;
    // How many turns there are is known by the last alone.
    while !reformat_job::is_finished(state) {
        let t = reformat_job::take_turn(input, state, rows, out);
        if !console::write_front(stdout, out, t.count) {
            return Printed {
                written: false,
                whole: false,
            };
        }
        state = t.next;
    }
    Printed {
        written: true,
        whole: reformat_job::is_whole(state),
    }
}
