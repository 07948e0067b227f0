// The listing of a dump, a turn at a time.
ghost use Rattle.std.specs.Prelude.{◌≡◌, length};
ghost use Rattle.list_job.specs.Turns.{row_words, change_words};

use crate::Printed;
use list_job::State;
use std::io::Stdout;

// Prints the listing of a dump. A write that fails ends it.
pub fn print_list(stdout: Stdout, input: &[u8], out: &mut [u8]) -> Printed {
    let mut rows = [0u64; list_job::ROW_WORDS];
    let mut changes = [0u64; list_job::CHANGE_WORDS];
    take_turns(stdout, input, &mut rows, &mut changes, out)
}

fn take_turns(
    stdout: Stdout,
    input: &[u8],
    rows: &mut [u64],
    changes: &mut [u64],
    out: &mut [u8],
) -> Printed
    requires { (length rows.old ≡ row_words) × (length changes.old ≡ change_words) }
{
    let mut state = State::Begin;
    // How many turns there are is known by the last alone.
    while !list_job::is_finished(state) {
        let t = list_job::take_turn(input, state, rows, changes, out);
        if !console::write_front(stdout, out, t.count) {
            return Printed {
                written: false,
                whole: false,
            };
        }
        state = t.next;
    }
    Printed {
        written: true,
        whole: list_job::is_whole(state),
    }
}
