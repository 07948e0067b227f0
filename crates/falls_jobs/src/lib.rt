// The contract of a turn of the listing program once more, over its call: wrong programs are edits of it.
#![tactic(auto)]

ghost use Rattle.std.specs.Prelude.{length};
ghost use Rattle.list_job.specs.Turns.{Does, turn_of};

use list_job::{State, Turn};

pub fn take_turn(
    input: &[u8],
    state: State,
    rows: &mut [u64],
    changes: &mut [u64],
    out: &mut [u8],
) -> Turn
    ensures { Does result rows.new changes.new out.new out.old (turn_of input.now (length out.old) rows.old changes.old state) }
{
    list_job::take_turn(input, state, rows, changes, out)
}
