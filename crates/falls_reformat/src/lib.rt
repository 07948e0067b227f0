// The contract of a turn once more, over its call: wrong programs are edits of this.
#![tactic(auto)]

ghost use Rattle.std.specs.Prelude.{length};
ghost use Rattle.reformat_job.specs.Turns.{Does, turn_of};

use reformat_job::{State, Turn};

pub fn take_turn(input: &[u8], state: State, rows: &mut [u64], out: &mut [u8]) -> Turn
    ensures { Does result rows.new out.new out.old (turn_of input.now (length out.old) rows.old state) }
{
    reformat_job::take_turn(input, state, rows, out)
}
