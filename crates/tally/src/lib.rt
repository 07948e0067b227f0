// A reading loop over the parser: how many commands there are up to the end or the first refusal.
#![tactic(auto)]

ghost use Rattle.std.specs.Prelude.{◌≡◌};
ghost use Rattle.tally.specs.Count.{count_from};

use command::Refusal;
use parser::Next;
use token::Cursor;

pub type Count = Result<(u64, Cursor), (Refusal, u64, u64, Cursor)>;

#[tactic(auto, unfolding(crate::specs::Count::counts))]
pub fn count_commands(input: &[u8], c: Cursor) -> Count
    ensures { result ≡ count_from input.now c }
{
    let mut n: u64 = 0;
    let mut cur = c;
    // No turn is counted: every command moves the cursor on.
    loop {
        match parser::next_command(input, cur) {
            Next::Command(_, next) => {
                n += 1;
                cur = next;
            }
            Next::Refused(e, line, next) => {
                return Err((e, line, n, next));
            }
            Next::Done(next) => {
                return Ok((n, next));
            }
        }
    }
}
