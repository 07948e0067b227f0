// The reader's contracts once more, each over its call: wrong programs are edits of these.
#![tactic(auto)]

ghost use Rattle.std.specs.Prelude.{◌≡◌};
ghost use Rattle.parser.specs.Next.{next_from};

use parser::Next;
use token::Cursor;

pub fn next_command(input: &[u8], c: Cursor) -> Next
    ensures { result ≡ next_from input.now c }
{
    parser::next_command(input, c)
}
