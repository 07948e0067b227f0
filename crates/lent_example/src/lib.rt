// How the lent forms are used: a state that two calls share, and rows that a call fills. The parameters of these functions are plain, so
// that whoever calls them needs no walk by hand.
#![tactic(auto)]

ghost use Rattle.std.specs.Prelude.{◌≡◌, get_or};
ghost use Rattle.lent_rows.specs.Rows.{header_in, placed};
ghost use Rattle.lent_example.specs.Uses.{Two, no_row, no_rows};

use command::{Command, Refusal};
use lent_rows::{HeaderRow, ScopeItem};
use scope::ScopeType;
use text::Text;
use token::Cursor;
use write::Writer;

// Writes two commands, each to its own output, and answers the second, which is judged by the state that the first one left.
pub fn write_two(
    src: &[u8],
    a: Command,
    b: Command,
    first: &mut [u8],
    second: &mut [u8],
) -> Result<usize, Refusal>
    ensures { Two result first.new second.new src.now a b first.old second.old }
{
    let mut w = Writer::new();
    // A refused command leaves the state as it was, so the first answer is not asked for.
    let _ = lent_writer::write_command(&mut w, src, a, first);
    lent_writer::write_command(&mut w, src, b, second)
}

// An empty module. Upscope is refused at the top, so the answer shows that the state went from one call to the next.
pub fn write_module(
    src: &[u8],
    name: Text,
    first: &mut [u8],
    second: &mut [u8],
) -> Result<usize, Refusal>
    ensures { Two result first.new second.new src.now (Command.ScopeDef ScopeType.Module name) Command.Upscope first.old second.old }
{
    write_two(
        src,
        Command::ScopeDef(ScopeType::Module, name),
        Command::Upscope,
        first,
        second,
    )
}

// A row that was never filled.
fn no_row() -> HeaderRow
    ensures { result ≡ no_row }
{
    HeaderRow {
        parent: None,
        item: ScopeItem::None,
    }
}

// The first row of the header that begins at the cursor.
pub fn first_row(input: &[u8], c: Cursor) -> HeaderRow
    ensures { result ≡ get_or (placed (header_in input.now c 16).rows no_rows) 0 no_row }
{
    let mut rows = [no_row(); 16];
    lent_rows::read_rows(input, c, &mut rows);
    rows[0]
}
