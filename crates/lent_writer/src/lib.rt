// The writer's state lent: one thin function over the by-value call that writes a command.
#![tactic(auto)]

ghost use Rattle.std.specs.Prelude.{◌≡◌};
ghost use Rattle.write.specs.Call.{call};
ghost use Rattle.lent_writer.specs.Lent.{lent_answer, lent_state, lent_step};

use command::{Command, Refusal};
use write::{Writer, Written};

// The state after a command beside what it answers.
#[derive(Clone, Copy)]
struct Stepped {
    state: Writer,
    answer: Result<usize, Refusal>,
}

// One command by value: a refused one hands the state back as it was.
fn step(w: Writer, src: &[u8], c: Command, out: &mut [u8]) -> Stepped
    ensures { (result ≡ lent_step w (call w src.now c out.old).answer) × (out.new ≡ (call w src.now c out.old).left) }
{
    match w.command(src, c, out) {
        Ok((n, state)) => Stepped {
            state,
            answer: Ok(n),
        },
        Err(e) => Stepped {
            state: w,
            answer: Err(e),
        },
    }
}

// Writes a command as read by the parser. Behind the reference stands the next state then, or the same where the command was refused.
pub fn write_command(
    w: &mut Writer,
    src: &[u8],
    c: Command,
    out: &mut [u8],
) -> Result<usize, Refusal>
    ensures { (result ≡ lent_answer (call w.old src.now c out.old).answer)
        × (w.new ≡ lent_state w.old (call w.old src.now c out.old).answer)
        × (out.new ≡ (call w.old src.now c out.old).left) }
{
    let p = step(*w, src, c, out);
    *w = p.state;
    p.answer
}
