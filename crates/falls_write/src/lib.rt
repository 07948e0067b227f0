// The writer's contracts once more, each over its call: wrong programs are edits of these.
#![tactic(auto)]

ghost use Rattle.write.specs.Call.{call, Does};

use command::Command;
use write::{Writer, Written};

pub fn command(w: Writer, src: &[u8], c: Command, out: &mut [u8]) -> Written
    ensures { Does result out.new (call w src.now c out.old) }
{
    w.command(src, c, out)
}
