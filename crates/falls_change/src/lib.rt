// The writer's contracts once more, each over its call: wrong programs are edits of these.
#![tactic(auto)]

ghost use Rattle.std.specs.Prelude.{[]};
ghost use Rattle.write.specs.Call.{call, Does};

use command::{Command, SimulationCommand, Time};
use idcode::IdCode;
use text::Text;
use value::Value;
use write::{Writer, Written};

pub fn timestamp(w: Writer, ts: Time, out: &mut [u8]) -> Written
    ensures { Does result out.new (call w [] (Command.Timestamp ts) out.old) }
{
    w.timestamp(ts, out)
}

pub fn change_scalar(w: Writer, id: IdCode, v: Value, out: &mut [u8]) -> Written
    ensures { Does result out.new (call w [] (Command.ChangeScalar id v) out.old) }
{
    w.change_scalar(id, v, out)
}

pub fn change_vector(w: Writer, src: &[u8], id: IdCode, v: Text, out: &mut [u8]) -> Written
    ensures { Does result out.new (call w src.now (Command.ChangeVector id v) out.old) }
{
    w.change_vector(src, id, v, out)
}

pub fn begin(w: Writer, c: SimulationCommand, out: &mut [u8]) -> Written
    ensures { Does result out.new (call w [] (Command.Begin c) out.old) }
{
    w.begin(c, out)
}
