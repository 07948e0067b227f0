// The writer of value change dumps (write.rs of vcd 0.7.0): each call writes one command from the start of the lent output, and
// answers how many bytes it wrote with the next state, or why it refused. A refused command changes no byte and no state.
#![tactic(auto)]

ghost use Rattle.std.specs.Prelude.{◌≡◌, [], ◌∷◌, ◌<◌};
ghost use Rattle.command.specs.Words.{end_mark};
ghost use Rattle.text.specs.Bytes.{bytes};
ghost use Rattle.text.specs.Texts.{part, outside};
ghost use Rattle.write_check.specs.Check.{is_remark};
ghost use Rattle.write.specs.Call.{call, outcome, written, new_var, Does, Adds};
ghost use Rattle.write.specs.Layout.{fresh, raised as raised_id};
ghost use Rattle.emit.specs.Put.{concat};

use command::{Command, Refusal, SimulationCommand, Time};
use idcode::IdCode;
use scope::{ReferenceIndex, ScopeType, Var, VarType};
use text::Text;
use timescale::TimescaleUnit;
use value::Value;

// The state, carried from call to call.
#[derive(Clone, Copy)]
pub struct Writer {
    // how many scopes are open
    pub depth: u64,
    // the id that `add_var` gives next
    pub id: IdCode,
    // the open simulation command
    pub sim: Option<SimulationCommand>,
}

pub type Written = Result<(usize, Writer), Refusal>;

// What was written, with the id that was given.
pub type Added = Result<(usize, Writer, IdCode), Refusal>;

// No id: the largest number has no text.
const NO_ID: u64 = 0xffff_ffff_ffff_ffff;

// The next id after a variable: past it, where it is not below.
#[tactic(auto, using(crate::proofs::Ids::compared), unfolding(crate::specs::Layout::raised))]
fn raised(i: u64, n: u64) -> u64
    requires { i < 18446744073709551615 }
    ensures { result ≡ raised_id i n }
{
    if n <= i {
        return i + 1;
    }
    n
}

#[tactic(auto, using(crate::proofs::Outcomes::outcomes), unfolding(crate::specs::Call::call, crate::specs::Call::outcome, crate::specs::Layout::state_after, crate::specs::Layout::layout))]
impl Writer {
    // Nothing is open, and the first id comes next.
    pub fn new() -> Writer
        ensures { result ≡ fresh }
    {
        Writer {
            depth: 0,
            id: IdCode::FIRST,
            sim: None,
        }
    }

    // The answer where only the room was in question.
    fn laid(self, p: Option<usize>) -> Written
        ensures { result ≡ written self p }
    {
        let n = p.ok_or(Refusal::NoRoom)?;
        Ok((n, self))
    }

    // Writes a `$comment` command.
    pub fn comment(self, src: &[u8], t: Text, out: &mut [u8]) -> Written
        ensures { Does result out.new (call self src.now (Command.Comment t) out.old) }
    {
        self.remark(src, &command::COMMENT, t, out)
    }

    // Writes a `$date` command.
    pub fn date(self, src: &[u8], t: Text, out: &mut [u8]) -> Written
        ensures { Does result out.new (call self src.now (Command.Date t) out.old) }
    {
        self.remark(src, &command::DATE, t, out)
    }

    // Writes a `$version` command.
    pub fn version(self, src: &[u8], t: Text, out: &mut [u8]) -> Written
        ensures { Does result out.new (call self src.now (Command.Version t) out.old) }
    {
        self.remark(src, &command::VERSION, t, out)
    }

    // Writes a comment, a date or a version: the text has a line of its own.
    fn remark(self, src: &[u8], word: &[u8], t: Text, out: &mut [u8]) -> Written
        ensures { Does result out.new (outcome (outside src.now t) (is_remark (part src.now t)) self (concat (bytes "$" ∷ word.now ∷ bytes "\n    " ∷ part src.now t ∷ bytes "\n" ∷ end_mark ∷ bytes "\n" ∷ [])) out.old) }
    {
        if text::outside(src, t) {
            return Err(Refusal::BadPlace);
        }
        let v = text::part(src, t);
        if !write_check::is_remark(v) {
            return Err(Refusal::NotWritable);
        }
        self.laid(emit::emit_closed(word, b"\n    ", v, b"", b"", b'\n', out))
    }

    // Writes a `$timescale` command.
    pub fn timescale(self, ts: u32, unit: TimescaleUnit, out: &mut [u8]) -> Written
        ensures { Does result out.new (call self [] (Command.Timescale ts unit) out.old) }
    {
        if 99999999 < ts {
            return Err(Refusal::NotWritable);
        }
        let digits = number::decimal(ts as u64);
        let name = unit.spell();
        self.laid(emit::emit_closed(
            &command::TIMESCALE,
            b" ",
            digits.as_bytes(),
            b" ",
            name.as_bytes(),
            b' ',
            out,
        ))
    }

    // Writes a `$scope` command.
    pub fn scope_def(self, src: &[u8], t: ScopeType, i: Text, out: &mut [u8]) -> Written
        ensures { Does result out.new (call self src.now (Command.ScopeDef t i) out.old) }
    {
        if text::outside(src, i) {
            return Err(Refusal::BadPlace);
        }
        let v = text::part(src, i);
        if !write_check::is_name(v) {
            return Err(Refusal::NotWritable);
        }
        let depth = self.depth;
        if 64 <= depth {
            return Err(Refusal::NotWritable);
        }
        let name = t.spell();
        let w = Writer {
            depth: depth + 1,
            ..self
        };
        w.laid(emit::emit_closed(&command::SCOPE, b" ", name.as_bytes(), b" ", v, b' ', out))
    }

    // Writes a `$scope` command for a module.
    pub fn add_module(self, src: &[u8], identifier: Text, out: &mut [u8]) -> Written
        ensures { Does result out.new (call self src.now (Command.ScopeDef ScopeType.Module identifier) out.old) }
    {
        self.scope_def(src, ScopeType::Module, identifier, out)
    }

    // Writes an `$upscope` command.
    pub fn upscope(self, out: &mut [u8]) -> Written
        ensures { Does result out.new (call self [] Command.Upscope out.old) }
    {
        let depth = self.depth;
        if depth == 0 {
            return Err(Refusal::NotWritable);
        }
        let w = Writer {
            depth: depth - 1,
            ..self
        };
        w.laid(emit::emit_bare(&command::UPSCOPE, out))
    }

    // Writes a `$var` command with a specified id.
    pub fn var_def(
        self,
        src: &[u8],
        var_type: VarType,
        width: u32,
        id: IdCode,
        reference: Text,
        index: ReferenceIndex,
        out: &mut [u8],
    ) -> Written
        ensures { Does result out.new (call self src.now (Command.VarDef var_type width id reference index) out.old) }
    {
        if text::outside(src, reference) {
            return Err(Refusal::BadPlace);
        }
        let code = id.0;
        if code == NO_ID {
            return Err(Refusal::NotWritable);
        }
        let v = text::part(src, reference);
        if !write_check::is_name(v) {
            return Err(Refusal::NotWritable);
        }
        if self.depth == 0 {
            return Err(Refusal::NotWritable);
        }
        let last = self.id;
        let w = Writer {
            id: IdCode(raised(code, last.0)),
            ..self
        };
        w.laid(emit_var::emit_var(var_type, width, id, v, index, out))
    }

    // Writes a `$var` command with the next available id, and answers it.
    pub fn add_var(
        self,
        src: &[u8],
        var_type: VarType,
        width: u32,
        reference: Text,
        index: ReferenceIndex,
        out: &mut [u8],
    ) -> Added
        ensures { Adds self.id result out.new (call self src.now (new_var self var_type width reference index) out.old) }
    {
        let id = self.id;
        let (n, w) = self.var_def(src, var_type, width, id, reference, index, out)?;
        Ok((n, w, id))
    }

    // Adds a `$var` for a wire with the next available id, and answers it.
    pub fn add_wire(self, src: &[u8], width: u32, reference: Text, out: &mut [u8]) -> Added
        ensures { Adds self.id result out.new (call self src.now (new_var self VarType.Wire width reference ReferenceIndex.None) out.old) }
    {
        self.add_var(
            src,
            VarType::Wire,
            width,
            reference,
            ReferenceIndex::None,
            out,
        )
    }

    // Writes a `$var` command from a `Var`.
    pub fn var(self, src: &[u8], v: Var, out: &mut [u8]) -> Written
        ensures { Does result out.new (call self src.now (Command.VarDef v.var_type v.size v.code v.reference v.index) out.old) }
    {
        let var_type = v.var_type;
        let code = v.code;
        let reference = v.reference;
        let index = v.index;
        self.var_def(src, var_type, v.size, code, reference, index, out)
    }

    // Writes a `$enddefinitions` command to end the header.
    pub fn enddefinitions(self, out: &mut [u8]) -> Written
        ensures { Does result out.new (call self [] Command.Enddefinitions out.old) }
    {
        if 0 < self.depth {
            return Err(Refusal::NotWritable);
        }
        self.laid(emit::emit_bare(&command::ENDDEFINITIONS, out))
    }

    // Writes a `#xxx` timestamp.
    pub fn timestamp(self, ts: Time, out: &mut [u8]) -> Written
        ensures { Does result out.new (call self [] (Command.Timestamp ts) out.old) }
    {
        self.laid(emit::emit_time(ts.0, out))
    }

    // Writes a change to a scalar variable.
    pub fn change_scalar(self, id: IdCode, v: Value, out: &mut [u8]) -> Written
        ensures { Does result out.new (call self [] (Command.ChangeScalar id v) out.old) }
    {
        if id.0 == NO_ID {
            return Err(Refusal::NotWritable);
        }
        self.laid(emit::emit_scalar(v.byte(), id, out))
    }

    // Writes a change to a vector variable.
    pub fn change_vector(self, src: &[u8], id: IdCode, v: Text, out: &mut [u8]) -> Written
        ensures { Does result out.new (call self src.now (Command.ChangeVector id v) out.old) }
    {
        if text::outside(src, v) {
            return Err(Refusal::BadPlace);
        }
        if id.0 == NO_ID {
            return Err(Refusal::NotWritable);
        }
        let values = text::part(src, v);
        if !write_check::is_vector(values) {
            return Err(Refusal::NotWritable);
        }
        self.laid(emit::emit_vector(values, id, out))
    }

    // Writes a change to a real variable, whose text is kept.
    pub fn change_real(self, src: &[u8], id: IdCode, v: Text, out: &mut [u8]) -> Written
        ensures { Does result out.new (call self src.now (Command.ChangeReal id v) out.old) }
    {
        if text::outside(src, v) {
            return Err(Refusal::BadPlace);
        }
        if id.0 == NO_ID {
            return Err(Refusal::NotWritable);
        }
        let number = text::part(src, v);
        if !write_check::is_real(number) {
            return Err(Refusal::NotWritable);
        }
        self.laid(emit::emit_text(b'r', number, id, out))
    }

    // Writes a change to a string variable.
    pub fn change_string(self, src: &[u8], id: IdCode, v: Text, out: &mut [u8]) -> Written
        ensures { Does result out.new (call self src.now (Command.ChangeString id v) out.old) }
    {
        if text::outside(src, v) {
            return Err(Refusal::BadPlace);
        }
        if id.0 == NO_ID {
            return Err(Refusal::NotWritable);
        }
        let string = text::part(src, v);
        if !write_check::is_name(string) {
            return Err(Refusal::NotWritable);
        }
        self.laid(emit::emit_text(b's', string, id, out))
    }

    // Writes the beginning of a simulation command.
    pub fn begin(self, c: SimulationCommand, out: &mut [u8]) -> Written
        ensures { Does result out.new (call self [] (Command.Begin c) out.old) }
    {
        let name = c.spell();
        let w = Writer {
            sim: Some(c),
            ..self
        };
        w.laid(emit::emit(b"$", name.as_bytes(), b"\n", b"", b"", out))
    }

    // Writes an `$end` to end the simulation command `c`, which must be the open one.
    pub fn end(self, c: SimulationCommand, out: &mut [u8]) -> Written
        ensures { Does result out.new (call self [] (Command.End c) out.old) }
    {
        if self.sim != Some(c) {
            return Err(Refusal::NotWritable);
        }
        let w = Writer { sim: None, ..self };
        w.laid(emit::emit(&command::END, b"\n", b"", b"", b"", out))
    }

    // Writes a command as read by the parser.
    #[tactic(auto, using(crate::proofs::Outcomes::any_command))]
    pub fn command(self, src: &[u8], c: Command, out: &mut [u8]) -> Written
        ensures { Does result out.new (call self src.now c out.old) }
    {
        if text::LIMIT < src.len() {
            return Err(Refusal::BadPlace);
        }
        match c {
            Command::Comment(t) => self.comment(src, t, out),
            Command::Date(t) => self.date(src, t, out),
            Command::Version(t) => self.version(src, t, out),
            Command::Timescale(n, u) => self.timescale(n, u, out),
            Command::ScopeDef(t, i) => self.scope_def(src, t, i, out),
            Command::Upscope => self.upscope(out),
            Command::VarDef(t, n, i, r, x) => self.var_def(src, t, n, i, r, x, out),
            Command::Enddefinitions => self.enddefinitions(out),
            Command::Timestamp(t) => self.timestamp(t, out),
            Command::ChangeScalar(i, v) => self.change_scalar(i, v, out),
            Command::ChangeVector(i, v) => self.change_vector(src, i, v, out),
            Command::ChangeReal(i, v) => self.change_real(src, i, v, out),
            Command::ChangeString(i, v) => self.change_string(src, i, v, out),
            Command::Begin(k) => self.begin(k, out),
            Command::End(k) => self.end(k, out),
        }
    }
}
