// The declaration commands that have parts: texts, the timescale, scopes and variables.
#![tactic(auto, using(parser_part::proofs::Parts::parts))]

ghost use Rattle.std.specs.Prelude.{◌≡◌, length, drop};
ghost use Rattle.token.specs.Read.{Valid, text_from};
ghost use Rattle.command.specs.Meaning.{comment, date, version};
ghost use Rattle.parser_part.specs.Plan.{run, remark, timescale as timescale_plan, is_ascii as is_ascii_of, scaled, unit_in, scope as scope_plan, var_def, var_end, var};
ghost use Rattle.parser_part.specs.Parts.{trimmed_from, last_at};
ghost use Rattle.real.specs.Real.{digits_in};

use command::{Command, Refusal};
use scope::{ReferenceIndex, ScopeType, Var, VarType};
use text::Text;
use timescale::TimescaleUnit;
use token::{Cursor, Reading};

// A text up to `$end`, which must be UTF-8, without the White_Space round it.
#[tactic(auto, using(crate::proofs::Declarations::trimmed_inside))]
fn read_string_command(input: &[u8], c: Cursor) -> Reading<Text>
    requires { Valid input.now c }
    ensures { result ≡ trimmed_from input.now (text_from input.now c) }
{
    let (t, next) = token::read_text(input, c)?;
    let text = text::part(input, t);
    if !utf8::valid(text) {
        return Err((Refusal::InvalidUtf8, next));
    }
    let inner = white_space::trim(text);
    let start = t.start + inner.start;
    Ok((
        Text {
            start,
            len: inner.len,
        },
        next,
    ))
}

#[tactic(auto, using(parser_part::proofs::Parts::parts), unfolding(parser_part::specs::Plan::run))]
pub fn read_comment(input: &[u8], c: Cursor) -> Reading<Command>
    requires { Valid input.now c }
    ensures { result ≡ run (remark comment) input.now c }
{
    let (t, next) = read_string_command(input, c)?;
    Ok((Command::Comment(t), next))
}

#[tactic(auto, using(parser_part::proofs::Parts::parts), unfolding(parser_part::specs::Plan::run))]
pub fn read_date(input: &[u8], c: Cursor) -> Reading<Command>
    requires { Valid input.now c }
    ensures { result ≡ run (remark date) input.now c }
{
    let (t, next) = read_string_command(input, c)?;
    Ok((Command::Date(t), next))
}

#[tactic(auto, using(parser_part::proofs::Parts::parts), unfolding(parser_part::specs::Plan::run))]
pub fn read_version(input: &[u8], c: Cursor) -> Reading<Command>
    requires { Valid input.now c }
    ensures { result ≡ run (remark version) input.now c }
{
    let (t, next) = read_string_command(input, c)?;
    Ok((Command::Version(t), next))
}

// A quantity and a unit, as one token or as two.
pub fn read_timescale(input: &[u8], c: Cursor) -> Reading<Command>
    requires { Valid input.now c }
    ensures { result ≡ run timescale_plan input.now c }
{
    let (t, next) = parser_part::read_token_str(input, c, 8)?;
    let first = text::part(input, t);
    if !is_ascii(first) {
        return Err((Refusal::InvalidTimescaleUnit, next));
    }
    read_unit(input, next, first)
}

// The library's test, in the words of the plan.
fn is_ascii(s: &[u8]) -> bool
    ensures { result ≡ is_ascii_of s.now }
{
    s.is_ascii()
}

// The unit: after the digits of the first token, or a token of its own where there are only digits.
#[tactic(auto, using(crate::proofs::Declarations::units))]
fn read_unit(input: &[u8], c: Cursor, first: &[u8]) -> Reading<Command>
    requires { Valid input.now c }
    ensures { result ≡ run (unit_in (digits_in first.now) (drop (length (digits_in first.now)) first.now)) input.now c }
{
    let n = real::count_digits(first);
    if n < first.len() {
        return scale(input, c, &first[..n], &first[n..]);
    }
    let (t, next) = parser_part::read_token_str(input, c, 8)?;
    scale(input, next, first, text::part(input, t))
}

// Judges the quantity, the unit and the closing.
fn scale(input: &[u8], c: Cursor, quantity: &[u8], unit: &[u8]) -> Reading<Command>
    requires { Valid input.now c }
    ensures { result ≡ run (scaled quantity.now unit.now) input.now c }
{
    let n = number::parse_u32(quantity).ok_or((Refusal::ParseIntError, c))?;
    let u = TimescaleUnit::from_str(unit).ok_or((Refusal::InvalidTimescaleUnit, c))?;
    parser_part::read_command_end(input, c, Command::Timescale(n, u))
}

pub fn read_scope(input: &[u8], c: Cursor) -> Reading<Command>
    requires { Valid input.now c }
    ensures { result ≡ run scope_plan input.now c }
{
    let (t, next) = parser_part::read_token_str(input, c, 32)?;
    let kind = ScopeType::from_str(text::part(input, t));
    let k = kind.ok_or((Refusal::InvalidScopeType, next))?;
    let (name, next) = parser_part::read_name(input, next)?;
    parser_part::read_command_end(input, next, Command::ScopeDef(k, name))
}

pub fn read_var(input: &[u8], c: Cursor) -> Reading<Command>
    requires { Valid input.now c }
    ensures { result ≡ run var input.now c }
{
    let (t, next) = parser_part::read_token_str(input, c, 32)?;
    let kind = VarType::from_str(text::part(input, t));
    let k = kind.ok_or((Refusal::InvalidVarType, next))?;
    let (n, next) = parser_part::read_number(input, next, 4294967295)?;
    let (i, next) = parser_part::read_id(input, next)?;
    let (name, next) = parser_part::read_name(input, next)?;
    var_end(
        input,
        next,
        Var::new(k, n as u32, i, name, ReferenceIndex::None),
    )
}

// What stands after the name: an index and `$end`, or `$end`.
fn var_end(input: &[u8], c: Cursor, v: Var) -> Reading<Command>
    requires { Valid input.now c }
    ensures { result ≡ run (var_end v) input.now c }
{
    let (t, next) = parser_part::read_token_str(input, c, 32)?;
    let w = text::part(input, t);
    if !text::starts_with(w, b'[') {
        return last(next, var_command(v, ReferenceIndex::None), w);
    }
    let x = ReferenceIndex::from_str(w).ok_or((Refusal::InvalidReferenceIndex, next))?;
    let (t, next) = parser_part::read_token_str(input, next, 32)?;
    last(next, var_command(v, x), text::part(input, t))
}

fn var_command(v: Var, x: ReferenceIndex) -> Command
    ensures { result ≡ var_def v x }
{
    let k = v.var_type;
    let i = v.code;
    let t = v.reference;
    Command::VarDef(k, v.size, i, t, x)
}

// The last token of the command k must be `$end`.
fn last(c: Cursor, k: Command, w: &[u8]) -> Reading<Command>
    ensures { result ≡ last_at c k w.now }
{
    if !text::equals(w, &command::END) {
        return Err((Refusal::ExpectedEndCommand, c));
    }
    Ok((k, c))
}
