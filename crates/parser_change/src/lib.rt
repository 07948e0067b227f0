// Timestamps and changes of value. The hot ones try the fast path first, and leave a miss to the slow path.
#![tactic(auto, using(parser_part::proofs::Parts::parts))]

ghost use Rattle.std.specs.Prelude.{◌≡◌, ◌^◌};
ghost use Rattle.token.specs.Read.{Valid, values, token};
ghost use Rattle.parser_part.specs.Parts.{number_from, id_from};
ghost use Rattle.parser_part.specs.Plan.{run, timestamp, scalar, vector, real, string};

use command::{Command, Refusal, Time};
use idcode::IdCode;
use parser_part::word;
use text::Text;
use token::{Cursor, Reading};
use value::Value;

pub fn parse_timestamp(input: &[u8], c: Cursor) -> Reading<Command>
    requires { Valid input.now c }
    ensures { result ≡ run timestamp input.now c }
{
    let (v, next) = change_time(input, c)?;
    Ok((Command::Timestamp(Time(v)), next))
}

// The time after `#`.
fn change_time(input: &[u8], c: Cursor) -> Reading<u64>
    requires { Valid input.now c }
    ensures { result ≡ number_from input.now c (2 ^ 64) }
{
    let Some((v, end)) = word::fast_number(input, c.place) else {
        return parser_part::read_number(input, c, 18446744073709551615);
    };
    let next = token::word_read(c, end, input[end]);
    Ok((v, next))
}

// The id of a change. Put into its callers, as most changes pass here and a call answers through memory.
#[inline(always)]
fn change_id(input: &[u8], c: Cursor) -> Reading<IdCode>
    requires { Valid input.now c }
    ensures { result ≡ id_from input.now c }
{
    let Some((i, end)) = word::fast_id(input, c.place) else {
        return parser_part::read_id(input, c);
    };
    let next = token::word_read(c, end, input[end]);
    Ok((IdCode(i), next))
}

pub fn parse_scalar(input: &[u8], c: Cursor, v: Value) -> Reading<Command>
    requires { Valid input.now c }
    ensures { result ≡ run (scalar v) input.now c }
{
    let (i, next) = change_id(input, c)?;
    Ok((Command::ChangeScalar(i, v), next))
}

pub fn parse_vector(input: &[u8], c: Cursor) -> Reading<Command>
    requires { Valid input.now c }
    ensures { result ≡ run vector input.now c }
{
    let (t, next) = vector_values(input, c)?;
    let (i, next) = change_id(input, next)?;
    Ok((Command::ChangeVector(i, t), next))
}

// The values of a vector. Where they stand at the cursor, as they mostly do, one pass is enough.
fn vector_values(input: &[u8], c: Cursor) -> Reading<Text>
    requires { Valid input.now c }
    ensures { result ≡ token input.now c values }
{
    let start = c.place;
    let end = token::values_end(input, start);
    if word::ends_values(input, start, end) {
        let next = token::word_read(c, end, input[end]);
        return Ok((
            Text {
                start,
                len: end - start,
            },
            next,
        ));
    }
    token::read_values(input, c)
}

pub fn parse_real(input: &[u8], c: Cursor) -> Reading<Command>
    requires { Valid input.now c }
    ensures { result ≡ run real input.now c }
{
    let (t, next) = parser_part::read_token_str(input, c, 32)?;
    if !real::is_real(text::part(input, t)) {
        return Err((Refusal::ParseFloatError, next));
    }
    let (i, next) = parser_part::read_id(input, next)?;
    Ok((Command::ChangeReal(i, t), next))
}

pub fn parse_string(input: &[u8], c: Cursor) -> Reading<Command>
    requires { Valid input.now c }
    ensures { result ≡ run string input.now c }
{
    let (t, next) = parser_part::read_name(input, c)?;
    let (i, next) = parser_part::read_id(input, next)?;
    Ok((Command::ChangeString(i, t), next))
}
