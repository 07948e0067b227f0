// The parts of commands: tokens that must be UTF-8, numbers, ids, and the closing `$end`.
#![tactic(auto)]

pub mod word;

ghost use Rattle.std.specs.Prelude.{◌≡◌, ◌+◌};
ghost use Rattle.token.specs.Read.{Valid, most, unlimited};
ghost use Rattle.parser_part.specs.Plan.{run, closing};
ghost use Rattle.parser_part.specs.Parts.{word_from, number_from, id_from};

use command::{Command, Refusal};
use idcode::IdCode;
use text::Text;
use token::{Cursor, Reading};
use value::Value;

// What a command's first byte chooses.
#[derive(Clone, Copy)]
pub enum Kind {
    Dollar,
    Hash,
    Scalar(Value),
    Vector,
    Real,
    Text,
    Other,
}

// A token of at most `limit` bytes that must be UTF-8.
#[tactic(auto, unfolding(crate::specs::Parts::word_from))]
pub fn read_token_str(input: &[u8], c: Cursor, limit: usize) -> Reading<Text>
    requires { Valid input.now c }
    ensures { result ≡ word_from input.now c (most limit) }
{
    let (t, next) = token::read_token(input, c, limit)?;
    if !utf8::valid(text::part(input, t)) {
        return Err((Refusal::InvalidUtf8, next));
    }
    Ok((t, next))
}

// A name or a string: a token without a limit.
#[tactic(auto, using(crate::proofs::Parts::word_unlimited))]
pub fn read_name(input: &[u8], c: Cursor) -> Reading<Text>
    requires { Valid input.now c }
    ensures { result ≡ word_from input.now c unlimited }
{
    read_token_str(input, c, text::LIMIT)
}

// A number of at most `largest`.
#[tactic(auto, unfolding(crate::specs::Parts::number_from))]
pub fn read_number(input: &[u8], c: Cursor, largest: u64) -> Reading<u64>
    requires { Valid input.now c }
    ensures { result ≡ number_from input.now c (largest + 1) }
{
    let (t, next) = read_token_str(input, c, 32)?;
    let n = number::parse_most(text::part(input, t), largest);
    let v = n.ok_or((Refusal::ParseIntError, next))?;
    Ok((v, next))
}

#[tactic(auto, unfolding(crate::specs::Parts::id_from))]
pub fn read_id(input: &[u8], c: Cursor) -> Reading<IdCode>
    requires { Valid input.now c }
    ensures { result ≡ id_from input.now c }
{
    let (t, next) = read_token_str(input, c, 32)?;
    match IdCode::from_str(text::part(input, t)) {
        Ok(i) => Ok((i, next)),
        Err(e) => Err((Refusal::from(e), next)),
    }
}

// The closing `$end` of the command k.
#[tactic(auto, unfolding(crate::specs::Plan::run))]
pub fn read_command_end(input: &[u8], c: Cursor, k: Command) -> Reading<Command>
    requires { Valid input.now c }
    ensures { result ≡ run (closing k) input.now c }
{
    let (t, next) = token::read_token(input, c, 8)?;
    if !text::is_word(input, t, &command::END) {
        return Err((Refusal::ExpectedEndCommand, next));
    }
    Ok((k, next))
}
