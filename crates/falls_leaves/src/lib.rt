// The contracts of texts and numbers once more, each over its call: wrong programs are edits of these.
#![tactic(auto)]

ghost use Rattle.std.specs.Prelude.{◌≡◌, ◌^◌};
ghost use Rattle.text.specs.Bytes.{is_blank};
ghost use Rattle.text.specs.Texts.{put_answer, put_bytes};
ghost use Rattle.utf8.specs.Utf8.{valid_utf8};
ghost use Rattle.white_space.specs.WhiteSpace.{trimmed};
ghost use Rattle.number.specs.Decimal.{parse_below, narrow};
ghost use Rattle.real.specs.Real.{is_real};

use text::Text;

pub fn whitespace_byte(b: u8) -> bool
    ensures { result ≡ is_blank b }
{
    text::whitespace_byte(b)
}

pub fn put_text(s: &[u8], out: &mut [u8]) -> Option<usize>
    ensures { (result ≡ put_answer s.now out.old) × (out.new ≡ put_bytes s.now out.old) }
{
    text::put_text(s, out)
}

pub fn valid(s: &[u8]) -> bool
    ensures { result ≡ valid_utf8 s.now }
{
    utf8::valid(s)
}

pub fn trim(s: &[u8]) -> Text
    ensures { result ≡ trimmed s.now }
{
    white_space::trim(s)
}

pub fn parse_u32(s: &[u8]) -> Option<u32>
    ensures { result ≡ narrow (parse_below (2 ^ 32) s.now) }
{
    number::parse_u32(s)
}

pub fn is_real(s: &[u8]) -> bool
    ensures { result ≡ is_real s.now }
{
    real::is_real(s)
}
