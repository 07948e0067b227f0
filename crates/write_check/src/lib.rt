// What refusal 22 asks of texts: remarks, names, reals and vectors that may be written.
#![tactic(auto)]

ghost use Rattle.std.specs.Prelude.{◌≡◌, true, map};
ghost use Rattle.text.specs.Bytes.{no_blank};
ghost use Rattle.utf8.specs.Utf8.{valid_utf8};
ghost use Rattle.value.specs.Values.{lower};
ghost use Rattle.write_check.specs.Check.{is_name as is_name_text, is_remark as is_remark_text, is_short_real, is_vector as is_vector_text};

fn no_blank(s: &[u8]) -> bool
    ensures { result ≡ no_blank s.now }
{
    s.iter().all(|&b| !text::whitespace_byte(b))
}

// A string, a reference, a scope's name.
#[tactic(auto, using(crate::proofs::Checks::names))]
pub fn is_name(s: &[u8]) -> bool
    ensures { result ≡ is_name_text s.now }
{
    !s.is_empty() && (is_plain(s) || (no_blank(s) && utf8::valid(s)))
}

// Whether each byte is printable ASCII, as in nearly all names: looked at eight a turn, which the compiler makes one step, some of the last
// eight twice.
fn is_plain(s: &[u8]) -> bool
    ensures { result ≡ true → (no_blank s.now ≡ true) × (valid_utf8 s.now ≡ true) }
{
    if s.len() < 8 {
        return is_plain_few(s);
    }
    let last = s.len() - 8;
    let mut i = 0;
    while i < last {
        if !text::plain_eight(s, i) {
            return false;
        }
        i += 8;
    }
    text::plain_eight(s, last)
}

// Whether each byte of a short text is printable ASCII, looked at one a turn.
fn is_plain_few(s: &[u8]) -> bool
    ensures { result ≡ true → (no_blank s.now ≡ true) × (valid_utf8 s.now ≡ true) }
{
    s.iter().all(|b| b.is_ascii_graphic())
}

// The text of a comment, a date, a version.
#[tactic(auto, using(crate::proofs::Checks::remarks))]
pub fn is_remark(s: &[u8]) -> bool
    ensures { result ≡ is_remark_text s.now }
{
    if !utf8::valid(s) {
        return false;
    }
    let t = white_space::trim(s);
    t.start == 0 && t.len == s.len() && matches!(command::find_end(s), None)
}

// A real that may be written has at most 32 bytes.
#[tactic(auto, using(crate::proofs::Checks::reals))]
pub fn is_real(s: &[u8]) -> bool
    ensures { result ≡ is_short_real s.now }
{
    s.len() <= 32 && real::is_real(s)
}

// A vector that may be written has at least one value.
#[tactic(auto, using(crate::proofs::Checks::vectors))]
pub fn is_vector(s: &[u8]) -> bool
    ensures { result ≡ is_vector_text (map lower s.now) }
{
    !s.is_empty() && value::vector::is_vector(s)
}
