// A vector at a stated width: in lower case, filled with 0 at its left.
#![tactic(auto)]

ghost use Rattle.std.specs.Prelude.{◌≡◌};
ghost use Rattle.widen.specs.Widen.{is_widenable, missing as missing_of, widen_answer, widen_bytes};

use command::Refusal;
use text::Text;
use value::Value;

// Longer vectors, and widths above 1,024, get no fill.
pub fn widen(input: &[u8], t: Text, width: u32, out: &mut [u8]) -> Result<usize, Refusal>
    ensures { (result ≡ widen_answer input.now t width out.old) × (out.new ≡ widen_bytes input.now t width out.old) }
{
    if text::outside(input, t) {
        return Err(Refusal::BadPlace);
    }
    let v = text::part(input, t);
    if !is_widenable(v) {
        return Err(Refusal::InvalidValueChar);
    }
    let fill = missing(width, v.len());
    if out.len() < fill {
        return Err(Refusal::NoRoom);
    }
    if out.len() - fill < v.len() {
        return Err(Refusal::NoRoom);
    }
    value::vector::zeros(fill, out);
    value::vector::write_lower(v, &mut out[fill..]);
    Ok(fill + v.len())
}

fn is_widenable(v: &[u8]) -> bool
    ensures { result ≡ is_widenable v.now }
{
    if v.len() == 0 {
        return false;
    }
    value::vector::is_vector(v)
}

// How many zeros a vector of n values lacks at a width; none at a width above 1,024.
pub fn missing(width: u32, n: usize) -> usize
    ensures { result ≡ missing_of width n }
{
    if 1024 < width {
        return 0;
    }
    let w = width as usize;
    if w < n {
        return 0;
    }
    w - n
}
