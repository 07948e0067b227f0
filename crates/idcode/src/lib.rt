// Id codes: the short texts by which a dump names its variables (idcode.rs of vcd 0.7.0).
#![tactic(auto)]

ghost use Rattle.std.specs.Prelude.{◌≡◌, length};
ghost use Rattle.text.specs.Texts.{spelled, put_answer, put_bytes};
ghost use Rattle.idcode.specs.Id.{parse_id, id_text, following};

use text::Spelled;

#[derive(Clone, Copy)]
pub enum InvalidIdCode {
    Empty,
    InvalidChars,
    TooLong,
}

// An id used within the file to refer to a particular variable.
#[derive(Clone, Copy, PartialEq, Eq)]
pub struct IdCode(pub u64);

impl IdCode {
    // An arbitrary code with a short text.
    pub const FIRST: IdCode = IdCode(0);

    // The code that a text means. It is read from the last byte; a bad byte is judged before the step's overflow.
    pub fn from_str(s: &[u8]) -> Result<IdCode, InvalidIdCode>
        ensures { result ≡ parse_id s.now }
    {
        if s.is_empty() {
            return Err(InvalidIdCode::Empty);
        }
        let mut sum: u64 = 0;
        for &b in s.iter().rev() {
            if b < b'!' || b'~' < b {
                return Err(InvalidIdCode::InvalidChars);
            }
            let c = (b - 32) as u64;
            if (u64::MAX - c) / 94 < sum {
                return Err(InvalidIdCode::TooLong);
            }
            sum = sum * 94 + c;
        }
        Ok(IdCode(sum - 1))
    }

    // The code after this one.
    #[tactic(auto, unfolding(crate::specs::Id::following))]
    pub fn next(self) -> Option<IdCode>
        ensures { result ≡ following self.0 }
    {
        let code = self.0.checked_add(1)?;
        Some(IdCode(code))
    }

    // The text of a code. The largest u64 has one too, which `from_str` refuses as too long. Here and below the number that is left
    // drives the loop, and there is no list to go over.
    pub fn spell(self) -> Spelled
        ensures { result ≡ spelled (id_text self.0) }
    {
        let mut bytes = [0u8; 32];
        let mut rest = self.0;
        let mut n: usize = 0;
        loop {
            bytes[n] = 33 + (rest % 94) as u8;
            n += 1;
            if rest < 94 {
                break;
            }
            rest = rest / 94 - 1;
        }
        Spelled { bytes, len: n }
    }

    // How many bytes the text of a code has.
    pub fn len(self) -> usize
        ensures { result ≡ length (id_text self.0) }
    {
        let mut rest = self.0;
        let mut n: usize = 1;
        while 94 <= rest {
            rest = rest / 94 - 1;
            n += 1;
        }
        n
    }

    // The text of a code, put at the start of `out`.
    pub fn put(self, out: &mut [u8]) -> Option<usize>
        ensures { (result ≡ put_answer (id_text self.0) out.old) × (out.new ≡ put_bytes (id_text self.0) out.old) }
    {
        // No text of a code has more than ten bytes.
        if out.len() < 10 && out.len() < self.len() {
            return None;
        }
        let mut rest = self.0;
        let mut n: usize = 0;
        loop {
            let more = rest / 94;
            out[n] = 33 + (rest - 94 * more) as u8;
            n += 1;
            if more == 0 {
                return Some(n);
            }
            rest = more - 1;
        }
    }
}

impl From<u32> for IdCode {
    ghost from_gives = { λ i r. r ≡ record { 0 = i } };

    fn from(i: u32) -> IdCode {
        IdCode(i as u64)
    }
}

impl From<u64> for IdCode {
    ghost from_gives = { λ i r. r ≡ record { 0 = i } };

    fn from(i: u64) -> IdCode {
        IdCode(i)
    }
}
