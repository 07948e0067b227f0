// Units of time for the `$timescale` command (timescale.rs of vcd 0.7.0).
#![tactic(auto)]

ghost use Rattle.std.specs.Prelude.{◌≡◌};
ghost use Rattle.text.specs.Bytes.{bytes};
ghost use Rattle.text.specs.Texts.{spelled};
ghost use Rattle.timescale.specs.Ieee.{unit_name, per_second};
ghost use Rattle.timescale.specs.Units.{parse_unit, seconds};
ghost use Rattle.timescale.specs.Numbers.{unit_number, unit_of};

use text::Spelled;

// The names, compared in reading and written by `spell`.
const SECOND: [u8; 1] = *b"s";

const MILLI: [u8; 2] = *b"ms";

const MICRO: [u8; 2] = *b"us";

const NANO: [u8; 2] = *b"ns";

const PICO: [u8; 2] = *b"ps";

const FEMTO: [u8; 2] = *b"fs";

#[derive(Clone, Copy)]
pub enum TimescaleUnit {
    S,
    MS,
    US,
    NS,
    PS,
    FS,
}

impl TimescaleUnit {
    #[tactic(auto, using(text::proofs::Names::hit, text::proofs::Names::miss, text::proofs::Names::ended), unfolding(crate::specs::Units::parse_unit))]
    pub fn from_str(s: &[u8]) -> Option<TimescaleUnit>
        ensures { result ≡ parse_unit s.now }
    {
        if text::equals(s, &SECOND) {
            return Some(TimescaleUnit::S);
        }
        if text::equals(s, &MILLI) {
            return Some(TimescaleUnit::MS);
        }
        if text::equals(s, &MICRO) {
            return Some(TimescaleUnit::US);
        }
        if text::equals(s, &NANO) {
            return Some(TimescaleUnit::NS);
        }
        if text::equals(s, &PICO) {
            return Some(TimescaleUnit::PS);
        }
        if text::equals(s, &FEMTO) {
            return Some(TimescaleUnit::FS);
        }
        None
    }

    pub fn spell(self) -> Spelled
        ensures { result ≡ spelled (bytes (unit_name self)) }
    {
        match self {
            TimescaleUnit::S => text::spell(&SECOND),
            TimescaleUnit::MS => text::spell(&MILLI),
            TimescaleUnit::US => text::spell(&MICRO),
            TimescaleUnit::NS => text::spell(&NANO),
            TimescaleUnit::PS => text::spell(&PICO),
            TimescaleUnit::FS => text::spell(&FEMTO),
        }
    }

    // The number of timescale ticks per second.
    pub fn divisor(self) -> u64
        ensures { result ≡ per_second self }
    {
        match self {
            TimescaleUnit::S => 1,
            TimescaleUnit::MS => 1_000,
            TimescaleUnit::US => 1_000_000,
            TimescaleUnit::NS => 1_000_000_000,
            TimescaleUnit::PS => 1_000_000_000_000,
            TimescaleUnit::FS => 1_000_000_000_000_000,
        }
    }

    // The duration of a timescale tick in seconds.
    pub fn fraction(self) -> f64
        ensures { result ≡ seconds self }
    {
        1.0 / (self.divisor() as f64)
    }

    // The unit's place in the order above, from 0.
    pub fn number(self) -> u64
        ensures { result ≡ unit_number self }
    {
        self as u64
    }

    // The unit of a number; numbers past the last mean the last.
    #[tactic(auto, unfolding(crate::specs::Numbers::unit_of))]
    pub fn from_number(n: u64) -> TimescaleUnit
        ensures { result ≡ unit_of n }
    {
        match n {
            0 => TimescaleUnit::S,
            1 => TimescaleUnit::MS,
            2 => TimescaleUnit::US,
            3 => TimescaleUnit::NS,
            4 => TimescaleUnit::PS,
            _ => TimescaleUnit::FS,
        }
    }
}
