// Readings as kinds and words.
ghost use Rattle.std.specs.Prelude.{◌≡◌, length};
ghost use Rattle.probe_readings.specs.Kinds.{kind_of, word_in, kinds_of, words_of};

use super::{ABSENT, ESTIMATED, MEASURED};
use float_bits::word_of_float;
use probes_definitions::Reading;
use terms::FloatBits;

// As the C interface writes it.
// Kept: `u8::from(reading)` would not say that the number is the kind.
fn kind_of(reading: Reading) -> u8
    ensures { result ≡ kind_of reading }
{
    match reading {
        Reading::Measured(_) => MEASURED,
        Reading::Estimated(_) => ESTIMATED,
        Reading::Absent => ABSENT,
    }
}

// A NaN has the one word that stands for it, an absent reading that of 0.0, which is not looked at.
// Kept: `u32::from(reading)` would not say that the number is the float's word.
fn word_in(reading: Reading) -> FloatBits
    ensures { result ≡ word_in reading }
{
    match reading {
        Reading::Measured(x) => word_of_float(x),
        Reading::Estimated(x) => word_of_float(x),
        Reading::Absent => 0,
    }
}

// In the logic an array is a list, so that there are eight is said beside.
pub fn kinds_of(set: [Reading; 8]) -> [u8; 8]
    ensures { (result ≡ kinds_of set) × (length set ≡ 8) }
{
    set.map(kind_of)
}

pub fn words_of(set: [Reading; 8]) -> [FloatBits; 8]
    ensures { result ≡ words_of set }
{
    set.map(word_in)
}
