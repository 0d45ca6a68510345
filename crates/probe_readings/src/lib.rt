// A set of eight readings: as kinds and words, filled and tallied, and as floats turned into those. What takes a slice of
// the window is for callers that have looked at its length.
#![tactic(auto)]

mod convert;
mod decide;
mod fill;
mod tally;

pub use convert::{kinds_of, words_of};
pub use decide::set_decision;
pub use fill::filled_words;
pub use tally::{tallied, tallies_after};

// The kinds, of which Absent is the greatest.
// Kept: a kind is a byte, since the C interface lends eight of them, and one may be no kind at all: an enum would be a second pass.
const MEASURED: u8 = 0;

const ESTIMATED: u8 = 1;

const ABSENT: u8 = 2;
