// The text of recorded calls: numbers in decimal, each followed by one byte, a call to a line. The programs that replay
// recorded answers of the Rust read it with these, and tally with these which calls agreed.
#![tactic(auto)]

ghost use Rattle.std.specs.Prelude.{◌≡◌};
ghost use Rattle.recorded_text.specs.Numbers.{number_at, numeral};

mod call;
mod tally;

pub use call::{NO_CALL, UnknownCall};
pub use tally::{Agreement, Tally};

// A number and where the next one starts.
#[derive(Clone, Copy)]
pub struct Numeral {
    pub value: usize,
    pub next: usize,
}

// A digit is taken while what stands before it is no more than this.
const MOST: usize = 999_999_999;

// The number whose first digit stands at `at`, and the place past the byte that follows its last digit.
pub fn number_at(text: &[u8], at: usize) -> Numeral
    ensures { result ≡ number_at text.now at }
{
    let mut value: usize = 0;
    let start = at.min(text.len());
    for (i, b) in text[start..].iter().enumerate() {
        if !b.is_ascii_digit() || MOST < value {
            return Numeral {
                value,
                next: start + i + 1,
            };
        }
        value = value * 10 + (*b - b'0') as usize;
    }
    Numeral {
        value,
        next: at.max(text.len()),
    }
}

// The number that stands at `at`, which then is where the next one starts.
pub fn next_number(text: &[u8], at: &mut usize) -> usize
    ensures { numeral result at.new ≡ number_at text.now at.old }
{
    let numeral = number_at(text, *at);
    *at = numeral.next;
    numeral.value
}

// How many lines end in the text.
pub fn count_lines(text: &[u8]) -> usize {
    let mut lines = 0;
    // Kept: vector code, where a count of the bytes that pass a test is not.
    for i in 0..text.len() {
        lines += (text[i] == b'\n') as usize;
    }
    lines
}
