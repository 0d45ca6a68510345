// A hold's record as a lent slice of words: its store's, then its width and how many points are held.
ghost use Rattle.std.specs.Prelude.{◌≡◌, ◌≤◌, length};
ghost use Rattle.point_store_c.specs.HoldRecords.{tail_out, hold_out, hold_in, hold_recorded};

use crate::record::{record_write, store_in, store_out};
use hold_definitions::Hold;
use hold_opening::no_hold;

pub const HOLD_WORDS: usize = 41;

// The hold that a record holds; one too short is read as the record of zeros, which every call refuses as ill-formed.
// Kept: an Option would give three calls a second way to refuse, beside the one for the store in it that is none.
#[tactic(auto, unfolding(crate::specs::HoldRecords::hold_in))]
pub fn hold_in(words: &[u64]) -> Hold
    ensures { result ≡ hold_in words.now }
{
    if words.len() < HOLD_WORDS {
        return no_hold();
    }
    let store = store_in(words);
    let width = words[39] as usize;
    let held = words[40] as usize;
    Hold { store, width, held }
}

// The two words after the store's.
#[tactic(auto, unfolding(crate::specs::HoldRecords::tail_out))]
fn tail_write(words: &mut [u64], width: usize, held: usize)
    requires { 41 ≤ length words.old }
    ensures { words.new ≡ tail_out words.old width held }
{
    words[39] = width as u64;
    words[40] = held as u64;
}

#[tactic(auto, unfolding(crate::specs::HoldRecords::hold_out))]
pub fn hold_write(words: &mut [u64], h: Hold)
    requires { 41 ≤ length words.old }
    ensures { words.new ≡ hold_out words.old h }
{
    let s = h.store;
    record_write(words, s);
    tail_write(words, h.width, h.held);
}

// A record that is too short is left as it was, and so are the words of a store in it that is none.
#[tactic(auto, unfolding(crate::specs::HoldRecords::hold_recorded))]
pub fn hold_out(words: &mut [u64], h: Hold)
    ensures { words.new ≡ hold_recorded words.old h }
{
    if HOLD_WORDS <= words.len() {
        let s = h.store;
        store_out(words, s);
        tail_write(words, h.width, h.held);
    }
}
