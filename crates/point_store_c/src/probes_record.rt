// A product's record as a lent slice of words: its store's, then its eight tallies.
ghost use Rattle.std.specs.Prelude.{true, ◌≡◌, ◌≤◌, length};
ghost use Rattle.point_store_c.specs.ProbesRecords.{legal_tallies, legal_probes, tallies_read, tallies_out, probes_out, probes_in, probes_recorded};

use crate::record::{record_write, store_in, store_out};
use probes_definitions::Probes;
use probes_opening::no_probes;

pub const PROBES_WORDS: usize = 47;
// From here on one word a tally.
const TALLY_WORDS: usize = 39;

// A tally has 32 bits.
const TALLY_END: u64 = 0x1_0000_0000;

fn tallies_legal(words: &[u64]) -> bool
    requires { 47 ≤ length words.now }
    ensures { result ≡ legal_tallies words.now }
{
    words[TALLY_WORDS..PROBES_WORDS]
        .iter()
        .all(|word| *word < TALLY_END)
}

// Whether the record has its words and each tally its 32 bits.
#[tactic(auto, unfolding(crate::specs::ProbesRecords::legal_probes))]
fn probes_legal(words: &[u64]) -> bool
    ensures { result ≡ legal_probes words.now }
{
    if words.len() < PROBES_WORDS {
        return false;
    }
    tallies_legal(words)
}

// Of a legal record.
fn tallies_read(words: &[u64]) -> [u32; 8]
    requires { (47 ≤ length words.now) × (legal_tallies words.now ≡ true) }
    ensures { result ≡ tallies_read words.now }
{
    let mut tallies = [0u32; 8];
    // Kept: beside the loop of `class_words`, since one for both would take the cast as a closure.
    for i in 0..8 {
        tallies[i] = words[TALLY_WORDS + i] as u32;
    }
    tallies
}

// The product that a record holds; an illegal one is read as the record of zeros, which every call refuses as ill-formed.
// Kept: an Option would give two calls a second way to refuse, beside the one for the store in it that is none.
#[tactic(auto, using(crate::proofs::ProbesRecordLaws::legal), unfolding(crate::specs::ProbesRecords::probes_in))]
pub fn probes_in(words: &[u64]) -> Probes
    ensures { result ≡ probes_in words.now }
{
    if probes_legal(words) {
        let store = store_in(words);
        let tallies = tallies_read(words);
        return Probes { store, tallies };
    }
    no_probes()
}

// The eight words after the store's.
fn tallies_write(words: &mut [u64], tallies: [u32; 8])
    requires { 47 ≤ length words.old }
    ensures { words.new ≡ tallies_out words.old tallies }
{
    // Kept: beside the loop of `class_words`, since one for both would take the cast as a closure.
    for i in 0..8 {
        words[TALLY_WORDS + i] = tallies[i] as u64;
    }
}

#[tactic(auto, unfolding(crate::specs::ProbesRecords::probes_out))]
pub fn probes_write(words: &mut [u64], p: Probes)
    requires { 47 ≤ length words.old }
    ensures { words.new ≡ probes_out words.old p }
{
    let s = p.store;
    record_write(words, s);
    let tallies = p.tallies;
    tallies_write(words, tallies);
}

// An illegal record is left as it was, and so are the words of a store in it that is none.
#[tactic(auto, using(crate::proofs::ProbesRecordLaws::legal), unfolding(crate::specs::ProbesRecords::probes_recorded))]
pub fn probes_out(words: &mut [u64], p: Probes)
    ensures { words.new ≡ probes_recorded words.old p }
{
    if probes_legal(words) {
        let s = p.store;
        store_out(words, s);
        let tallies = p.tallies;
        tallies_write(words, tallies);
    }
}
