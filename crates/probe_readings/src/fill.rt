// A set as it is stored: the words, with the window's last ones for what is absent.
ghost use Rattle.std.specs.Prelude.{◌≡◌, ◌-◌, ◌≤◌, length, take, drop};
ghost use Rattle.probes_definitions.specs.Readings.{stored, filled, of_kind, of_kinds};

use super::ABSENT;
use terms::FloatBits;

fn word_stored(kind: u8, word: FloatBits, last: FloatBits) -> FloatBits
    ensures { result ≡ stored (of_kind kind word) last }
{
    if kind < ABSENT { word } else { last }
}

#[tactic(auto, using(crate::specs::Entries::written_all, probes_definitions::specs::ReadingLaws::filled_length, probes_definitions::specs::ReadingLaws::kinds_length))]
fn fill(last: &[FloatBits], kinds: &[u8; 8], words: &[FloatBits; 8]) -> [FloatBits; 8]
    requires { length last.now ≡ 8 }
    ensures { result ≡ filled (of_kinds kinds.now words.now) last.now }
{
    let mut set = [0u32; 8];
    for k in 0..8 {
        set[k] = word_stored(kinds[k], words[k], last[k]);
    }
    set
}

// The last floats are the window's last eight.
pub fn filled_words(
    dimensions: usize,
    window: &[FloatBits],
    kinds: &[u8; 8],
    words: &[FloatBits; 8],
) -> [FloatBits; 8]
    requires { (8 ≤ dimensions) × (dimensions ≤ length window.now) }
    ensures { result ≡ filled (of_kinds kinds.now words.now) (drop (dimensions - 8) (take dimensions window.now)) }
{
    let from = dimensions - 8;
    fill(&window[from..dimensions], kinds, words)
}
