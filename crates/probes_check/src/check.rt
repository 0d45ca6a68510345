// The check of a product.
ghost use Rattle.std.specs.Prelude.{◌≡◌, ◌<◌, length};
ghost use Rattle.probes_definitions.specs.Memory.{point_probes};
ghost use Rattle.probes_definitions.specs.WellFormed.{eight_probes, tallies_within};
ghost use Rattle.probes_check.specs.Checked.{probes_checked};
ghost use Rattle.store_definitions.specs.Lent.{lent};

use probes_definitions::Probes;
use store_check::{Figures, check};
use store_definitions::Tables;
use terms::FloatBits;

// Base 8 and internal shingling.
#[tactic(auto, unfolding(probes_definitions::specs::WellFormed::eight_probes))]
pub fn eight_probes(dimensions: usize, shingle_size: usize, internal_shingling: bool) -> bool
    requires { 0 < shingle_size }
    ensures { result ≡ eight_probes dimensions shingle_size internal_shingling }
{
    (dimensions / shingle_size == 8) & internal_shingling
}

// In the logic an array is a list, so that there are eight is said beside.
fn tallies_within(sequence: u32, tallies: [u32; 8]) -> bool
    ensures { (result ≡ tallies_within sequence tallies) × (length tallies ≡ 8) }
{
    tallies.iter().all(|tally| *tally <= sequence)
}

// What is counted of the store of a product that is well-formed.
#[tactic(auto, using(crate::specs::Checked::lent_ill, crate::specs::Checked::lent_tests))]
pub fn check_probes(
    p: Probes,
    store: &[FloatBits],
    last_known_shingle: &[FloatBits],
    tables: Tables,
) -> Option<Figures>
    ensures { result ≡ probes_checked (point_probes p (lent store.now last_known_shingle.now tables.entry)) }
{
    let s = p.store;
    let figures = check(s, store.len(), last_known_shingle.len(), tables)?;
    let eight = eight_probes(s.dimensions, s.shingle_size, s.internal_shingling);
    let within = tallies_within(s.next_sequence_index, p.tallies);
    (eight & within).then_some(figures)
}
