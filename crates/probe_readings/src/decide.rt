// What is decided of a set of kinds and words before the store's add.
ghost use Rattle.std.specs.Prelude.{◌≡◌};
ghost use Rattle.interval_store_manager.specs.Calls.{decision_means};
ghost use Rattle.probes_definitions.specs.Readings.{any_above};
ghost use Rattle.probe_readings.specs.Deciding.{set_asked};

use super::{ABSENT, ESTIMATED};
use terms::Refusal;

fn any_above(limit: u8, kinds: &[u8]) -> bool
    ensures { result ≡ any_above limit kinds.now }
{
    kinds.iter().any(|kind| limit < *kind)
}

// Eight kinds and eight words, else 3; then 11; then 16.
#[tactic(auto, using(crate::specs::Deciding::kinds_short, crate::specs::Deciding::words_short, crate::specs::Deciding::kind_unknown, crate::specs::Deciding::none_earlier, crate::specs::Deciding::none_absent, crate::specs::Deciding::some_earlier))]
pub fn set_decision(sequence: u32, kinds: &[u8], words: usize) -> Result<(), Refusal>
    ensures { decision_means result ≡ set_asked sequence kinds.now words }
{
    if kinds.len() != 8 {
        return Err(Refusal::Length);
    }
    if words != 8 {
        return Err(Refusal::Length);
    }
    if any_above(ABSENT, kinds) {
        return Err(Refusal::ValueTooLarge);
    }
    if sequence == 0 {
        if any_above(ESTIMATED, kinds) {
            return Err(Refusal::NoEarlierReading);
        }
    }
    Ok(())
}
