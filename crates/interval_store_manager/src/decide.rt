// What is decided of change and release before anything is written: to go on, or document 01's refusal.
ghost use Rattle.std.specs.Prelude.{◌≡◌};
ghost use Rattle.interval_store_manager.specs.Calls.{decision_means, change_decided, release_decided};

use crate::IntervalStoreManager;
use crate::check::{lent_enough, mark_free, well_formed};
use terms::Refusal;

#[tactic(auto, unfolding(crate::specs::Calls::change_decided))]
pub fn change_decision(
    m: IntervalStoreManager,
    starts: &[u16],
    ends: &[u16],
    new_capacity: usize,
) -> Result<(), Refusal>
    ensures { decision_means result ≡ change_decided m starts.now ends.now new_capacity }
{
    if IntervalStoreManager::LARGEST_CAPACITY < new_capacity {
        return Err(Refusal::ManagerCapacity);
    }
    well_formed(m, starts, ends).ok_or(Refusal::IllFormed)?;
    if lent_enough(new_capacity, starts, ends) {
        return Ok(());
    }
    Err(Refusal::IllFormed)
}

#[tactic(auto, unfolding(crate::specs::Calls::release_decided))]
pub fn release_decision(
    m: IntervalStoreManager,
    starts: &[u16],
    ends: &[u16],
    index: usize,
) -> Result<(), Refusal>
    ensures { decision_means result ≡ release_decided m starts.now ends.now index }
{
    let mut marks = [0u8; 1024];
    mark_free(m, starts, ends, &mut marks[..]).ok_or(Refusal::IllFormed)?;
    if m.capacity <= index {
        return Err(Refusal::NotReleasable);
    }
    if marks[index] == 1 {
        return Err(Refusal::NotReleasable);
    }
    Ok(())
}
