// What is decided of a label before anything is written: to go on, or document 01's refusal.
ghost use Rattle.std.specs.Prelude.{◌≡◌};
ghost use Rattle.interval_store_manager.specs.Calls.{decision_means};
ghost use Rattle.labels.specs.Decisions.{in_use, code_decided, room_decided, inc_decided, dec_decided};

use crate::classes::LARGEST_CODE;
use crate::entries::entry;
use interval_store_manager::IntervalStoreManager;
use terms::{LabelIndex, NONE, Refusal};

// Document 01: 'inc of a point or label count at 65,535'.
pub const LARGEST_COUNT: u16 = 65535;

// Kept: flag, capacity and counts are three parameters, here and in the readings: each caller would put a struct of them together for
// one call.
#[tactic(auto, unfolding(crate::specs::Decisions::in_use))]
pub fn label_in_use(
    store_labels: bool,
    capacity: usize,
    label_count: &[u16],
    label: LabelIndex,
) -> bool
    ensures { result ≡ in_use store_labels capacity label_count.now label.0 }
{
    let i = label.0;
    if store_labels {
        if i < capacity {
            return 0 < entry(label_count, i, 0);
        }
    }
    false
}

// Whether an add may carry this code.
#[tactic(auto, unfolding(crate::specs::Decisions::code_decided))]
pub fn code_decision(store_labels: bool, code: usize) -> Result<(), Refusal>
    ensures { decision_means result ≡ code_decided store_labels code }
{
    if store_labels {
        if LARGEST_CODE < code {
            return Err(Refusal::LabelCode);
        }
    }
    Ok(())
}

// Whether a kept add finds a label index.
#[tactic(auto, unfolding(crate::specs::Decisions::room_decided))]
pub fn room_decision(store_labels: bool, label_manager: IntervalStoreManager) -> Result<(), Refusal>
    ensures { decision_means result ≡ room_decided store_labels label_manager }
{
    if store_labels {
        if label_manager.last_in_use == 0 {
            return Err(Refusal::LabelsFull);
        }
    }
    Ok(())
}

#[tactic(auto, unfolding(crate::specs::Decisions::inc_decided))]
pub fn inc_decision(
    store_labels: bool,
    capacity: usize,
    label_count: &[u16],
    label: LabelIndex,
) -> Result<(), Refusal>
    ensures { decision_means result ≡ inc_decided store_labels capacity label_count.now label.0 }
{
    if store_labels {
        if label_in_use(store_labels, capacity, label_count, label) {
            if entry(label_count, label.0, 0) == LARGEST_COUNT {
                return Err(Refusal::CountFull);
            }
            return Ok(());
        }
        return Err(Refusal::LabelNotInUse);
    }
    Ok(())
}

#[tactic(auto, unfolding(crate::specs::Decisions::dec_decided))]
pub fn dec_decision(
    store_labels: bool,
    capacity: usize,
    label_count: &[u16],
    label: LabelIndex,
) -> Result<(), Refusal>
    ensures { decision_means result ≡ dec_decided store_labels capacity label_count.now label.0 }
{
    if store_labels {
        if label_in_use(store_labels, capacity, label_count, label) {
            return Ok(());
        }
        return Err(Refusal::LabelNotInUse);
    }
    if label.0 == NONE {
        return Ok(());
    }
    Err(Refusal::LabelNotInUse)
}
