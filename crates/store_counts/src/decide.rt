// What is decided of an inc or a dec before anything is written, in a well-formed store: to go on, or document 01's refusal.
ghost use Rattle.std.specs.Prelude.{[], ◌≡◌, eqb, get_or};
ghost use Rattle.interval_store_manager.specs.Calls.{decision_means};
ghost use Rattle.store_definitions.specs.Counting.{inc_test, dec_test};
ghost use Rattle.store_definitions.specs.Decisions.{live, refuse_if};
ghost use Rattle.store_definitions.specs.Memory.{point_store};
ghost use Rattle.store_counts.specs.Tables.{counts_alone};

use labels::{LARGEST_COUNT, entry};
use store_definitions::{Change, Store};
use terms::{PointIndex, Refusal};

#[tactic(auto, using(crate::specs::TestLaws::in_use_below, crate::specs::TestLaws::in_use_beyond))]
pub fn point_in_use(s: Store, reference_count: &[u16], index: PointIndex) -> bool
    ensures { result ≡ live (point_store s (counts_alone reference_count.now [])) index.0 }
{
    (index.0 < s.index_manager.capacity) && (0 < entry(reference_count, index.0, 0))
}

#[tactic(auto, using(crate::specs::TestLaws::inc_counted, crate::specs::TestLaws::inc_label_refused, crate::specs::TestLaws::inc_dead))]
pub fn inc_test(
    s: Store,
    reference_count: &[u16],
    label_count: &[u16],
    change: Change,
) -> Result<(), Refusal>
    ensures { decision_means result ≡ inc_test (point_store s (counts_alone reference_count.now label_count.now)) change.index.0 change.label.0 }
{
    if !point_in_use(s, reference_count, change.index) {
        return Err(Refusal::PointNotInUse);
    }
    labels::inc_decision(s.store_labels, s.capacity, label_count, change.label)?;
    room_to_count(reference_count, change.index)
}

// Whether a point's count may rise.
fn room_to_count(reference_count: &[u16], index: PointIndex) -> Result<(), Refusal>
    ensures { decision_means result ≡ refuse_if (eqb (get_or reference_count.now index.0 0) 65535) 7 }
{
    if entry(reference_count, index.0, 0) == LARGEST_COUNT {
        return Err(Refusal::CountFull);
    }
    Ok(())
}

#[tactic(auto, using(crate::specs::TestLaws::dec_labelled, crate::specs::TestLaws::dec_dead))]
pub fn dec_test(
    s: Store,
    reference_count: &[u16],
    label_count: &[u16],
    change: Change,
) -> Result<(), Refusal>
    ensures { decision_means result ≡ dec_test (point_store s (counts_alone reference_count.now label_count.now)) change.index.0 change.label.0 }
{
    if !point_in_use(s, reference_count, change.index) {
        return Err(Refusal::PointNotInUse);
    }
    labels::dec_decision(s.store_labels, s.capacity, label_count, change.label)
}
