// The check of a hold: of its record, of its store and of its list.
ghost use Rattle.std.specs.Prelude.{◌≡◌, true, cond, nat_le};
ghost use Rattle.hold_definitions.specs.Lent.{hold_lent};
ghost use Rattle.hold_definitions.specs.Memory.{point_hold};
ghost use Rattle.hold_check.specs.Checked.{hold_checked};
ghost use Rattle.hold_check.specs.CheckLaws.{record_holds};

use crate::list::list_well;
use crate::store::store_well;
use hold_definitions::{Hold, width_allowed};
use store_check::Figures;
use store_definitions::Tables;
use terms::FloatBits;

// With labels off the table of label indices is not looked at.
fn labels_enough(store_labels: bool, capacity: usize, labels: usize) -> bool
    ensures { result ≡ cond store_labels (nat_le capacity labels) true }
{
    if store_labels {
        return capacity <= labels;
    }
    true
}

// The width, the lengths of the two tables, and how many entries are in use.
#[tactic(auto, unfolding(crate::specs::CheckLaws::record_holds))]
fn record_holds(
    width: usize,
    held: usize,
    capacity: usize,
    store_labels: bool,
    indices: usize,
    labels: usize,
) -> bool
    ensures { result ≡ record_holds width held capacity store_labels indices labels }
{
    let labelled = labels_enough(store_labels, capacity, labels);
    width_allowed(width, capacity) & (((capacity <= indices) & labelled) & (held <= width))
}

// What is counted of the store of a hold that is well-formed.
#[tactic(auto, using(crate::specs::Checked::record_ill, crate::proofs::HoldLaws::found_ill, crate::proofs::HoldLaws::found_by_list))]
pub fn check_hold(
    h: Hold,
    store: &[FloatBits],
    last_known_shingle: &[FloatBits],
    tables: Tables,
    held_indices: &[u16],
    held_labels: &[u16],
) -> Option<Figures>
    ensures { result ≡ hold_checked (point_hold h (hold_lent store.now last_known_shingle.now tables.entry held_indices.now held_labels.now)) }
{
    let s = h.store;
    if !record_holds(
        h.width,
        h.held,
        s.capacity,
        s.store_labels,
        held_indices.len(),
        held_labels.len(),
    ) {
        return None;
    }
    let list = &held_indices[..h.held];
    let found = store_well(s, store.len(), last_known_shingle.len(), tables, list)?;
    let well = list_well(
        found.listed,
        found.figures.live,
        s.capacity,
        s.store_labels,
        &tables.reference_count[..s.index_manager.capacity],
        tables.label_tables.label_count,
        list,
        held_labels,
    );
    well.then_some(found.figures)
}
