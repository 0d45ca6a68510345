// Well-formedness of the label half in one linear pass. The managers mark their free indices; each label adds its count to
// the sum of its slot; each slot's count is held against its sum, and the class of each live slot is seen once.
#![tactic(auto)]

ghost use Rattle.std.specs.Prelude.{◌≡◌};
ghost use Rattle.labels.specs.Labels.{tables_lent};
ghost use Rattle.labels.specs.Lent.{labels_lent};
ghost use Rattle.label_check.specs.Checked.{half_checked, labels_checked};

mod label_pass;
mod slot_pass;

use interval_store_manager::mark_free;
use label_pass::labels_pass;
use labels::{LabelManagers, LabelTables, LabelsFree};
use slot_pass::slots_pass;

#[tactic(auto, unfolding(labels::specs::Labels::tables_lent))]
fn tables_lent(capacity: usize, tables: LabelTables) -> bool
    ensures { result ≡ tables_lent capacity tables.entry.labels.now tables.entry.label_attributes.now tables.entry.label_count.now tables.entry.attributes.now tables.entry.attribute_count.now }
{
    capacity <= tables.labels.len()
        && capacity <= tables.label_attributes.len()
        && capacity <= tables.label_count.len()
        && capacity <= tables.attributes.len()
        && capacity <= tables.attribute_count.len()
}

// The label half with labels on.
fn label_half_well_formed(
    classes: &[u8; 24],
    capacity: usize,
    managers: LabelManagers,
    tables: LabelTables,
) -> Option<LabelsFree>
    ensures { result ≡ half_checked classes.now capacity (labels_lent managers tables.entry) }
{
    if managers.label_manager.capacity != capacity {
        return None;
    }
    if managers.attribute_manager.capacity != capacity {
        return None;
    }
    if !tables_lent(capacity, tables) {
        return None;
    }
    let mut label_marks = [0u8; 1024];
    let labels = mark_free(
        managers.label_manager,
        tables.label_starts,
        tables.label_ends,
        &mut label_marks,
    )?;
    let mut slot_marks = [0u8; 1024];
    let slots = mark_free(
        managers.attribute_manager,
        tables.attribute_starts,
        tables.attribute_ends,
        &mut slot_marks,
    )?;
    let mut sums = [0u32; 1024];
    if !labels_pass(classes, capacity, tables, &label_marks, &mut sums) {
        return None;
    }
    if !slots_pass(capacity, slots, tables, &slot_marks, &sums) {
        return None;
    }
    Some(LabelsFree { labels, slots })
}

// How many label indices and slots are free, where the label half is well-formed; with labels off nothing of it is looked at.
pub fn labels_well_formed(
    store_labels: bool,
    classes: &[u8; 24],
    capacity: usize,
    managers: LabelManagers,
    tables: LabelTables,
) -> Option<LabelsFree>
    ensures { result ≡ labels_checked store_labels classes.now capacity (labels_lent managers tables.entry) }
{
    if store_labels {
        return label_half_well_formed(classes, capacity, managers, tables);
    }
    Some(LabelsFree {
        labels: 0,
        slots: 0,
    })
}
