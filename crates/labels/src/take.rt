// Taking a label, for callers that have checked: the slot of the class if live, else one from its manager; then a label
// index.
ghost use Rattle.std.specs.Prelude.{◌≡◌, ◌≤◌, length};
ghost use Rattle.labels.specs.Counted.{counted};
ghost use Rattle.labels.specs.Labels.{live_slot, slot_taken, label_taken};
ghost use Rattle.labels.specs.Forms.{SlotReady, LabelReady, slot_outcome, label_outcome};
ghost use Rattle.labels.specs.Lent.{labels_taking, SameTaking};

use crate::classes::class_of;
use crate::to_take::LabelTaking;
use crate::{LabelManagers, LabelsFree};
use interval_store_manager::IntervalStoreManager;
use terms::LabelIndex;

// The live slot that holds the class.
// Kept: the capacity stands beside the tables, as the definition searches the first entries of two lent lists.
fn class_slot(
    capacity: usize,
    attributes: &[u8],
    attribute_count: &[u32],
    class: u8,
) -> Option<usize>
    requires { (capacity ≤ length attributes.now) × (capacity ≤ length attribute_count.now) }
    ensures { result ≡ live_slot capacity attributes.now attribute_count.now class }
{
    attributes[..capacity]
        .iter()
        .zip(&attribute_count[..capacity])
        .position(|(held, count)| 0 < *count && *held == class)
}

// A slot for the class, with one count more.
fn take_slot(
    capacity: usize,
    manager: &mut IntervalStoreManager,
    attributes: &mut [u8],
    attribute_count: &mut [u32],
    attribute_starts: &mut [u16],
    attribute_ends: &[u16],
    class: u8,
    free: usize,
) -> usize
    requires { SlotReady capacity attributes.old (counted manager.old attribute_count.old attribute_starts.old attribute_ends.now) free }
    ensures { slot_outcome result attributes.new (counted manager.new attribute_count.new attribute_starts.new attribute_ends.now) ≡ slot_taken capacity attributes.old (counted manager.old attribute_count.old attribute_starts.old attribute_ends.now) class }
{
    if let Some(live) = class_slot(capacity, attributes, attribute_count, class) {
        attribute_count[live] += 1;
        return live;
    }
    let given = manager.get_unchecked(attribute_starts, attribute_ends, free);
    let slot = given.index;
    attributes[slot] = class;
    attribute_count[slot] = 1;
    slot
}

// A label index for the code, with its slot.
pub fn take_label(
    classes: &[u8; 24],
    capacity: usize,
    managers: &mut LabelManagers,
    tables: &mut LabelTaking,
    code: usize,
    free: LabelsFree,
) -> LabelIndex
    requires { LabelReady classes.now capacity (labels_taking managers.old tables.old) code free }
    ensures same { SameTaking tables.old tables.new }
    ensures taken { label_outcome result (labels_taking managers.new tables.new) ≡ label_taken classes.now capacity (labels_taking managers.old tables.old) code }
{
    let class = class_of(classes, code);
    let slot = take_slot(
        capacity,
        &mut managers.attribute_manager,
        tables.attributes,
        tables.attribute_count,
        tables.attribute_starts,
        tables.attribute_ends,
        class,
        free.slots,
    );
    let given = managers
        .label_manager
        .get_unchecked(tables.label_starts, tables.label_ends, free.labels);
    let index = given.index;
    tables.labels[index] = code as u8;
    tables.label_attributes[index] = slot as u16;
    tables.label_count[index] = 1;
    LabelIndex(index)
}
