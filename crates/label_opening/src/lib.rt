// Opening the label half: the first entries of each table made 0, and the managers as new makes them.
#![tactic(auto)]

ghost use Rattle.std.specs.Prelude.{◌≡◌};
ghost use Rattle.labels.specs.Opening.{labels_opened};
ghost use Rattle.label_opening.specs.OpeningLaws.{LabelsOpenable};
ghost use Rattle.labels.specs.Lent.{SameWriting, labels_writing};

use interval_store_manager::IntervalStoreManager;
use labels::{LabelManagers, LabelWriting};

// The label half of a fresh store.
pub fn open_labels(capacity: usize, labels: &mut LabelWriting) -> LabelManagers
    requires { LabelsOpenable capacity labels.old.labels.now labels.old.label_attributes.now labels.old.label_count.now labels.old.label_starts.now labels.old.label_ends.now labels.old.attributes.now labels.old.attribute_count.now labels.old.attribute_starts.now labels.old.attribute_ends.now }
    ensures same { SameWriting labels.old labels.new }
    ensures opened { labels_writing result labels.new ≡ labels_opened capacity (labels_writing result labels.old) }
{
    let codes = &mut *labels.labels;
    codes[..capacity].fill(0);
    let slots = &mut *labels.label_attributes;
    slots[..capacity].fill(0);
    let counts = &mut *labels.label_count;
    counts[..capacity].fill(0);
    let label_manager = IntervalStoreManager::new_unchecked(
        capacity,
        labels.label_starts,
        labels.label_ends,
    );
    let classes = &mut *labels.attributes;
    classes[..capacity].fill(0);
    let slot_counts = &mut *labels.attribute_count;
    slot_counts[..capacity].fill(0);
    let attribute_manager = IntervalStoreManager::new_unchecked(
        capacity,
        labels.attribute_starts,
        labels.attribute_ends,
    );
    LabelManagers {
        label_manager,
        attribute_manager,
    }
}
