// One count more or less of a label and of its slot, for callers that have checked. At 0 the index is released; code, slot
// and class are left standing.
ghost use Rattle.std.specs.Prelude.{◌≡◌, get_or};
ghost use Rattle.interval_store_manager.specs.Answers.{done, outcome};
ghost use Rattle.labels.specs.Counted.{released_at_one};
ghost use Rattle.labels.specs.Labels.{label_lowered};
ghost use Rattle.labels.specs.Forms.{LabelRaisable, LiveLabel, Releasable, one_more};
ghost use Rattle.labels.specs.Lent.{SameLowering, labels_lowering};

use crate::LabelManagers;
use crate::to_lower::LabelLowering;
use interval_store_manager::IntervalStoreManager;
use terms::LabelIndex;

pub fn inc_label(
    label_attributes: &[u16],
    label_count: &mut [u16],
    attribute_count: &mut [u32],
    label: LabelIndex,
)
    requires { LabelRaisable label_attributes.now label_count.old attribute_count.old label.0 }
    ensures labels { label_count.new ≡ one_more label_count.old label.0 }
    ensures slots { attribute_count.new ≡ one_more attribute_count.old (get_or label_attributes.now label.0 0) }
{
    let i = label.0;
    let slot = label_attributes[i] as usize;
    label_count[i] += 1;
    attribute_count[slot] += 1;
}

// Releases an index whose count was 1 before it was lowered.
#[tactic(auto, unfolding(crate::specs::Counted::released_at_one))]
fn release_at_one(
    manager: &mut IntervalStoreManager,
    starts: &mut [u16],
    ends: &mut [u16],
    i: usize,
    count: u32,
)
    requires { Releasable manager.old starts.old ends.old i }
    ensures { outcome done manager.new starts.new ends.new ≡ released_at_one manager.old starts.old ends.old i count }
{
    if count == 1 {
        manager.release_unchecked(starts, ends, i);
    }
}

pub fn dec_label(
    classes: &[u8; 24],
    capacity: usize,
    managers: &mut LabelManagers,
    tables: &mut LabelLowering,
    label: LabelIndex,
)
    requires { LiveLabel classes.now capacity (labels_lowering managers.old tables.old) label.0 }
    ensures same { SameLowering tables.old tables.new }
    ensures lowered { labels_lowering managers.new tables.new ≡ label_lowered (labels_lowering managers.old tables.old) label.0 }
{
    let i = label.0;
    let slot = tables.label_attributes[i] as usize;
    let count = tables.label_count[i];
    tables.label_count[i] = count - 1;
    release_at_one(
        &mut managers.label_manager,
        tables.label_starts,
        tables.label_ends,
        i,
        count as u32,
    );
    let labelled = tables.attribute_count[slot];
    tables.attribute_count[slot] = labelled - 1;
    release_at_one(
        &mut managers.attribute_manager,
        tables.attribute_starts,
        tables.attribute_ends,
        slot,
        labelled,
    );
}
