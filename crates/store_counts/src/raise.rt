// One count more of a point and, with labels on, of its label and the label's slot.
ghost use Rattle.std.specs.Prelude.{true, cond, ◌≡◌, get_or};
ghost use Rattle.store_definitions.specs.Answers.{outcome, done_means};
ghost use Rattle.store_definitions.specs.Counting.{inc_test, inc_spec};
ghost use Rattle.labels.specs.Forms.{one_more};
ghost use Rattle.labels.specs.Lent.{SameRaising};
ghost use Rattle.store_definitions.specs.Lent.{SameRaised, lent_raising};
ghost use Rattle.store_definitions.specs.Memory.{point_store};
ghost use Rattle.store_definitions.specs.WellFormed.{well_formed};
ghost use Rattle.store_check.specs.Tables.{tables_raising};
ghost use Rattle.store_counts.specs.Tables.{Raisable};

use crate::decide::inc_test;
use labels::{LabelRaising, inc_label};
use store_check::check;
use store_definitions::{Change, PointRaising, Store};
use terms::{FloatBits, Refusal};

// One count more, for callers that have checked the store and the call: of all that is lent, what it reads and writes.
pub fn inc_accepted(
    store_labels: bool,
    reference_count: &mut [u16],
    label_attributes: &[u16],
    label_count: &mut [u16],
    attribute_count: &mut [u32],
    change: Change,
)
    requires { Raisable store_labels reference_count.old label_attributes.now label_count.old attribute_count.old change.index.0 change.label.0 }
    ensures points { reference_count.new ≡ one_more reference_count.old change.index.0 }
    ensures labels { label_count.new ≡ cond store_labels (one_more label_count.old change.label.0) label_count.old }
    ensures slots { attribute_count.new ≡ cond store_labels (one_more attribute_count.old (get_or label_attributes.now change.label.0 0)) attribute_count.old }
{
    reference_count[change.index.0] += 1;
    if store_labels {
        inc_label(label_attributes, label_count, attribute_count, change.label);
    }
}

// The same for callers that have checked the store.
pub fn inc_unchecked(
    s: Store,
    floats: usize,
    window: usize,
    points: &mut PointRaising,
    labels: &mut LabelRaising,
    change: Change,
) -> Result<(), Refusal>
    requires { well_formed (point_store s (tables_raising floats window points.old labels.old)) ≡ true }
    ensures same { SameRaised points.old points.new × SameRaising labels.old labels.new }
    ensures inc { outcome (done_means result) (point_store s (tables_raising floats window points.new labels.new)) ≡ inc_spec (point_store s (tables_raising floats window points.old labels.old)) change.index.0 change.label.0 }
{
    let counts = &mut *points.reference_count;
    let label_counts = &mut *labels.label_count;
    inc_test(s, counts, label_counts, change)?;
    inc_accepted(
        s.store_labels,
        points.reference_count,
        labels.label_attributes,
        labels.label_count,
        labels.attribute_count,
        change,
    );
    Ok(())
}

pub fn inc(
    s: Store,
    store: &[FloatBits],
    last_known_shingle: &[FloatBits],
    points: &mut PointRaising,
    labels: &mut LabelRaising,
    change: Change,
) -> Result<(), Refusal>
    ensures same { SameRaised points.old points.new × SameRaising labels.old labels.new }
    ensures inc { outcome (done_means result) (point_store s (lent_raising store.now last_known_shingle.now points.new labels.new)) ≡ inc_spec (point_store s (lent_raising store.now last_known_shingle.now points.old labels.old)) change.index.0 change.label.0 }
{
    check(
        s,
        store.len(),
        last_known_shingle.len(),
        points.read(labels.read()),
    )
    .ok_or(Refusal::IllFormed)?;
    inc_unchecked(
        s,
        store.len(),
        last_known_shingle.len(),
        points,
        labels,
        change,
    )
}
