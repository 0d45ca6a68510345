// One count less of a point and, with labels on, of its label and the label's slot.
ghost use Rattle.std.specs.Prelude.{true, ◌≡◌, ◌<◌, length};
ghost use Rattle.interval_store_manager.specs.Calls.{go};
ghost use Rattle.labels.specs.Counted.{lowered};
ghost use Rattle.labels.specs.Forms.{InUse};
ghost use Rattle.store_definitions.specs.Answers.{outcome, done_means};
ghost use Rattle.store_definitions.specs.Counting.{dec_test, decremented, dec_spec};
ghost use Rattle.labels.specs.Lent.{SameLowering};
ghost use Rattle.store_definitions.specs.Lent.{SamePoints, lent_lowering, point_counts, points_lent};
ghost use Rattle.store_definitions.specs.Memory.{point_store};
ghost use Rattle.store_definitions.specs.WellFormed.{well_formed};
ghost use Rattle.store_check.specs.Tables.{tables_lowering};
ghost use Rattle.store_counts.specs.Tables.{emptied};

use crate::decide::dec_test;
use interval_store_manager::IntervalStoreManager;
use labels::{LabelLowering, LabelManagers, dec_label};
use store_check::check;
use store_definitions::{Change, PointTables, Store};
use terms::{EMPTY_PLACE, FloatBits, PointIndex, Refusal};

// One count less of a point; at 0 its index is released and its place emptied.
fn lower_point(manager: &mut IntervalStoreManager, points: &mut PointTables, index: PointIndex)
    requires { (InUse manager.old.capacity (point_counts manager.old (points_lent points.old)) index.0) × (index.0 < length points.old.location.now) }
    ensures same { SamePoints points.old points.new }
    ensures counts { point_counts manager.new (points_lent points.new) ≡ lowered (point_counts manager.old (points_lent points.old)) index.0 }
    ensures places { points.new.location.now ≡ emptied points.old.reference_count.now points.old.location.now index.0 }
{
    let i = index.0;
    let count = points.reference_count[i];
    points.reference_count[i] = count - 1;
    if count == 1 {
        points.location[i] = EMPTY_PLACE;
        manager.release_unchecked(points.index_starts, points.index_ends, i);
    }
}

// One count less, for callers that have checked the store and the call. Of the elements only the lengths are known.
pub fn dec_accepted(
    s: &mut Store,
    floats: usize,
    window: usize,
    points: &mut PointTables,
    labels: &mut LabelLowering,
    change: Change,
)
    requires { (well_formed (point_store s.old (tables_lowering floats window points.old labels.old)) ≡ true) × (dec_test (point_store s.old (tables_lowering floats window points.old labels.old)) change.index.0 change.label.0 ≡ go) }
    ensures same { SamePoints points.old points.new × SameLowering labels.old labels.new }
    ensures lowered { point_store s.new (tables_lowering floats window points.new labels.new) ≡ decremented (point_store s.old (tables_lowering floats window points.old labels.old)) change.index.0 change.label.0 }
{
    lower_point(&mut s.index_manager, points, change.index);
    if s.store_labels {
        // Kept: no plainer: two answers would tell by its contract what `label_managers` gives.
        let mut managers = LabelManagers {
            label_manager: s.label_manager,
            attribute_manager: s.attribute_manager,
        };
        dec_label(&s.classes, s.capacity, &mut managers, labels, change.label);
        s.label_manager = managers.label_manager;
        s.attribute_manager = managers.attribute_manager;
    }
}

// The same for callers that have checked the store.
pub fn dec_unchecked(
    s: &mut Store,
    floats: usize,
    window: usize,
    points: &mut PointTables,
    labels: &mut LabelLowering,
    change: Change,
) -> Result<(), Refusal>
    requires { well_formed (point_store s.old (tables_lowering floats window points.old labels.old)) ≡ true }
    ensures same { SamePoints points.old points.new × SameLowering labels.old labels.new }
    ensures dec { outcome (done_means result) (point_store s.new (tables_lowering floats window points.new labels.new)) ≡ dec_spec (point_store s.old (tables_lowering floats window points.old labels.old)) change.index.0 change.label.0 }
{
    let counts = &mut *points.reference_count;
    let label_counts = &mut *labels.label_count;
    dec_test(*s, counts, label_counts, change)?;
    dec_accepted(s, floats, window, points, labels, change);
    Ok(())
}

pub fn dec(
    s: &mut Store,
    store: &[FloatBits],
    last_known_shingle: &[FloatBits],
    points: &mut PointTables,
    labels: &mut LabelLowering,
    change: Change,
) -> Result<(), Refusal>
    ensures same { SamePoints points.old points.new × SameLowering labels.old labels.new }
    ensures dec { outcome (done_means result) (point_store s.new (lent_lowering store.now last_known_shingle.now points.new labels.new)) ≡ dec_spec (point_store s.old (lent_lowering store.now last_known_shingle.now points.old labels.old)) change.index.0 change.label.0 }
{
    check(
        *s,
        store.len(),
        last_known_shingle.len(),
        points.read(labels.read()),
    )
    .ok_or(Refusal::IllFormed)?;
    dec_unchecked(
        s,
        store.len(),
        last_known_shingle.len(),
        points,
        labels,
        change,
    )
}
