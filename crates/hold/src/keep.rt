// What a hold does once its store has kept a point: the point joins the list, and the oldest is given up once there are too many.
ghost use Rattle.std.specs.Prelude.{cond, true, ◌≡◌, ◌<◌, length, get_or};
ghost use Rattle.hold_definitions.specs.Lent.{hold_memory};
ghost use Rattle.interval_store_manager.specs.Calls.{go};
ghost use Rattle.labels.specs.Lent.{SameWriting, lists_writing};
ghost use Rattle.store_definitions.specs.Counting.{dec_test, decremented};
ghost use Rattle.store_definitions.specs.Lent.{SamePoints, lent_writing, points_lent};
ghost use Rattle.store_check.specs.Tables.{tables_of};
ghost use Rattle.store_definitions.specs.Memory.{point_store};
ghost use Rattle.store_definitions.specs.WellFormed.{well_formed};
ghost use Rattle.hold_definitions.specs.Memory.{point_hold};
ghost use Rattle.labels.specs.Decisions.{none};
ghost use Rattle.hold.specs.Keeping.{PointReady, point_kept};

use crate::list::{push_both, slide_both};
use hold_definitions::Hold;
use labels::{LabelLowering, LabelWriting};
use store_counts::dec_accepted;
use store_definitions::{Change, Kept, PointTables, Store};
use terms::{FloatBits, LabelIndex, NONE, PointIndex};

// The label index of the oldest held point: none with labels off.
fn oldest_label(store_labels: bool, held_labels: &[u16]) -> usize
    requires { store_labels ≡ true → 0 < length held_labels.now }
    ensures { result ≡ cond store_labels (get_or held_labels.now 0 0) none }
{
    if store_labels {
        return held_labels[0] as usize;
    }
    NONE
}

// A dec of the store that the hold has checked.
fn lower(
    s: &mut Store,
    floats: usize,
    window: usize,
    points: &mut PointTables,
    labels: &mut LabelWriting,
    change: Change,
)
    requires { (well_formed (point_store s.old (tables_of floats window (points_lent points.old) (lists_writing labels.old))) ≡ true) × (dec_test (point_store s.old (tables_of floats window (points_lent points.old) (lists_writing labels.old))) change.index.0 change.label.0 ≡ go) }
    ensures same { SamePoints points.old points.new × SameWriting labels.old labels.new }
    ensures lowered { point_store s.new (tables_of floats window (points_lent points.new) (lists_writing labels.new)) ≡ decremented (point_store s.old (tables_of floats window (points_lent points.old) (lists_writing labels.old))) change.index.0 change.label.0 }
{
    let codes = &mut *labels.labels;
    let label_attributes = &mut *labels.label_attributes;
    let attributes = &mut *labels.attributes;
    let mut lent = LabelLowering {
        labels: codes,
        label_attributes,
        label_count: labels.label_count,
        label_starts: labels.label_starts,
        label_ends: labels.label_ends,
        attributes,
        attribute_count: labels.attribute_count,
        attribute_starts: labels.attribute_starts,
        attribute_ends: labels.attribute_ends,
    };
    dec_accepted(s, floats, window, points, &mut lent, change);
}

pub fn keep_point(
    h: &mut Hold,
    kept: Kept,
    store: &[FloatBits],
    last_known_shingle: &[FloatBits],
    points: &mut PointTables,
    labels: &mut LabelWriting,
    held_indices: &mut [u16],
    held_labels: &mut [u16],
)
    requires { PointReady kept (point_hold h.old (hold_memory (lent_writing store.now last_known_shingle.now points.old labels.old) held_indices.old held_labels.old)) }
    ensures same { SamePoints points.old points.new × SameWriting labels.old labels.new }
    ensures kept { point_hold h.new (hold_memory (lent_writing store.now last_known_shingle.now points.new labels.new) held_indices.new held_labels.new) ≡ point_kept kept (point_hold h.old (hold_memory (lent_writing store.now last_known_shingle.now points.old labels.old) held_indices.old held_labels.old)) }
{
    let store_labels = h.store.store_labels;
    let index = kept.index.0;
    let label = kept.label.0;
    if h.held < h.width {
        push_both(
            store_labels,
            held_indices,
            held_labels,
            h.held,
            index,
            label,
        );
        h.held += 1;
        return;
    }
    let oldest = Change {
        index: PointIndex(held_indices[0] as usize),
        label: LabelIndex(oldest_label(store_labels, held_labels)),
    };
    lower(
        &mut h.store,
        store.len(),
        last_known_shingle.len(),
        points,
        labels,
        oldest,
    );
    slide_both(
        store_labels,
        held_indices,
        held_labels,
        h.held,
        index,
        label,
    );
}
