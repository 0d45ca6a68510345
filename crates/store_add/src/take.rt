// A kept add takes a label and an index.
ghost use Rattle.std.specs.Prelude.{true, ◌≡◌, ◌≤◌, length};
ghost use Rattle.labels.specs.Forms.{label_outcome};
ghost use Rattle.labels.specs.Lent.{SameTaking, labels_taking};
ghost use Rattle.store_definitions.specs.Lent.{SamePoints, point_counts, points_lent};
ghost use Rattle.store_add.specs.Pieces.{managers_of, with_managers, label_for, grown_table, grown_places, index_given, index_placed, index_for};
ghost use Rattle.store_add.specs.Requires.{Labelled, Growable, Takeable, IndexReady};

use interval_store_manager::{Given, IntervalStoreManager};
use labels::{LabelTaking, LabelsFree, take_label};
use placement_rows::{grow_table, grown_length};
use store_definitions::{PointTables, Store};
use terms::{LabelIndex, NONE};

// With labels off no table of labels is looked at.
pub fn label_for(
    s: &mut Store,
    labels: &mut LabelTaking,
    code: usize,
    free: LabelsFree,
) -> LabelIndex
    requires { s.old.store_labels ≡ true → Labelled s.old (labels_taking (managers_of s.old) labels.old) code free }
    ensures same { SameTaking labels.old labels.new }
    ensures taken { label_outcome result (labels_taking (managers_of s.new) labels.new) ≡ label_for s.old (labels_taking (managers_of s.old) labels.old) code }
    ensures rest { s.new ≡ with_managers (managers_of s.new) s.old }
{
    if !s.store_labels {
        return LabelIndex(NONE);
    }
    let mut managers = s.label_managers();
    let label = take_label(&s.classes, s.capacity, &mut managers, labels, code, free);
    s.label_manager = managers.label_manager;
    s.attribute_manager = managers.attribute_manager;
    label
}

// Where no index is free the table grows.
fn grow_points(manager: &mut IntervalStoreManager, points: &mut PointTables, capacity: usize)
    requires { Growable capacity (point_counts manager.old (points_lent points.old)) points.old.location.now }
    ensures same { SamePoints points.old points.new }
    ensures table { point_counts manager.new (points_lent points.new) ≡ grown_table capacity (point_counts manager.old (points_lent points.old)) }
    ensures places { points.new.location.now ≡ grown_places capacity (point_counts manager.old (points_lent points.old)) points.old.location.now }
    ensures lent { length points.new.location.now ≡ length points.old.location.now }
{
    if manager.last_in_use == 0 {
        let old = manager.capacity;
        let new = grown_length(old, 1, capacity);
        grow_table(points.reference_count, points.location, old, new);
        manager.change_capacity_unchecked(points.index_starts, points.index_ends, new);
    }
}

// The next index gets the place.
fn take_next(
    manager: &mut IntervalStoreManager,
    points: &mut PointTables,
    place: usize,
    free: usize,
) -> Given
    requires { Takeable (point_counts manager.old (points_lent points.old)) points.old.location.now free × (place ≤ 65535) }
    ensures same { SamePoints points.old points.new }
    ensures given { index_given result.index result.free (point_counts manager.new (points_lent points.new)) points.new.location.now ≡ index_placed (point_counts manager.old (points_lent points.old)) points.old.location.now place }
{
    let ends = &mut *points.index_ends;
    let given = manager.get_unchecked(points.index_starts, ends, free);
    let index = given.index;
    points.reference_count[index] = 1;
    points.location[index] = place as u16;
    given
}

// How many are free is the table's length, once it has grown, less the live points.
pub fn take_index(
    manager: &mut IntervalStoreManager,
    points: &mut PointTables,
    capacity: usize,
    place: usize,
    live: usize,
) -> Given
    requires { IndexReady capacity (point_counts manager.old (points_lent points.old)) points.old.location.now place live }
    ensures same { SamePoints points.old points.new }
    ensures given { index_given result.index result.free (point_counts manager.new (points_lent points.new)) points.new.location.now ≡ index_for capacity (point_counts manager.old (points_lent points.old)) points.old.location.now place }
{
    grow_points(manager, points, capacity);
    let free = manager.capacity - live;
    take_next(manager, points, place, free)
}
