// Opening a store in lent memory.
ghost use Rattle.std.specs.Prelude.{true, ◌≡◌, ◌*◌, ◌≤◌};
ghost use Rattle.interval_store_manager.specs.Calls.{decision_means};
ghost use Rattle.labels.specs.Lent.{SameWriting, labels_lent as labels_held};
ghost use Rattle.store_definitions.specs.Answers.{opened_means, outcome};
ghost use Rattle.store_definitions.specs.Bounds.{bounds_hold, lent_enough};
ghost use Rattle.store_definitions.specs.Lent.{SamePoints, lent, lent_writing};
ghost use Rattle.store_definitions.specs.Memory.{point_store};
ghost use Rattle.store_definitions.specs.Opening.{fresh_with, no_record, open_judged, open_spec, opened_store, shape_allowed};
ghost use Rattle.store_rows.specs.Openings.{label_managers, labels_lent_if};

use crate::clearing::{open_labels, open_points};
use class_table::read_classes;
use interval_store_manager::IntervalStoreManager;
use labels::{LabelTables, LabelWriting};
use store_check::bounds_hold;
use store_definitions::{PointTables, Shape, Store, Tables};
use terms::{FloatBits, Refusal};

// The shape within the bounds.
#[tactic(auto, unfolding(store_definitions::specs::Bounds::start_allowed))]
pub fn shape_allowed(shape: Shape) -> bool
    ensures { result ≡ shape_allowed shape }
{
    if bounds_hold(shape.dimensions, shape.shingle_size, shape.capacity) {
        return (1 <= shape.initial_capacity) & (shape.initial_capacity <= shape.capacity);
    }
    false
}

// With labels off none is asked for.
#[tactic(auto, unfolding(crate::specs::Openings::labels_lent_if))]
fn labels_lent(store_labels: bool, capacity: usize, tables: LabelTables) -> bool
    ensures { result ≡ labels_lent_if store_labels capacity (labels_held (label_managers capacity) tables.entry) }
{
    if store_labels {
        let slots = (capacity <= tables.attributes.len())
            & ((capacity <= tables.attribute_count.len())
                & ((capacity <= tables.attribute_starts.len())
                    & (capacity <= tables.attribute_ends.len())));
        return (capacity <= tables.labels.len())
            & ((capacity <= tables.label_attributes.len())
                & ((capacity <= tables.label_count.len())
                    & ((capacity <= tables.label_starts.len())
                        & ((capacity <= tables.label_ends.len()) & slots))));
    }
    true
}

// Of a shape within the bounds.
fn enough_lent(
    shape: Shape,
    store: &[FloatBits],
    last_known_shingle: &[FloatBits],
    tables: Tables,
) -> bool
    requires { bounds_hold shape.dimensions shape.shingle_size shape.capacity ≡ true }
    ensures { result ≡ lent_enough shape.dimensions shape.capacity shape.store_labels (lent store.now last_known_shingle.now tables.entry) }
{
    let capacity = shape.capacity;
    let of_labels = labels_lent(shape.store_labels, capacity, tables.label_tables);
    (capacity * shape.dimensions <= store.len())
        & ((shape.dimensions <= last_known_shingle.len())
            & ((capacity <= tables.reference_count.len())
                & ((capacity <= tables.location.len())
                    & ((capacity <= tables.index_starts.len())
                        & ((capacity <= tables.index_ends.len()) & of_labels)))))
}

// Whatever the text holds: that it holds no table is the last refusal.
fn opening_decision(
    shape: Shape,
    store: &[FloatBits],
    last_known_shingle: &[FloatBits],
    tables: Tables,
) -> Result<(), Refusal>
    ensures { decision_means result ≡ open_judged shape true (lent store.now last_known_shingle.now tables.entry) }
{
    if !shape_allowed(shape) {
        return Err(Refusal::Shape);
    }
    if !enough_lent(shape, store, last_known_shingle, tables) {
        return Err(Refusal::IllFormed);
    }
    Ok(())
}

fn fresh_record(shape: Shape, classes: [u8; 24]) -> Store
    requires { shape.initial_capacity * shape.dimensions ≤ 16384 }
    ensures { result ≡ fresh_with shape classes }
{
    Store {
        dimensions: shape.dimensions,
        shingle_size: shape.shingle_size,
        capacity: shape.capacity,
        internal_shingling: shape.internal_shingling,
        internal_rotation: shape.internal_rotation,
        store_labels: shape.store_labels,
        store_length: shape.initial_capacity * shape.dimensions,
        start_free_region: 0,
        next_sequence_index: 0,
        index_manager: IntervalStoreManager {
            capacity: shape.initial_capacity,
            last_in_use: 1,
        },
        label_manager: IntervalStoreManager {
            capacity: shape.capacity,
            last_in_use: 1,
        },
        attribute_manager: IntervalStoreManager {
            capacity: shape.capacity,
            last_in_use: 1,
        },
        classes,
    }
}

// The record of zeros, which a refused opening gives: every call refuses it as ill-formed.
pub fn no_record() -> Store
    ensures { result ≡ no_record }
{
    let none = IntervalStoreManager {
        capacity: 0,
        last_in_use: 0,
    };
    let classes = [0u8; 24];
    Store {
        dimensions: 0,
        shingle_size: 0,
        capacity: 0,
        internal_shingling: false,
        internal_rotation: false,
        store_labels: false,
        store_length: 0,
        start_free_region: 0,
        next_sequence_index: 0,
        index_manager: none,
        label_manager: none,
        attribute_manager: none,
        classes,
    }
}

// `class_text` is the table of reason classes as text.
pub fn open(
    shape: Shape,
    store: &mut [FloatBits],
    last_known_shingle: &mut [FloatBits],
    points: &mut PointTables,
    labels: &mut LabelWriting,
    class_text: &[u8],
) -> Result<Store, Refusal>
    ensures same { SamePoints points.old points.new × SameWriting labels.old labels.new }
    ensures opened { outcome (opened_means result) (point_store (opened_store result) (lent_writing store.new last_known_shingle.new points.new labels.new)) ≡ open_spec 0 shape class_text.now (lent_writing store.old last_known_shingle.old points.old labels.old) }
{
    opening_decision(shape, store, last_known_shingle, points.read(labels.read()))?;
    let classes = read_classes(class_text).ok_or(Refusal::ClassText)?;
    let fresh = fresh_record(shape, classes);
    open_points(shape, store, last_known_shingle, points);
    open_labels(shape.store_labels, shape.capacity, labels);
    Ok(fresh)
}
