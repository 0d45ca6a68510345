// What an opening writes into the lent tables: the entries that a fresh store has in use, and nothing past them.
ghost use Rattle.std.specs.Prelude.{true, ◌≡◌};
ghost use Rattle.label_opening.specs.OpeningLaws.{LabelsOpenable};
ghost use Rattle.labels.specs.Lent.{SameWriting, labels_writing};
ghost use Rattle.store_definitions.specs.Lent.{SamePoints, points_lent};
ghost use Rattle.store_rows.specs.Openings.{PointsReady, points_in, points_opened, label_managers, labels_opened_if};

use interval_store_manager::IntervalStoreManager;
use labels::LabelWriting;
use store_definitions::{PointTables, Shape};
use terms::{EMPTY_PLACE, FloatBits};

pub fn open_points(
    shape: Shape,
    store: &mut [FloatBits],
    last_known_shingle: &mut [FloatBits],
    tables: &mut PointTables,
)
    requires { PointsReady shape (points_in store.old last_known_shingle.old (points_lent tables.old)) }
    ensures same { SamePoints tables.old tables.new }
    ensures opened { points_in store.new last_known_shingle.new (points_lent tables.new) ≡ points_opened shape (points_in store.old last_known_shingle.old (points_lent tables.old)) }
{
    let start = shape.initial_capacity;
    store[..start * shape.dimensions].fill(0);
    last_known_shingle[..shape.dimensions].fill(0);
    let counts = &mut *tables.reference_count;
    counts[..start].fill(0);
    let places = &mut *tables.location;
    places[..start].fill(EMPTY_PLACE);
    let _ = IntervalStoreManager::new_unchecked(start, tables.index_starts, tables.index_ends);
}

// With labels off nothing is written.
pub fn open_labels(store_labels: bool, capacity: usize, labels: &mut LabelWriting)
    requires { store_labels ≡ true → LabelsOpenable capacity labels.old.labels.now labels.old.label_attributes.now labels.old.label_count.now labels.old.label_starts.now labels.old.label_ends.now labels.old.attributes.now labels.old.attribute_count.now labels.old.attribute_starts.now labels.old.attribute_ends.now }
    ensures same { SameWriting labels.old labels.new }
    ensures opened { labels_writing (label_managers capacity) labels.new ≡ labels_opened_if store_labels capacity (labels_writing (label_managers capacity) labels.old) }
{
    if store_labels {
        let _ = label_opening::open_labels(capacity, labels);
    }
}
