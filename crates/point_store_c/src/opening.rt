// Opening a store.
ghost use Rattle.std.specs.Prelude.{◌≡◌, ◌≤◌, [], length};
ghost use Rattle.store_definitions.specs.Answers.{opened_means};
ghost use Rattle.store_definitions.specs.Lent.{held};
ghost use Rattle.store_definitions.specs.Opening.{opened_store};
ghost use Rattle.terms.specs.Refusals.{number};
ghost use Rattle.point_store_c.specs.ExportedStore.{returned, opened_words, exported, shape_in, short_record, exported_opening};

use crate::record::{RECORD_WORDS, record_write};
use labels::LabelWriting;
use store_definitions::{PointTables, Shape, Store};
use store_rows::shape_allowed;
use terms::Refusal;

// What a flag above 1 stands for: a shape of zeros, which is outside the bounds.
// Kept: an Option would save these nine lines and cost three in each of three openings, which refuse a shape already.
#[tactic(auto, unfolding(crate::specs::ExportedStore::shape_in))]
pub fn shape_in(
    dimensions: usize,
    shingle_size: usize,
    capacity: usize,
    initial_capacity: usize,
    internal_shingling: usize,
    internal_rotation: usize,
    store_labels: usize,
) -> Shape
    ensures { result ≡ shape_in dimensions shingle_size capacity initial_capacity internal_shingling internal_rotation store_labels }
{
    if (internal_shingling < 2) & ((internal_rotation < 2) & (store_labels < 2)) {
        return Shape {
            dimensions,
            shingle_size,
            capacity,
            initial_capacity,
            internal_shingling: internal_shingling == 1,
            internal_rotation: internal_rotation == 1,
            store_labels: store_labels == 1,
        };
    }
    Shape {
        dimensions: 0,
        shingle_size: 0,
        capacity: 0,
        initial_capacity: 0,
        internal_shingling: false,
        internal_rotation: false,
        store_labels: false,
    }
}

// Why a record that is too short is refused: the shape is looked at first.
#[tactic(auto, unfolding(crate::specs::ExportedStore::short_record))]
fn short_record(shape: Shape) -> Refusal
    ensures { number result ≡ short_record shape }
{
    if shape_allowed(shape) {
        return Refusal::IllFormed;
    }
    Refusal::Shape
}

// A refused opening leaves the record.
// Kept: one function for store, hold and product would take the writer of the record as a closure, and save four lines.
fn opened_out(words: &mut [u64], answer: Result<Store, Refusal>) -> u64
    requires { 39 ≤ length words.old }
    ensures { (result ≡ returned (opened_means answer)) × (words.new ≡ opened_words words.old (opened_means answer) (opened_store answer)) }
{
    match answer {
        Err(why) => u64::from(why),
        Ok(s) => {
            record_write(words, s);
            0
        }
    }
}

#[tactic(auto, unfolding(crate::specs::ExportedStore::exported_opening))]
#[unsafe(no_mangle)]
pub extern "C" fn ps_open(
    words: &mut [u64],
    store: &mut [u32],
    last_known_shingle: &mut [u32],
    reference_count: &mut [u16],
    location: &mut [u16],
    index_starts: &mut [u16],
    index_ends: &mut [u16],
    labels: &mut [u8],
    label_attributes: &mut [u16],
    label_count: &mut [u16],
    label_starts: &mut [u16],
    label_ends: &mut [u16],
    attributes: &mut [u8],
    attribute_count: &mut [u32],
    attribute_starts: &mut [u16],
    attribute_ends: &mut [u16],
    class_text: &[u8],
    dimensions: usize,
    shingle_size: usize,
    capacity: usize,
    initial_capacity: usize,
    internal_shingling: usize,
    internal_rotation: usize,
    store_labels: usize,
) -> u64
    ensures { exported result words.new [] (held store.new last_known_shingle.new reference_count.new location.new index_starts.new index_ends.new labels.new label_attributes.new label_count.new label_starts.new label_ends.new attributes.new attribute_count.new attribute_starts.new attribute_ends.new) ≡ exported_opening words.old (shape_in dimensions shingle_size capacity initial_capacity internal_shingling internal_rotation store_labels) class_text.now (held store.old last_known_shingle.old reference_count.old location.old index_starts.old index_ends.old labels.old label_attributes.old label_count.old label_starts.old label_ends.old attributes.old attribute_count.old attribute_starts.old attribute_ends.old) }
{
    let shape = shape_in(
        dimensions,
        shingle_size,
        capacity,
        initial_capacity,
        internal_shingling,
        internal_rotation,
        store_labels,
    );
    if words.len() < RECORD_WORDS {
        return u64::from(short_record(shape));
    }
    let mut points = PointTables {
        reference_count,
        location,
        index_starts,
        index_ends,
    };
    let mut lent = LabelWriting {
        labels,
        label_attributes,
        label_count,
        label_starts,
        label_ends,
        attributes,
        attribute_count,
        attribute_starts,
        attribute_ends,
    };
    let result = store_rows::open(
        shape,
        store,
        last_known_shingle,
        &mut points,
        &mut lent,
        class_text,
    );
    opened_out(words, result)
}
