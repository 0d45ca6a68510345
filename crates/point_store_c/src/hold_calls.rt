// A hold's calls. Copy, count and the other readings are the store's, on the store's words of the record.
ghost use Rattle.std.specs.Prelude.{ℕ, ◌≡◌, ◌≤◌, [], ◌∷◌, length};
ghost use Rattle.float_bits.specs.Words.{words_equal};
ghost use Rattle.hold_definitions.specs.Adding.{hold_add_spec};
ghost use Rattle.hold_definitions.specs.Lent.{hold_held};
ghost use Rattle.hold_definitions.specs.Memory.{HoldMemory, point_hold};
ghost use Rattle.hold_definitions.specs.Opening.{hold_opened};
ghost use Rattle.hold_definitions.specs.Readings.{held_spec, held_number_spec};
ghost use Rattle.point_store_c.specs.ExportedStore.{shape_in, read, exported_reading, written, exported_output};
ghost use Rattle.point_store_c.specs.ExportedHold.{hold_exported, hold_exported_call, hold_opened_as, short_hold, hold_exported_opening};
ghost use Rattle.point_store_c.specs.HoldRecords.{hold_in};
ghost use Rattle.terms.specs.Refusals.{number};

use crate::answers::{added_out, done_number, number_out};
use crate::hold_record::{HOLD_WORDS, hold_in, hold_out, hold_write};
use crate::opening::shape_in;
use hold_definitions::{Hold, width_allowed};
use labels::LabelWriting;
use store_definitions::{PointTables, Shape, Tables};
use store_rows::shape_allowed;
use terms::Refusal;

// Why a record that is too short is refused: the shape is looked at first, then the width.
#[tactic(auto, unfolding(crate::specs::ExportedHold::short_hold))]
fn short_hold(shape: Shape, width: usize) -> Refusal
    ensures { number result ≡ short_hold shape width }
{
    if !shape_allowed(shape) {
        return Refusal::Shape;
    }
    if width_allowed(width, shape.capacity) {
        return Refusal::IllFormed;
    }
    Refusal::HoldWidth
}

// A refused opening leaves the record.
// Kept: one function for store, hold and product would take the writer of the record as a closure, and save four lines.
fn opened_hold_out(words: &mut [u64], answer: Result<Hold, Refusal>) -> u64
    requires { 41 ≤ length words.old }
    ensures { (m : HoldMemory ℕ) → hold_exported result words.new [] m ≡ hold_opened_as words.old (hold_opened answer m) }
{
    match answer {
        Err(why) => u64::from(why),
        Ok(h) => {
            hold_write(words, h);
            0
        }
    }
}

#[tactic(auto, unfolding(crate::specs::ExportedHold::hold_exported_opening))]
#[unsafe(no_mangle)]
pub extern "C" fn ps_hold_open(
    words: &mut [u64],
    store: &mut [u32],
    last_known_shingle: &mut [u32],
    reference_count: &mut [u16],
    location: &mut [u16],
    index_starts: &mut [u16],
    index_ends: &mut [u16],
    labels: &mut [u8],
    label_attributes: &mut [u16],
    label_count: &mut [u16],
    label_starts: &mut [u16],
    label_ends: &mut [u16],
    attributes: &mut [u8],
    attribute_count: &mut [u32],
    attribute_starts: &mut [u16],
    attribute_ends: &mut [u16],
    held_indices: &[u16],
    held_labels: &[u16],
    class_text: &[u8],
    dimensions: usize,
    shingle_size: usize,
    capacity: usize,
    initial_capacity: usize,
    internal_shingling: usize,
    internal_rotation: usize,
    store_labels: usize,
    width: usize,
) -> u64
    ensures { hold_exported result words.new [] (hold_held store.new last_known_shingle.new reference_count.new location.new index_starts.new index_ends.new labels.new label_attributes.new label_count.new label_starts.new label_ends.new attributes.new attribute_count.new attribute_starts.new attribute_ends.new held_indices.now held_labels.now) ≡ hold_exported_opening words.old (shape_in dimensions shingle_size capacity initial_capacity internal_shingling internal_rotation store_labels) width class_text.now (hold_held store.old last_known_shingle.old reference_count.old location.old index_starts.old index_ends.old labels.old label_attributes.old label_count.old label_starts.old label_ends.old attributes.old attribute_count.old attribute_starts.old attribute_ends.old held_indices.now held_labels.now) }
{
    let shape = shape_in(
        dimensions,
        shingle_size,
        capacity,
        initial_capacity,
        internal_shingling,
        internal_rotation,
        store_labels,
    );
    if words.len() < HOLD_WORDS {
        return u64::from(short_hold(shape, width));
    }
    let mut points = PointTables {
        reference_count,
        location,
        index_starts,
        index_ends,
    };
    let mut lent = LabelWriting {
        labels,
        label_attributes,
        label_count,
        label_starts,
        label_ends,
        attributes,
        attribute_count,
        attribute_starts,
        attribute_ends,
    };
    let result = hold_opening::open_hold(
        shape,
        width,
        store,
        last_known_shingle,
        &mut points,
        &mut lent,
        held_indices,
        held_labels,
        class_text,
    );
    opened_hold_out(words, result)
}

#[unsafe(no_mangle)]
pub extern "C" fn ps_hold_add(
    words: &mut [u64],
    store: &mut [u32],
    last_known_shingle: &mut [u32],
    reference_count: &mut [u16],
    location: &mut [u16],
    index_starts: &mut [u16],
    index_ends: &mut [u16],
    labels: &mut [u8],
    label_attributes: &mut [u16],
    label_count: &mut [u16],
    label_starts: &mut [u16],
    label_ends: &mut [u16],
    attributes: &mut [u8],
    attribute_count: &mut [u32],
    attribute_starts: &mut [u16],
    attribute_ends: &mut [u16],
    held_indices: &mut [u16],
    held_labels: &mut [u16],
    point: &[u32],
    label: usize,
    kept: &mut u64,
    index: &mut u64,
    label_index: &mut u64,
    joined: &mut u64,
    place: &mut u64,
    free_indices: &mut u64,
) -> u64
    ensures { hold_exported result words.new (kept.new ∷ index.new ∷ label_index.new ∷ joined.new ∷ place.new ∷ free_indices.new ∷ []) (hold_held store.new last_known_shingle.new reference_count.new location.new index_starts.new index_ends.new labels.new label_attributes.new label_count.new label_starts.new label_ends.new attributes.new attribute_count.new attribute_starts.new attribute_ends.new held_indices.new held_labels.new) ≡ hold_exported_call words.old (kept.old ∷ index.old ∷ label_index.old ∷ joined.old ∷ place.old ∷ free_indices.old ∷ []) (hold_add_spec words_equal 0 (point_hold (hold_in words.old) (hold_held store.old last_known_shingle.old reference_count.old location.old index_starts.old index_ends.old labels.old label_attributes.old label_count.old label_starts.old label_ends.old attributes.old attribute_count.old attribute_starts.old attribute_ends.old held_indices.old held_labels.old)) point.now label) }
{
    let mut h = hold_in(words);
    let mut points = PointTables {
        reference_count,
        location,
        index_starts,
        index_ends,
    };
    let mut lent = LabelWriting {
        labels,
        label_attributes,
        label_count,
        label_starts,
        label_ends,
        attributes,
        attribute_count,
        attribute_starts,
        attribute_ends,
    };
    let answer = hold::add(
        &mut h,
        store,
        last_known_shingle,
        &mut points,
        &mut lent,
        held_indices,
        held_labels,
        point,
        label,
    );
    hold_out(words, h);
    added_out(
        answer,
        kept,
        index,
        label_index,
        joined,
        place,
        free_indices,
    )
}

// The held point indices, oldest first.
#[unsafe(no_mangle)]
pub extern "C" fn ps_hold_held(
    words: &[u64],
    store: &[u32],
    last_known_shingle: &[u32],
    reference_count: &[u16],
    location: &[u16],
    index_starts: &[u16],
    index_ends: &[u16],
    labels: &[u8],
    label_attributes: &[u16],
    label_count: &[u16],
    label_starts: &[u16],
    label_ends: &[u16],
    attributes: &[u8],
    attribute_count: &[u32],
    attribute_starts: &[u16],
    attribute_ends: &[u16],
    held_indices: &[u16],
    held_labels: &[u16],
    out: &mut [u16],
) -> u64
    ensures { written result out.new ≡ exported_output (held_spec (point_hold (hold_in words.now) (hold_held store.now last_known_shingle.now reference_count.now location.now index_starts.now index_ends.now labels.now label_attributes.now label_count.now label_starts.now label_ends.now attributes.now attribute_count.now attribute_starts.now attribute_ends.now held_indices.now held_labels.now)) out.old) }
{
    let h = hold_in(words);
    let tables = Tables::new(
        reference_count,
        location,
        index_starts,
        index_ends,
        labels,
        label_attributes,
        label_count,
        label_starts,
        label_ends,
        attributes,
        attribute_count,
        attribute_starts,
        attribute_ends,
    );
    let answer = hold_check::held(
        h,
        store,
        last_known_shingle,
        tables,
        held_indices,
        held_labels,
        out,
    );
    done_number(answer)
}

// How many points are held.
#[unsafe(no_mangle)]
pub extern "C" fn ps_hold_number(
    words: &[u64],
    store: &[u32],
    last_known_shingle: &[u32],
    reference_count: &[u16],
    location: &[u16],
    index_starts: &[u16],
    index_ends: &[u16],
    labels: &[u8],
    label_attributes: &[u16],
    label_count: &[u16],
    label_starts: &[u16],
    label_ends: &[u16],
    attributes: &[u8],
    attribute_count: &[u32],
    attribute_starts: &[u16],
    attribute_ends: &[u16],
    held_indices: &[u16],
    held_labels: &[u16],
    number: &mut u64,
) -> u64
    ensures { read result (number.new ∷ []) ≡ exported_reading (number.old ∷ []) (held_number_spec (point_hold (hold_in words.now) (hold_held store.now last_known_shingle.now reference_count.now location.now index_starts.now index_ends.now labels.now label_attributes.now label_count.now label_starts.now label_ends.now attributes.now attribute_count.now attribute_starts.now attribute_ends.now held_indices.now held_labels.now))) }
{
    let h = hold_in(words);
    let tables = Tables::new(
        reference_count,
        location,
        index_starts,
        index_ends,
        labels,
        label_attributes,
        label_count,
        label_starts,
        label_ends,
        attributes,
        attribute_count,
        attribute_starts,
        attribute_ends,
    );
    let answer = hold_check::held_number(
        h,
        store,
        last_known_shingle,
        tables,
        held_indices,
        held_labels,
    );
    number_out(answer, number)
}
