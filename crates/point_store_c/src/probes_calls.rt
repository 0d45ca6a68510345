// The calls of the product for the eight-probe block. Copy, count and the other readings are the store's, on the first fifteen words
// of the record.
ghost use Rattle.std.specs.Prelude.{ℕ, ◌≡◌, ◌≤◌, [], ◌∷◌, length};
ghost use Rattle.float_bits.specs.Words.{words_equal};
ghost use Rattle.store_definitions.specs.Lent.{held};
ghost use Rattle.probes_definitions.specs.Memory.{point_probes};
ghost use Rattle.probes_definitions.specs.Opening.{probes_opened};
ghost use Rattle.store_definitions.specs.Memory.{Memory};
ghost use Rattle.probes_definitions.specs.Setting.{set_kinds_spec};
ghost use Rattle.probes_definitions.specs.Tallies.{tallies_spec};
ghost use Rattle.point_store_c.specs.ExportedStore.{exported, shape_in, written, exported_output};
ghost use Rattle.point_store_c.specs.ExportedProbes.{probes_exported_call, probes_opened_as, short_probes, probes_exported_opening};
ghost use Rattle.point_store_c.specs.ProbesRecords.{probes_in};
ghost use Rattle.terms.specs.Refusals.{number};

use crate::answers::{added_out, done_number};
use crate::opening::shape_in;
use crate::probes_record::{PROBES_WORDS, probes_in, probes_out, probes_write};
use labels::{LabelTaking, LabelWriting};
use probes_check::eight_probes;
use probes_definitions::Probes;
use store_definitions::{PointTables, Shape, Tables};
use store_rows::shape_allowed;
use terms::Refusal;

// Why a record that is too short is refused: the shape is looked at first.
#[tactic(auto, using(crate::proofs::ExportedProbesLaws::shingled), unfolding(crate::specs::ExportedProbes::short_probes))]
fn short_probes(shape: Shape) -> Refusal
    ensures { number result ≡ short_probes shape }
{
    if !shape_allowed(shape) {
        return Refusal::Shape;
    }
    if eight_probes(
        shape.dimensions,
        shape.shingle_size,
        shape.internal_shingling,
    ) {
        return Refusal::IllFormed;
    }
    Refusal::Shape
}

// A refused opening leaves the record.
// Kept: one function for store, hold and product would take the writer of the record as a closure, and save four lines.
fn opened_probes_out(words: &mut [u64], answer: Result<Probes, Refusal>) -> u64
    requires { 47 ≤ length words.old }
    ensures { (m : Memory ℕ) → exported result words.new [] m ≡ probes_opened_as words.old (probes_opened answer m) }
{
    match answer {
        Err(why) => u64::from(why),
        Ok(p) => {
            probes_write(words, p);
            0
        }
    }
}

#[tactic(auto, unfolding(crate::specs::ExportedProbes::probes_exported_opening))]
#[unsafe(no_mangle)]
pub extern "C" fn ps_probes_open(
    words: &mut [u64],
    store: &mut [u32],
    last_known_shingle: &mut [u32],
    reference_count: &mut [u16],
    location: &mut [u16],
    index_starts: &mut [u16],
    index_ends: &mut [u16],
    labels: &mut [u8],
    label_attributes: &mut [u16],
    label_count: &mut [u16],
    label_starts: &mut [u16],
    label_ends: &mut [u16],
    attributes: &mut [u8],
    attribute_count: &mut [u32],
    attribute_starts: &mut [u16],
    attribute_ends: &mut [u16],
    class_text: &[u8],
    dimensions: usize,
    shingle_size: usize,
    capacity: usize,
    initial_capacity: usize,
    internal_shingling: usize,
    internal_rotation: usize,
    store_labels: usize,
) -> u64
    ensures { exported result words.new [] (held store.new last_known_shingle.new reference_count.new location.new index_starts.new index_ends.new labels.new label_attributes.new label_count.new label_starts.new label_ends.new attributes.new attribute_count.new attribute_starts.new attribute_ends.new) ≡ probes_exported_opening words.old (shape_in dimensions shingle_size capacity initial_capacity internal_shingling internal_rotation store_labels) class_text.now (held store.old last_known_shingle.old reference_count.old location.old index_starts.old index_ends.old labels.old label_attributes.old label_count.old label_starts.old label_ends.old attributes.old attribute_count.old attribute_starts.old attribute_ends.old) }
{
    let shape = shape_in(
        dimensions,
        shingle_size,
        capacity,
        initial_capacity,
        internal_shingling,
        internal_rotation,
        store_labels,
    );
    if words.len() < PROBES_WORDS {
        return u64::from(short_probes(shape));
    }
    let mut points = PointTables {
        reference_count,
        location,
        index_starts,
        index_ends,
    };
    let mut lent = LabelWriting {
        labels,
        label_attributes,
        label_count,
        label_starts,
        label_ends,
        attributes,
        attribute_count,
        attribute_starts,
        attribute_ends,
    };
    let result = probes_opening::open_probes(
        shape,
        store,
        last_known_shingle,
        &mut points,
        &mut lent,
        class_text,
    );
    opened_probes_out(words, result)
}

// A set of eight readings, each a kind (0 Measured, 1 Estimated, 2 Absent) and a float, which for Absent is not looked at.
#[unsafe(no_mangle)]
pub extern "C" fn ps_probes_set(
    words: &mut [u64],
    store: &mut [u32],
    last_known_shingle: &mut [u32],
    reference_count: &mut [u16],
    location: &mut [u16],
    index_starts: &mut [u16],
    index_ends: &mut [u16],
    labels: &mut [u8],
    label_attributes: &mut [u16],
    label_count: &mut [u16],
    label_starts: &mut [u16],
    label_ends: &[u16],
    attributes: &mut [u8],
    attribute_count: &mut [u32],
    attribute_starts: &mut [u16],
    attribute_ends: &[u16],
    kinds: &[u8],
    floats: &[u32],
    label: usize,
    kept: &mut u64,
    index: &mut u64,
    label_index: &mut u64,
    joined: &mut u64,
    place: &mut u64,
    free_indices: &mut u64,
) -> u64
    ensures { exported result words.new (kept.new ∷ index.new ∷ label_index.new ∷ joined.new ∷ place.new ∷ free_indices.new ∷ []) (held store.new last_known_shingle.new reference_count.new location.new index_starts.new index_ends.new labels.new label_attributes.new label_count.new label_starts.new label_ends.now attributes.new attribute_count.new attribute_starts.new attribute_ends.now) ≡ probes_exported_call words.old (kept.old ∷ index.old ∷ label_index.old ∷ joined.old ∷ place.old ∷ free_indices.old ∷ []) (set_kinds_spec words_equal 0 (point_probes (probes_in words.old) (held store.old last_known_shingle.old reference_count.old location.old index_starts.old index_ends.old labels.old label_attributes.old label_count.old label_starts.old label_ends.now attributes.old attribute_count.old attribute_starts.old attribute_ends.now)) kinds.now floats.now label) }
{
    let mut p = probes_in(words);
    let mut points = PointTables {
        reference_count,
        location,
        index_starts,
        index_ends,
    };
    let mut lent = LabelTaking {
        labels,
        label_attributes,
        label_count,
        label_starts,
        label_ends,
        attributes,
        attribute_count,
        attribute_starts,
        attribute_ends,
    };
    let answer = probes::set_words(
        &mut p,
        store,
        last_known_shingle,
        &mut points,
        &mut lent,
        kinds,
        floats,
        label,
    );
    probes_out(words, p);
    added_out(
        answer,
        kept,
        index,
        label_index,
        joined,
        place,
        free_indices,
    )
}

// How many estimates each probe has had.
#[unsafe(no_mangle)]
pub extern "C" fn ps_probes_tallies(
    words: &[u64],
    store: &[u32],
    last_known_shingle: &[u32],
    reference_count: &[u16],
    location: &[u16],
    index_starts: &[u16],
    index_ends: &[u16],
    labels: &[u8],
    label_attributes: &[u16],
    label_count: &[u16],
    label_starts: &[u16],
    label_ends: &[u16],
    attributes: &[u8],
    attribute_count: &[u32],
    attribute_starts: &[u16],
    attribute_ends: &[u16],
    out: &mut [u32],
) -> u64
    ensures { written result out.new ≡ exported_output (tallies_spec (point_probes (probes_in words.now) (held store.now last_known_shingle.now reference_count.now location.now index_starts.now index_ends.now labels.now label_attributes.now label_count.now label_starts.now label_ends.now attributes.now attribute_count.now attribute_starts.now attribute_ends.now)) out.old) }
{
    let p = probes_in(words);
    let tables = Tables::new(
        reference_count,
        location,
        index_starts,
        index_ends,
        labels,
        label_attributes,
        label_count,
        label_starts,
        label_ends,
        attributes,
        attribute_count,
        attribute_starts,
        attribute_ends,
    );
    let answer = probes_check::tallies(p, store, last_known_shingle, tables, out);
    done_number(answer)
}
