// The store's calls on its rows.
ghost use Rattle.std.specs.Prelude.{◌≡◌, [], ◌∷◌};
ghost use Rattle.float_bits.specs.Words.{words_equal};
ghost use Rattle.store_definitions.specs.Adding.{add_spec};
ghost use Rattle.store_definitions.specs.Lent.{held};
ghost use Rattle.store_definitions.specs.Memory.{point_store};
ghost use Rattle.store_definitions.specs.Rows.{compact_spec, copy_spec};
ghost use Rattle.point_store_c.specs.ExportedStore.{exported, exported_call, written, exported_output};
ghost use Rattle.point_store_c.specs.Records.{store_in};

use crate::answers::{added_out, done_number};
use crate::record::{store_in, store_out};
use labels::LabelTaking;
use store_definitions::{PointTables, Tables};
use terms::PointIndex;

#[unsafe(no_mangle)]
pub extern "C" fn ps_add(
    words: &mut [u64],
    store: &mut [u32],
    last_known_shingle: &mut [u32],
    reference_count: &mut [u16],
    location: &mut [u16],
    index_starts: &mut [u16],
    index_ends: &mut [u16],
    labels: &mut [u8],
    label_attributes: &mut [u16],
    label_count: &mut [u16],
    label_starts: &mut [u16],
    label_ends: &[u16],
    attributes: &mut [u8],
    attribute_count: &mut [u32],
    attribute_starts: &mut [u16],
    attribute_ends: &[u16],
    point: &[u32],
    label: usize,
    kept: &mut u64,
    index: &mut u64,
    label_index: &mut u64,
    joined: &mut u64,
    place: &mut u64,
    free_indices: &mut u64,
) -> u64
    ensures { exported result words.new (kept.new ∷ index.new ∷ label_index.new ∷ joined.new ∷ place.new ∷ free_indices.new ∷ []) (held store.new last_known_shingle.new reference_count.new location.new index_starts.new index_ends.new labels.new label_attributes.new label_count.new label_starts.new label_ends.now attributes.new attribute_count.new attribute_starts.new attribute_ends.now) ≡ exported_call words.old (kept.old ∷ index.old ∷ label_index.old ∷ joined.old ∷ place.old ∷ free_indices.old ∷ []) (add_spec words_equal 0 (point_store (store_in words.old) (held store.old last_known_shingle.old reference_count.old location.old index_starts.old index_ends.old labels.old label_attributes.old label_count.old label_starts.old label_ends.now attributes.old attribute_count.old attribute_starts.old attribute_ends.now)) point.now label) }
{
    let mut s = store_in(words);
    let mut points = PointTables {
        reference_count,
        location,
        index_starts,
        index_ends,
    };
    let mut lent = LabelTaking {
        labels,
        label_attributes,
        label_count,
        label_starts,
        label_ends,
        attributes,
        attribute_count,
        attribute_starts,
        attribute_ends,
    };
    let answer = store_add::add(
        &mut s,
        store,
        last_known_shingle,
        &mut points,
        &mut lent,
        point,
        label,
    );
    store_out(words, s);
    added_out(
        answer,
        kept,
        index,
        label_index,
        joined,
        place,
        free_indices,
    )
}

#[unsafe(no_mangle)]
pub extern "C" fn ps_compact(
    words: &mut [u64],
    store: &mut [u32],
    last_known_shingle: &[u32],
    reference_count: &[u16],
    location: &mut [u16],
    index_starts: &[u16],
    index_ends: &[u16],
    labels: &[u8],
    label_attributes: &[u16],
    label_count: &[u16],
    label_starts: &[u16],
    label_ends: &[u16],
    attributes: &[u8],
    attribute_count: &[u32],
    attribute_starts: &[u16],
    attribute_ends: &[u16],
) -> u64
    ensures { exported result words.new [] (held store.new last_known_shingle.now reference_count.now location.new index_starts.now index_ends.now labels.now label_attributes.now label_count.now label_starts.now label_ends.now attributes.now attribute_count.now attribute_starts.now attribute_ends.now) ≡ exported_call words.old [] (compact_spec 0 (point_store (store_in words.old) (held store.old last_known_shingle.now reference_count.now location.old index_starts.now index_ends.now labels.now label_attributes.now label_count.now label_starts.now label_ends.now attributes.now attribute_count.now attribute_starts.now attribute_ends.now))) }
{
    let mut s = store_in(words);
    let answer = store_rows::compact(
        &mut s,
        store,
        last_known_shingle,
        reference_count,
        location,
        index_starts,
        index_ends,
        labels,
        label_attributes,
        label_count,
        label_starts,
        label_ends,
        attributes,
        attribute_count,
        attribute_starts,
        attribute_ends,
    );
    store_out(words, s);
    done_number(answer)
}

#[unsafe(no_mangle)]
pub extern "C" fn ps_copy(
    words: &[u64],
    store: &[u32],
    last_known_shingle: &[u32],
    reference_count: &[u16],
    location: &[u16],
    index_starts: &[u16],
    index_ends: &[u16],
    labels: &[u8],
    label_attributes: &[u16],
    label_count: &[u16],
    label_starts: &[u16],
    label_ends: &[u16],
    attributes: &[u8],
    attribute_count: &[u32],
    attribute_starts: &[u16],
    attribute_ends: &[u16],
    index: usize,
    out: &mut [u32],
) -> u64
    ensures { written result out.new ≡ exported_output (copy_spec (point_store (store_in words.now) (held store.now last_known_shingle.now reference_count.now location.now index_starts.now index_ends.now labels.now label_attributes.now label_count.now label_starts.now label_ends.now attributes.now attribute_count.now attribute_starts.now attribute_ends.now)) index out.old) }
{
    let s = store_in(words);
    let index = PointIndex(index);
    let tables = Tables::new(
        reference_count,
        location,
        index_starts,
        index_ends,
        labels,
        label_attributes,
        label_count,
        label_starts,
        label_ends,
        attributes,
        attribute_count,
        attribute_starts,
        attribute_ends,
    );
    let answer = store_rows::copy(s, store, last_known_shingle, tables, index, out);
    done_number(answer)
}
