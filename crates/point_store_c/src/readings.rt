// The store's other readings of its rows, its window and its shape.
ghost use Rattle.std.specs.Prelude.{◌≡◌, [], ◌∷◌};
ghost use Rattle.float_bits.specs.Rows.{add_scaled};
ghost use Rattle.float_bits.specs.Words.{float_of, plus_zero, words_equal};
ghost use Rattle.store_definitions.specs.IndexLists.{missing_indices_spec, next_indices_spec};
ghost use Rattle.store_definitions.specs.Lent.{held};
ghost use Rattle.store_definitions.specs.Memory.{point_store};
ghost use Rattle.store_definitions.specs.Preview.{shingled_point_spec};
ghost use Rattle.store_definitions.specs.Sums.{is_equal_spec, point_sum_spec};
ghost use Rattle.row_readings.specs.Items.{weightings_of};
ghost use Rattle.point_store_c.specs.ExportedStore.{read, exported_reading, written, exported_output};
ghost use Rattle.point_store_c.specs.Records.{store_in};

use crate::answers::{done_number, number_out};
use crate::record::store_in;
use store_definitions::{Item, Tables};
use terms::PointIndex;

// 1 where the row's copy and the point are equal, else 0.
#[unsafe(no_mangle)]
pub extern "C" fn ps_is_equal(
    words: &[u64],
    store: &[u32],
    last_known_shingle: &[u32],
    reference_count: &[u16],
    location: &[u16],
    index_starts: &[u16],
    index_ends: &[u16],
    labels: &[u8],
    label_attributes: &[u16],
    label_count: &[u16],
    label_starts: &[u16],
    label_ends: &[u16],
    attributes: &[u8],
    attribute_count: &[u32],
    attribute_starts: &[u16],
    attribute_ends: &[u16],
    index: usize,
    point: &[u32],
    equal: &mut u64,
) -> u64
    ensures { read result (equal.new ∷ []) ≡ exported_reading (equal.old ∷ []) (is_equal_spec words_equal (point_store (store_in words.now) (held store.now last_known_shingle.now reference_count.now location.now index_starts.now index_ends.now labels.now label_attributes.now label_count.now label_starts.now label_ends.now attributes.now attribute_count.now attribute_starts.now attribute_ends.now)) index point.now) }
{
    let s = store_in(words);
    let index = PointIndex(index);
    let tables = Tables::new(
        reference_count,
        location,
        index_starts,
        index_ends,
        labels,
        label_attributes,
        label_count,
        label_starts,
        label_ends,
        attributes,
        attribute_count,
        attribute_starts,
        attribute_ends,
    );
    let answer = store_readings::is_equal(s, store, last_known_shingle, tables, index, point);
    number_out(answer.map(usize::from), equal)
}

// Over the caller's own records. All else is in the functions that it calls.
#[unsafe(no_mangle)]
pub extern "C" fn ps_point_sum(
    words: &[u64],
    store: &[u32],
    last_known_shingle: &[u32],
    reference_count: &[u16],
    location: &[u16],
    index_starts: &[u16],
    index_ends: &[u16],
    labels: &[u8],
    label_attributes: &[u16],
    label_count: &[u16],
    label_starts: &[u16],
    label_ends: &[u16],
    attributes: &[u8],
    attribute_count: &[u32],
    attribute_starts: &[u16],
    attribute_ends: &[u16],
    items: &[Item],
    out: &mut [f32],
) -> u64
    ensures { written result out.new ≡ exported_output (point_sum_spec add_scaled (float_of plus_zero) (point_store (store_in words.now) (held store.now last_known_shingle.now reference_count.now location.now index_starts.now index_ends.now labels.now label_attributes.now label_count.now label_starts.now label_ends.now attributes.now attribute_count.now attribute_starts.now attribute_ends.now)) (weightings_of items.now) out.old) }
{
    let s = store_in(words);
    let tables = Tables::new(
        reference_count,
        location,
        index_starts,
        index_ends,
        labels,
        label_attributes,
        label_count,
        label_starts,
        label_ends,
        attributes,
        attribute_count,
        attribute_starts,
        attribute_ends,
    );
    let answer = store_sum_items::point_sum(s, store, last_known_shingle, tables, items, out);
    done_number(answer)
}

#[unsafe(no_mangle)]
pub extern "C" fn ps_shingled_point(
    words: &[u64],
    store: &[u32],
    last_known_shingle: &[u32],
    reference_count: &[u16],
    location: &[u16],
    index_starts: &[u16],
    index_ends: &[u16],
    labels: &[u8],
    label_attributes: &[u16],
    label_count: &[u16],
    label_starts: &[u16],
    label_ends: &[u16],
    attributes: &[u8],
    attribute_count: &[u32],
    attribute_starts: &[u16],
    attribute_ends: &[u16],
    point: &[u32],
    out: &mut [u32],
) -> u64
    ensures { written result out.new ≡ exported_output (shingled_point_spec (point_store (store_in words.now) (held store.now last_known_shingle.now reference_count.now location.now index_starts.now index_ends.now labels.now label_attributes.now label_count.now label_starts.now label_ends.now attributes.now attribute_count.now attribute_starts.now attribute_ends.now)) point.now out.old) }
{
    let s = store_in(words);
    let tables = Tables::new(
        reference_count,
        location,
        index_starts,
        index_ends,
        labels,
        label_attributes,
        label_count,
        label_starts,
        label_ends,
        attributes,
        attribute_count,
        attribute_starts,
        attribute_ends,
    );
    let answer = store_readings::shingled_point(s, store, last_known_shingle, tables, point, out);
    done_number(answer)
}

#[unsafe(no_mangle)]
pub extern "C" fn ps_missing_indices(
    words: &[u64],
    store: &[u32],
    last_known_shingle: &[u32],
    reference_count: &[u16],
    location: &[u16],
    index_starts: &[u16],
    index_ends: &[u16],
    labels: &[u8],
    label_attributes: &[u16],
    label_count: &[u16],
    label_starts: &[u16],
    label_ends: &[u16],
    attributes: &[u8],
    attribute_count: &[u32],
    attribute_starts: &[u16],
    attribute_ends: &[u16],
    look_ahead: usize,
    values: &[usize],
    out: &mut [usize],
) -> u64
    ensures { written result out.new ≡ exported_output (missing_indices_spec (point_store (store_in words.now) (held store.now last_known_shingle.now reference_count.now location.now index_starts.now index_ends.now labels.now label_attributes.now label_count.now label_starts.now label_ends.now attributes.now attribute_count.now attribute_starts.now attribute_ends.now)) look_ahead values.now out.old) }
{
    let s = store_in(words);
    let tables = Tables::new(
        reference_count,
        location,
        index_starts,
        index_ends,
        labels,
        label_attributes,
        label_count,
        label_starts,
        label_ends,
        attributes,
        attribute_count,
        attribute_starts,
        attribute_ends,
    );
    let answer = store_readings::missing_indices(
        s,
        store,
        last_known_shingle,
        tables,
        look_ahead,
        values,
        out,
    );
    done_number(answer)
}

#[unsafe(no_mangle)]
pub extern "C" fn ps_next_indices(
    words: &[u64],
    store: &[u32],
    last_known_shingle: &[u32],
    reference_count: &[u16],
    location: &[u16],
    index_starts: &[u16],
    index_ends: &[u16],
    labels: &[u8],
    label_attributes: &[u16],
    label_count: &[u16],
    label_starts: &[u16],
    label_ends: &[u16],
    attributes: &[u8],
    attribute_count: &[u32],
    attribute_starts: &[u16],
    attribute_ends: &[u16],
    look_ahead: usize,
    out: &mut [usize],
) -> u64
    ensures { written result out.new ≡ exported_output (next_indices_spec (point_store (store_in words.now) (held store.now last_known_shingle.now reference_count.now location.now index_starts.now index_ends.now labels.now label_attributes.now label_count.now label_starts.now label_ends.now attributes.now attribute_count.now attribute_starts.now attribute_ends.now)) look_ahead out.old) }
{
    let s = store_in(words);
    let tables = Tables::new(
        reference_count,
        location,
        index_starts,
        index_ends,
        labels,
        label_attributes,
        label_count,
        label_starts,
        label_ends,
        attributes,
        attribute_count,
        attribute_starts,
        attribute_ends,
    );
    let answer = store_readings::next_indices(
        s,
        store,
        last_known_shingle,
        tables,
        look_ahead,
        out,
    );
    done_number(answer)
}
