// The store's readings of a label.
ghost use Rattle.std.specs.Prelude.{◌≡◌, [], ◌∷◌};
ghost use Rattle.store_definitions.specs.LabelReadings.{label_spec, attribute_spec, attribute_vec_spec};
ghost use Rattle.store_definitions.specs.Lent.{held};
ghost use Rattle.store_definitions.specs.Memory.{point_store};
ghost use Rattle.point_store_c.specs.ExportedStore.{read, exported_reading, written, exported_output};
ghost use Rattle.point_store_c.specs.Records.{store_in};

use crate::answers::{done_number, number_out};
use crate::record::store_in;
use store_definitions::Tables;
use terms::LabelIndex;

#[unsafe(no_mangle)]
pub extern "C" fn ps_label(
    words: &[u64],
    store: &[u32],
    last_known_shingle: &[u32],
    reference_count: &[u16],
    location: &[u16],
    index_starts: &[u16],
    index_ends: &[u16],
    labels: &[u8],
    label_attributes: &[u16],
    label_count: &[u16],
    label_starts: &[u16],
    label_ends: &[u16],
    attributes: &[u8],
    attribute_count: &[u32],
    attribute_starts: &[u16],
    attribute_ends: &[u16],
    label: usize,
    code: &mut u64,
) -> u64
    ensures { read result (code.new ∷ []) ≡ exported_reading (code.old ∷ []) (label_spec (point_store (store_in words.now) (held store.now last_known_shingle.now reference_count.now location.now index_starts.now index_ends.now labels.now label_attributes.now label_count.now label_starts.now label_ends.now attributes.now attribute_count.now attribute_starts.now attribute_ends.now)) label) }
{
    let s = store_in(words);
    let label = LabelIndex(label);
    let tables = Tables::new(
        reference_count,
        location,
        index_starts,
        index_ends,
        labels,
        label_attributes,
        label_count,
        label_starts,
        label_ends,
        attributes,
        attribute_count,
        attribute_starts,
        attribute_ends,
    );
    let answer = store_readings::label(s, store, last_known_shingle, tables, label);
    number_out(answer, code)
}

#[unsafe(no_mangle)]
pub extern "C" fn ps_attribute(
    words: &[u64],
    store: &[u32],
    last_known_shingle: &[u32],
    reference_count: &[u16],
    location: &[u16],
    index_starts: &[u16],
    index_ends: &[u16],
    labels: &[u8],
    label_attributes: &[u16],
    label_count: &[u16],
    label_starts: &[u16],
    label_ends: &[u16],
    attributes: &[u8],
    attribute_count: &[u32],
    attribute_starts: &[u16],
    attribute_ends: &[u16],
    label: usize,
    class: &mut u64,
) -> u64
    ensures { read result (class.new ∷ []) ≡ exported_reading (class.old ∷ []) (attribute_spec (point_store (store_in words.now) (held store.now last_known_shingle.now reference_count.now location.now index_starts.now index_ends.now labels.now label_attributes.now label_count.now label_starts.now label_ends.now attributes.now attribute_count.now attribute_starts.now attribute_ends.now)) label) }
{
    let s = store_in(words);
    let label = LabelIndex(label);
    let tables = Tables::new(
        reference_count,
        location,
        index_starts,
        index_ends,
        labels,
        label_attributes,
        label_count,
        label_starts,
        label_ends,
        attributes,
        attribute_count,
        attribute_starts,
        attribute_ends,
    );
    let answer = store_readings::attribute(s, store, last_known_shingle, tables, label);
    number_out(answer, class)
}

#[unsafe(no_mangle)]
pub extern "C" fn ps_attribute_vec(
    words: &[u64],
    store: &[u32],
    last_known_shingle: &[u32],
    reference_count: &[u16],
    location: &[u16],
    index_starts: &[u16],
    index_ends: &[u16],
    labels: &[u8],
    label_attributes: &[u16],
    label_count: &[u16],
    label_starts: &[u16],
    label_ends: &[u16],
    attributes: &[u8],
    attribute_count: &[u32],
    attribute_starts: &[u16],
    attribute_ends: &[u16],
    label: usize,
    out: &mut [f32],
) -> u64
    ensures { written result out.new ≡ exported_output (attribute_vec_spec (point_store (store_in words.now) (held store.now last_known_shingle.now reference_count.now location.now index_starts.now index_ends.now labels.now label_attributes.now label_count.now label_starts.now label_ends.now attributes.now attribute_count.now attribute_starts.now attribute_ends.now)) label out.old) }
{
    let s = store_in(words);
    let label = LabelIndex(label);
    let tables = Tables::new(
        reference_count,
        location,
        index_starts,
        index_ends,
        labels,
        label_attributes,
        label_count,
        label_starts,
        label_ends,
        attributes,
        attribute_count,
        attribute_starts,
        attribute_ends,
    );
    let answer = store_readings::attribute_vec(s, store, last_known_shingle, tables, label, out);
    done_number(answer)
}
