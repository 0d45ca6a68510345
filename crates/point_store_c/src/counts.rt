// The store's calls on its counts.
ghost use Rattle.std.specs.Prelude.{◌≡◌, [], ◌∷◌};
ghost use Rattle.store_definitions.specs.Counting.{inc_spec, dec_spec, adjust_spec, count_spec, live_number_spec, free_start_spec};
ghost use Rattle.store_definitions.specs.Lent.{held};
ghost use Rattle.store_definitions.specs.Memory.{point_store};
ghost use Rattle.store_adjust.specs.Pairs.{pairings_of};
ghost use Rattle.point_store_c.specs.ExportedStore.{exported, exported_call, read, exported_reading};
ghost use Rattle.point_store_c.specs.Records.{store_in};

use crate::answers::{adjusted_out, done_number, number_out};
use crate::record::{store_in, store_out};
use labels::{LabelLowering, LabelRaising};
use store_definitions::{Change, Pair, PointRaising, PointTables, Tables};
use terms::{LabelIndex, PointIndex};

#[unsafe(no_mangle)]
pub extern "C" fn ps_inc(
    words: &[u64],
    store: &[u32],
    last_known_shingle: &[u32],
    reference_count: &mut [u16],
    location: &[u16],
    index_starts: &[u16],
    index_ends: &[u16],
    labels: &[u8],
    label_attributes: &[u16],
    label_count: &mut [u16],
    label_starts: &[u16],
    label_ends: &[u16],
    attributes: &[u8],
    attribute_count: &mut [u32],
    attribute_starts: &[u16],
    attribute_ends: &[u16],
    index: usize,
    label: usize,
) -> u64
    ensures { exported result words.now [] (held store.now last_known_shingle.now reference_count.new location.now index_starts.now index_ends.now labels.now label_attributes.now label_count.new label_starts.now label_ends.now attributes.now attribute_count.new attribute_starts.now attribute_ends.now) ≡ exported_call words.now [] (inc_spec (point_store (store_in words.now) (held store.now last_known_shingle.now reference_count.old location.now index_starts.now index_ends.now labels.now label_attributes.now label_count.old label_starts.now label_ends.now attributes.now attribute_count.old attribute_starts.now attribute_ends.now)) index label) }
{
    let s = store_in(words);
    let change = Change {
        index: PointIndex(index),
        label: LabelIndex(label),
    };
    let mut points = PointRaising {
        reference_count,
        location,
        index_starts,
        index_ends,
    };
    let mut lent = LabelRaising {
        labels,
        label_attributes,
        label_count,
        label_starts,
        label_ends,
        attributes,
        attribute_count,
        attribute_starts,
        attribute_ends,
    };
    let answer = store_counts::inc(s, store, last_known_shingle, &mut points, &mut lent, change);
    done_number(answer)
}

#[unsafe(no_mangle)]
pub extern "C" fn ps_dec(
    words: &mut [u64],
    store: &[u32],
    last_known_shingle: &[u32],
    reference_count: &mut [u16],
    location: &mut [u16],
    index_starts: &mut [u16],
    index_ends: &mut [u16],
    labels: &[u8],
    label_attributes: &[u16],
    label_count: &mut [u16],
    label_starts: &mut [u16],
    label_ends: &mut [u16],
    attributes: &[u8],
    attribute_count: &mut [u32],
    attribute_starts: &mut [u16],
    attribute_ends: &mut [u16],
    index: usize,
    label: usize,
) -> u64
    ensures { exported result words.new [] (held store.now last_known_shingle.now reference_count.new location.new index_starts.new index_ends.new labels.now label_attributes.now label_count.new label_starts.new label_ends.new attributes.now attribute_count.new attribute_starts.new attribute_ends.new) ≡ exported_call words.old [] (dec_spec (point_store (store_in words.old) (held store.now last_known_shingle.now reference_count.old location.old index_starts.old index_ends.old labels.now label_attributes.now label_count.old label_starts.old label_ends.old attributes.now attribute_count.old attribute_starts.old attribute_ends.old)) index label) }
{
    let mut s = store_in(words);
    let change = Change {
        index: PointIndex(index),
        label: LabelIndex(label),
    };
    let mut points = PointTables {
        reference_count,
        location,
        index_starts,
        index_ends,
    };
    let mut lent = LabelLowering {
        labels,
        label_attributes,
        label_count,
        label_starts,
        label_ends,
        attributes,
        attribute_count,
        attribute_starts,
        attribute_ends,
    };
    let answer = store_counts::dec(
        &mut s,
        store,
        last_known_shingle,
        &mut points,
        &mut lent,
        change,
    );
    store_out(words, s);
    done_number(answer)
}

// Over the caller's own records. All else is in the functions that it calls.
#[unsafe(no_mangle)]
pub extern "C" fn ps_adjust(
    words: &mut [u64],
    store: &mut [u32],
    last_known_shingle: &mut [u32],
    reference_count: &mut [u16],
    location: &mut [u16],
    index_starts: &mut [u16],
    index_ends: &mut [u16],
    labels: &mut [u8],
    label_attributes: &mut [u16],
    label_count: &mut [u16],
    label_starts: &mut [u16],
    label_ends: &mut [u16],
    attributes: &mut [u8],
    attribute_count: &mut [u32],
    attribute_starts: &mut [u16],
    attribute_ends: &mut [u16],
    pairs: &[Pair],
    pairs_before: &mut u64,
) -> u64
    ensures { exported result words.new (pairs_before.new ∷ []) (held store.new last_known_shingle.new reference_count.new location.new index_starts.new index_ends.new labels.new label_attributes.new label_count.new label_starts.new label_ends.new attributes.new attribute_count.new attribute_starts.new attribute_ends.new) ≡ exported_call words.old (pairs_before.old ∷ []) (adjust_spec (point_store (store_in words.old) (held store.old last_known_shingle.old reference_count.old location.old index_starts.old index_ends.old labels.old label_attributes.old label_count.old label_starts.old label_ends.old attributes.old attribute_count.old attribute_starts.old attribute_ends.old)) (pairings_of pairs.now)) }
{
    let mut s = store_in(words);
    let mut points = PointTables {
        reference_count,
        location,
        index_starts,
        index_ends,
    };
    let mut lent = LabelLowering {
        labels,
        label_attributes,
        label_count,
        label_starts,
        label_ends,
        attributes,
        attribute_count,
        attribute_starts,
        attribute_ends,
    };
    let answer = store_adjust_pairs::adjust_count(
        &mut s,
        store,
        last_known_shingle,
        &mut points,
        &mut lent,
        pairs,
    );
    store_out(words, s);
    adjusted_out(answer, pairs_before)
}

#[unsafe(no_mangle)]
pub extern "C" fn ps_count(
    words: &[u64],
    store: &[u32],
    last_known_shingle: &[u32],
    reference_count: &[u16],
    location: &[u16],
    index_starts: &[u16],
    index_ends: &[u16],
    labels: &[u8],
    label_attributes: &[u16],
    label_count: &[u16],
    label_starts: &[u16],
    label_ends: &[u16],
    attributes: &[u8],
    attribute_count: &[u32],
    attribute_starts: &[u16],
    attribute_ends: &[u16],
    index: usize,
    count: &mut u64,
) -> u64
    ensures { read result (count.new ∷ []) ≡ exported_reading (count.old ∷ []) (count_spec (point_store (store_in words.now) (held store.now last_known_shingle.now reference_count.now location.now index_starts.now index_ends.now labels.now label_attributes.now label_count.now label_starts.now label_ends.now attributes.now attribute_count.now attribute_starts.now attribute_ends.now)) index) }
{
    let s = store_in(words);
    let index = PointIndex(index);
    let tables = Tables::new(
        reference_count,
        location,
        index_starts,
        index_ends,
        labels,
        label_attributes,
        label_count,
        label_starts,
        label_ends,
        attributes,
        attribute_count,
        attribute_starts,
        attribute_ends,
    );
    let answer = store_counts::count(s, store, last_known_shingle, tables, index);
    number_out(answer, count)
}

#[unsafe(no_mangle)]
pub extern "C" fn ps_live_number(
    words: &[u64],
    store: &[u32],
    last_known_shingle: &[u32],
    reference_count: &[u16],
    location: &[u16],
    index_starts: &[u16],
    index_ends: &[u16],
    labels: &[u8],
    label_attributes: &[u16],
    label_count: &[u16],
    label_starts: &[u16],
    label_ends: &[u16],
    attributes: &[u8],
    attribute_count: &[u32],
    attribute_starts: &[u16],
    attribute_ends: &[u16],
    number: &mut u64,
) -> u64
    ensures { read result (number.new ∷ []) ≡ exported_reading (number.old ∷ []) (live_number_spec (point_store (store_in words.now) (held store.now last_known_shingle.now reference_count.now location.now index_starts.now index_ends.now labels.now label_attributes.now label_count.now label_starts.now label_ends.now attributes.now attribute_count.now attribute_starts.now attribute_ends.now))) }
{
    let s = store_in(words);
    let tables = Tables::new(
        reference_count,
        location,
        index_starts,
        index_ends,
        labels,
        label_attributes,
        label_count,
        label_starts,
        label_ends,
        attributes,
        attribute_count,
        attribute_starts,
        attribute_ends,
    );
    let answer = store_counts::live_number(s, store, last_known_shingle, tables);
    number_out(answer, number)
}

#[unsafe(no_mangle)]
pub extern "C" fn ps_free_start(
    words: &[u64],
    store: &[u32],
    last_known_shingle: &[u32],
    reference_count: &[u16],
    location: &[u16],
    index_starts: &[u16],
    index_ends: &[u16],
    labels: &[u8],
    label_attributes: &[u16],
    label_count: &[u16],
    label_starts: &[u16],
    label_ends: &[u16],
    attributes: &[u8],
    attribute_count: &[u32],
    attribute_starts: &[u16],
    attribute_ends: &[u16],
    number: &mut u64,
) -> u64
    ensures { read result (number.new ∷ []) ≡ exported_reading (number.old ∷ []) (free_start_spec (point_store (store_in words.now) (held store.now last_known_shingle.now reference_count.now location.now index_starts.now index_ends.now labels.now label_attributes.now label_count.now label_starts.now label_ends.now attributes.now attribute_count.now attribute_starts.now attribute_ends.now))) }
{
    let s = store_in(words);
    let tables = Tables::new(
        reference_count,
        location,
        index_starts,
        index_ends,
        labels,
        label_attributes,
        label_count,
        label_starts,
        label_ends,
        attributes,
        attribute_count,
        attribute_starts,
        attribute_ends,
    );
    let answer = store_counts::free_start(s, store, last_known_shingle, tables);
    number_out(answer, number)
}
