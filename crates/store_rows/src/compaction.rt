// Compaction of a store's rows.
ghost use Rattle.std.specs.Prelude.{◌≡◌};
ghost use Rattle.store_definitions.specs.Answers.{done_means, outcome};
ghost use Rattle.store_definitions.specs.Lent.{held};
ghost use Rattle.store_definitions.specs.Memory.{point_store};
ghost use Rattle.store_definitions.specs.Rows.{compact_spec};
ghost use Rattle.store_rows.specs.Compacting.{RowsReady, compacted_held, rows_held};

use placement_rows::Shape;
use store_check::check;
use store_definitions::{Store, Tables};
use terms::{FloatBits, Refusal};

#[tactic(auto, using(crate::specs::Compacting::held_compacted))]
pub fn compact_unchecked(s: &mut Store, store: &mut [FloatBits], location: &mut [u16])
    requires { RowsReady s.old store.old location.old }
    ensures { rows_held s.new store.new location.new ≡ compacted_held (rows_held s.old store.old location.old) }
{
    let manager = s.index_manager;
    let shape = Shape::new(s.dimensions, s.shingle_size, s.internal_rotation);
    s.start_free_region = placement_rows::compact(
        store,
        location,
        manager.capacity,
        shape,
        s.start_free_region,
    );
}

pub fn compact(
    s: &mut Store,
    store: &mut [FloatBits],
    last_known_shingle: &[FloatBits],
    reference_count: &[u16],
    location: &mut [u16],
    index_starts: &[u16],
    index_ends: &[u16],
    labels: &[u8],
    label_attributes: &[u16],
    label_count: &[u16],
    label_starts: &[u16],
    label_ends: &[u16],
    attributes: &[u8],
    attribute_count: &[u32],
    attribute_starts: &[u16],
    attribute_ends: &[u16],
) -> Result<(), Refusal>
    ensures { outcome (done_means result) (point_store s.new (held store.new last_known_shingle.now reference_count.now location.new index_starts.now index_ends.now labels.now label_attributes.now label_count.now label_starts.now label_ends.now attributes.now attribute_count.now attribute_starts.now attribute_ends.now)) ≡ compact_spec 0 (point_store s.old (held store.old last_known_shingle.now reference_count.now location.old index_starts.now index_ends.now labels.now label_attributes.now label_count.now label_starts.now label_ends.now attributes.now attribute_count.now attribute_starts.now attribute_ends.now)) }
{
    let tables = Tables::new(
        reference_count,
        location,
        index_starts,
        index_ends,
        labels,
        label_attributes,
        label_count,
        label_starts,
        label_ends,
        attributes,
        attribute_count,
        attribute_starts,
        attribute_ends,
    );
    check(*s, store.len(), last_known_shingle.len(), tables).ok_or(Refusal::IllFormed)?;
    compact_unchecked(s, store, location);
    Ok(())
}
