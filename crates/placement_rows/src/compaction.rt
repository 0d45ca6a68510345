// Compaction. The points are ordered by place through a local table from place to index, which has the size that the free start asks
// for: no sorting, and no more stack than needed.
ghost use Rattle.std.specs.Prelude.{◌≡◌, ◌/◌, ◌≤◌, length, take};
ghost use Rattle.placement.specs.Compaction.{compacted};
ghost use Rattle.placement_rows.specs.Compactable.{Compactable, compacted_table, layout};
ghost use Rattle.placement_rows.specs.OnePass.{Tabled};

use super::NO_INDEX;
use super::index_table::index_places;
use super::one_pass::scan_places;
use super::shape::Shape;
use terms::FloatBits;

// Kept: elements, places, shape and free start stand side by side in five functions: two callers would each put a struct together for one call.
// `index_at` has an entry for every place that a point can have.
fn compact_with(
    index_at: &mut [u16],
    store: &mut [FloatBits],
    location: &mut [u16],
    shape: Shape,
    start_free_region: usize,
) -> usize
    requires { Tabled shape.dimensions shape.base location.old index_at.old start_free_region (length store.old) }
    ensures { layout store.new location.new result ≡ compacted 0 shape.dimensions shape.base shape.rotation store.old location.old start_free_region }
{
    index_places(location, index_at);
    scan_places(store, location, index_at, shape, start_free_region)
}

// The table is local, with room for PLACES places.
fn compact_sized<const PLACES: usize>(
    store: &mut [FloatBits],
    location: &mut [u16],
    shape: Shape,
    start_free_region: usize,
) -> usize
    requires { Compactable shape.dimensions shape.base location.old start_free_region (length store.old) × (start_free_region / shape.base ≤ PLACES) × (PLACES ≤ 65535) }
    ensures { layout store.new location.new result ≡ compacted 0 shape.dimensions shape.base shape.rotation store.old location.old start_free_region }
{
    let mut index_at = [NO_INDEX; PLACES];
    compact_with(&mut index_at, store, location, shape, start_free_region)
}

// Kept: with no heap a table's size is fixed where it is compiled, so each of the four sizes has a call of its own.
fn compact_whole(
    store: &mut [FloatBits],
    location: &mut [u16],
    shape: Shape,
    start_free_region: usize,
) -> usize
    requires { Compactable shape.dimensions shape.base location.old start_free_region (length store.old) }
    ensures { layout store.new location.new result ≡ compacted 0 shape.dimensions shape.base shape.rotation store.old location.old start_free_region }
{
    let places = start_free_region / shape.base;
    if places <= 256 {
        return compact_sized::<256>(store, location, shape, start_free_region);
    }
    if places <= 1024 {
        return compact_sized::<1024>(store, location, shape, start_free_region);
    }
    if places <= 4096 {
        return compact_sized::<4096>(store, location, shape, start_free_region);
    }
    compact_sized::<16384>(store, location, shape, start_free_region)
}

// Answers the new free start. Only the first `table_length` entries of the table are points.
// Kept: the length stands beside the table, since the contract says of what lies past it that it is left as it is.
#[tactic(auto, unfolding(crate::specs::Compactable::compacted_table))]
pub fn compact(
    store: &mut [FloatBits],
    location: &mut [u16],
    table_length: usize,
    shape: Shape,
    start_free_region: usize,
) -> usize
    requires { (table_length ≤ length location.old) × Compactable shape.dimensions shape.base (take table_length location.old) start_free_region (length store.old) }
    ensures { layout store.new location.new result ≡ compacted_table shape.dimensions shape.base shape.rotation table_length store.old location.old start_free_region }
{
    compact_whole(
        store,
        &mut location[..table_length],
        shape,
        start_free_region,
    )
}
