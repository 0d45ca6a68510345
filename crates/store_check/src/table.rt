// The points' table: its manager and its entries, in one pass each, and then its places.
ghost use Rattle.std.specs.Bool.{then_some};
ghost use Rattle.std.specs.Prelude.{◌≡◌, ◌≤◌, length};
ghost use Rattle.interval_store_manager.specs.Marks.{Unmarked};
ghost use Rattle.store_check.specs.Entries.{counts_live};
ghost use Rattle.store_check.specs.PointsTest.{points_test, PointsReady, TableTold};
ghost use Rattle.store_definitions.specs.Parts.{table_length};

use crate::points::{entries_well, place_limit, places_distinct};
use interval_store_manager::mark_free;
use store_definitions::Store;

// What the pass finds of a table that is well-formed, before two places are held against each other: how many points are live, and a
// limit that every live place is below.
#[derive(Clone, Copy)]
pub struct TableChecked {
    pub live: usize,
    pub limit: usize,
}

// Kept: the four slices go one by one, in a hold's check too: `Tables` has nine more that no test here reads, and four alone would serve one call.
// With marks for the free indices.
fn marked_well(
    s: Store,
    reference_count: &[u16],
    location: &[u16],
    index_starts: &[u16],
    index_ends: &[u16],
    marks: &mut [u8],
) -> Option<TableChecked>
    requires { PointsReady s reference_count.now location.now × ((table_length s ≤ length marks.old) × Unmarked marks.old) }
    ensures { TableTold s reference_count.now location.now index_starts.now index_ends.now result }
{
    let manager = s.index_manager;
    let n = manager.capacity;
    let limit = place_limit(s.base(), s.dimensions, s.start_free_region);
    if let Some(free) = mark_free(manager, index_starts, index_ends, marks) {
        if entries_well(n, limit, marks, reference_count, location) {
            return Some(TableChecked {
                live: n - free,
                limit: limit as usize,
            });
        }
    }
    None
}

fn well_in<const N: usize>(
    s: Store,
    reference_count: &[u16],
    location: &[u16],
    index_starts: &[u16],
    index_ends: &[u16],
) -> Option<TableChecked>
    requires { (N ≤ 1024) × (PointsReady s reference_count.now location.now × (table_length s ≤ N)) }
    ensures { TableTold s reference_count.now location.now index_starts.now index_ends.now result }
{
    let mut marks = [0u8; N];
    marked_well(
        s,
        reference_count,
        location,
        index_starts,
        index_ends,
        &mut marks,
    )
}

// All of the points' half but that places are distinct, with a table of marks no larger than the indices ask for.
pub fn table_well(
    s: Store,
    reference_count: &[u16],
    location: &[u16],
    index_starts: &[u16],
    index_ends: &[u16],
) -> Option<TableChecked>
    requires { PointsReady s reference_count.now location.now }
    ensures { TableTold s reference_count.now location.now index_starts.now index_ends.now result }
{
    if s.index_manager.capacity <= 64 {
        return well_in::<64>(s, reference_count, location, index_starts, index_ends);
    }
    well_in::<1024>(s, reference_count, location, index_starts, index_ends)
}

// How many points are live, where their half is well-formed.
pub fn points_well(
    s: Store,
    reference_count: &[u16],
    location: &[u16],
    index_starts: &[u16],
    index_ends: &[u16],
) -> Option<usize>
    requires { PointsReady s reference_count.now location.now }
    ensures { result ≡ then_some (points_test s reference_count.now location.now index_starts.now index_ends.now) (counts_live (table_length s) reference_count.now) }
{
    let table = table_well(s, reference_count, location, index_starts, index_ends)?;
    let places = &location[..s.index_manager.capacity];
    places_distinct(table.limit, places).then_some(table.live)
}
