// The check of a hold's store: as `store_check` does it, but that a hold as its own calls leave it needs no marks, and that places which rise
// along the list are distinct.
ghost use Rattle.std.specs.Prelude.{◌≡◌, ◌≤◌, true, ◌&&◌, length, take, is_some, IfSome};
ghost use Rattle.store_definitions.specs.Memory.{point_store};
ghost use Rattle.store_definitions.specs.Parts.{table_length};
ghost use Rattle.store_definitions.specs.WellFormed.{places_distinct};
ghost use Rattle.store_check.specs.Entries.{counts_live, PlacesBelow};
ghost use Rattle.store_check.specs.Checked.{checked};
ghost use Rattle.store_check.specs.PointsTest.{points_test, PointsReady};
ghost use Rattle.hold_check.specs.Checked.{figures_found};
ghost use Rattle.hold_check.specs.Rising.{single_counts, ListKnown};
ghost use Rattle.store_check.specs.Tables.{tables_lent};

use crate::list::counts_single;
use crate::rise::live_rise;
use crate::steady::steady;
use label_check::labels_well_formed;
use labels::LabelsFree;
use store_check::{Figures, lengths_of, places_distinct, record_well, table_well};
use store_definitions::{Store, Tables};

// What is found of a store that is well-formed: what was counted, and whether the list is known to name each live point once, each with
// count 1.
#[derive(Clone, Copy)]
pub struct StoreListed {
    pub figures: Figures,
    pub listed: bool,
}

// The same of the points alone.
#[derive(Clone, Copy)]
struct PointsListed {
    live: usize,
    listed: bool,
}

// Places that rise are distinct; others are held against each other with marks.
fn distinct(rises: bool, limit: usize, location: &[u16]) -> bool
    requires { ((rises ≡ true → places_distinct (length location.now) location.now ≡ true)) × ((limit ≤ 16384) × PlacesBelow limit (length location.now) location.now) }
    ensures { result ≡ places_distinct (length location.now) location.now }
{
    if rises {
        return true;
    }
    places_distinct(limit, location)
}

// Where places rise along the list only the counts are left to ask.
fn rising_single(rises: bool, counts: &[u16]) -> bool
    ensures { result ≡ (rises && single_counts (length counts.now) counts.now) }
{
    if rises {
        return counts_single(counts);
    }
    false
}

#[tactic(auto, using(crate::proofs::SteadyLaws::table_most, crate::proofs::SteadyLaws::places_room, crate::proofs::PartLaws::sized, crate::proofs::StoreLaws::table_failed, crate::proofs::StoreLaws::distinct_failed))]
fn points_listed(
    s: Store,
    reference_count: &[u16],
    location: &[u16],
    index_starts: &[u16],
    index_ends: &[u16],
    list: &[u16],
) -> Option<PointsListed>
    requires { PointsReady s reference_count.now location.now }
    ensures { (is_some result ≡ points_test s reference_count.now location.now index_starts.now index_ends.now) × IfSome result (λ points. (points.live ≡ counts_live (table_length s) reference_count.now) × ListKnown points.live (take (table_length s) reference_count.now) list.now points.listed) }
{
    if steady(s, reference_count, location, index_starts, index_ends, list) {
        return Some(PointsListed {
            live: list.len(),
            listed: true,
        });
    }
    let table = table_well(s, reference_count, location, index_starts, index_ends)?;
    let n = s.index_manager.capacity;
    let places = &location[..n];
    let rises = live_rise(table.live, places, list);
    if distinct(rises, table.limit, places) {
        let listed = rising_single(rises, &reference_count[..n]);
        return Some(PointsListed {
            live: table.live,
            listed,
        });
    }
    None
}

// Kept: no plainer: `store_check::check` has other tests of the points, and one form would take them as a closure and its answer as a type.
#[tactic(auto, using(store_check::specs::CheckLaws::record_ready, crate::proofs::StoreLaws::record_failed, crate::proofs::StoreLaws::points_failed, crate::proofs::StoreLaws::labels_failed, crate::proofs::StoreLaws::all_found, crate::proofs::StoreLaws::labels_off))]
pub fn store_well(
    s: Store,
    floats: usize,
    window: usize,
    tables: Tables,
    list: &[u16],
) -> Option<StoreListed>
    ensures { (figures_found result ≡ checked (point_store s (tables_lent floats window tables.entry))) × IfSome result (λ store. ListKnown store.figures.live (take (table_length s) tables.entry.reference_count.now) list.now store.listed) }
{
    let lent = lengths_of(
        floats,
        window,
        tables.reference_count,
        tables.location,
        tables.index_starts,
        tables.index_ends,
    );
    if !record_well(s, lent) {
        return None;
    }
    let points = points_listed(
        s,
        tables.reference_count,
        tables.location,
        tables.index_starts,
        tables.index_ends,
        list,
    )?;
    // With labels off nothing is handed on: the slices of a call cost more than the call.
    if !s.store_labels {
        return Some(StoreListed {
            figures: Figures {
                live: points.live,
                free: LabelsFree {
                    labels: 0,
                    slots: 0,
                },
            },
            listed: points.listed,
        });
    }
    let free = labels_well_formed(
        s.store_labels,
        &s.classes,
        s.capacity,
        s.label_managers(),
        tables.label_tables,
    )?;
    Some(StoreListed {
        figures: Figures {
            live: points.live,
            free,
        },
        listed: points.listed,
    })
}
