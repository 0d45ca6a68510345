// The well-formedness check of a store: one linear pass over its stacks, points, labels and slots with local marks. It is the
// price of every call. Of the floats it sees how many are lent, and nothing else.
#![tactic(auto)]

ghost use Rattle.std.specs.Prelude.{◌≡◌};
ghost use Rattle.store_definitions.specs.Memory.{point_store};
ghost use Rattle.store_check.specs.Checked.{checked};
ghost use Rattle.store_check.specs.Tables.{tables_lent};

mod bounds;
mod points;
mod record;
mod table;

pub use bounds::{bounds_hold, free_start_well};
use label_check::labels_well_formed;
use labels::{LabelTables, LabelsFree};
pub use points::places_distinct;
pub use record::{Lengths, lengths_of, numbers_well, record_well};
use store_definitions::{Store, Tables};
use table::points_well;
pub use table::table_well;

// What the check counts: the live points and, with labels on, the free label indices and slots.
#[derive(Clone, Copy)]
pub struct Figures {
    pub live: usize,
    pub free: LabelsFree,
}

// What is counted of a store that is well-formed.
pub fn check(s: Store, floats: usize, window: usize, tables: Tables) -> Option<Figures>
    ensures { result ≡ checked (point_store s (tables_lent floats window tables.entry)) }
{
    let lent = lengths_of(
        floats,
        window,
        tables.reference_count,
        tables.location,
        tables.index_starts,
        tables.index_ends,
    );
    if !record_well(s, lent) {
        return None;
    }
    let live = points_well(
        s,
        tables.reference_count,
        tables.location,
        tables.index_starts,
        tables.index_ends,
    )?;
    let labels = tables.label_tables;
    // Slice by slice: a copy of the whole would be a call of `memcpy`, which the archive needs for nothing else.
    let label_tables = LabelTables {
        labels: labels.labels,
        label_attributes: labels.label_attributes,
        label_count: labels.label_count,
        label_starts: labels.label_starts,
        label_ends: labels.label_ends,
        attributes: labels.attributes,
        attribute_count: labels.attribute_count,
        attribute_starts: labels.attribute_starts,
        attribute_ends: labels.attribute_ends,
    };
    let free = labels_well_formed(
        s.store_labels,
        &s.classes,
        s.capacity,
        s.label_managers(),
        label_tables,
    )?;
    Some(Figures { live, free })
}
