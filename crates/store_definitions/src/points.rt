// The points' half of the lent tables as a call gets it that takes or releases an index, and an opening.
// Kept: two forms, since the C interface lends inc as `&mut` only the counts.
ghost use Rattle.std.specs.Prelude.{ℕ, List, ◌≡◌};
ghost use Rattle.labels.specs.Lent.{lists_lent};
ghost use Rattle.store_definitions.specs.Lent.{lent, memory, points_lent};

use crate::tables::Tables;
use labels::LabelTables;

#[derive(Drop)]
pub struct PointTables<'a> {
    pub reference_count: &'a mut [u16],
    pub location: &'a mut [u16],
    pub index_starts: &'a mut [u16],
    pub index_ends: &'a mut [u16],
}

impl<'a> PointTables<'a> {
    pub fn read<'b>(&'b self, label_tables: LabelTables<'b>) -> Tables<'b>
        ensures { (store window : List ℕ) → lent store window result ≡ memory store window (points_lent self.now) (lists_lent label_tables.entry) }
    {
        Tables {
            reference_count: self.reference_count,
            location: self.location,
            index_starts: self.index_starts,
            index_ends: self.index_ends,
            label_tables,
        }
    }
}
