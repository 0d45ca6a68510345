// The points' half of the lent tables as a call gets it that counts a point once more.
ghost use Rattle.std.specs.Prelude.{ℕ, List, ◌≡◌};
ghost use Rattle.labels.specs.Lent.{lists_lent};
ghost use Rattle.store_definitions.specs.Lent.{lent, memory, points_raising};

use crate::tables::Tables;
use labels::LabelTables;

#[derive(Drop)]
pub struct PointRaising<'a> {
    pub reference_count: &'a mut [u16],
    pub location: &'a [u16],
    pub index_starts: &'a [u16],
    pub index_ends: &'a [u16],
}

impl<'a> PointRaising<'a> {
    pub fn read<'b>(&'b self, label_tables: LabelTables<'b>) -> Tables<'b>
        ensures { (store window : List ℕ) → lent store window result ≡ memory store window (points_raising self.now) (lists_lent label_tables.entry) }
    {
        Tables {
            reference_count: self.reference_count,
            location: self.location,
            index_starts: self.index_starts,
            index_ends: self.index_ends,
            label_tables,
        }
    }
}
