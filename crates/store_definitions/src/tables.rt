// The lent tables of a store: all that is lent but the floats and the window, which only what moves elements takes. A call that writes gets
// the points' half as `PointTables` or `PointRaising`, and the label half beside it, by what it writes there.
// Kept: floats, window, points and labels are parameters of their own: a struct that holds a second one is not known after a call, and a
// flat one would be a form for each call besides. So are floats, window and tables of a reading: each caller would put the three
// together for one call, and the check would take them apart, since it sees of floats and window how many there are.
ghost use Rattle.std.specs.Prelude.{ℕ, List, ◌≡◌};
ghost use Rattle.store_definitions.specs.Lent.{held, lent};

use labels::LabelTables;

// As a call that reads gets them.
#[derive(Clone, Copy)]
pub struct Tables<'a> {
    pub reference_count: &'a [u16],
    pub location: &'a [u16],
    pub index_starts: &'a [u16],
    pub index_ends: &'a [u16],
    pub label_tables: LabelTables<'a>,
}

impl<'a> Tables<'a> {
    // From the slices as C lends them, and for a call that writes only some: here all are lent for as long as the check reads them.
    pub fn new(
        reference_count: &'a [u16],
        location: &'a [u16],
        index_starts: &'a [u16],
        index_ends: &'a [u16],
        labels: &'a [u8],
        label_attributes: &'a [u16],
        label_count: &'a [u16],
        label_starts: &'a [u16],
        label_ends: &'a [u16],
        attributes: &'a [u8],
        attribute_count: &'a [u32],
        attribute_starts: &'a [u16],
        attribute_ends: &'a [u16],
    ) -> Tables<'a>
        ensures { (store window : List ℕ) → lent store window result ≡ held store window reference_count.now location.now index_starts.now index_ends.now labels.now label_attributes.now label_count.now label_starts.now label_ends.now attributes.now attribute_count.now attribute_starts.now attribute_ends.now }
    {
        let label_tables = LabelTables {
            labels,
            label_attributes,
            label_count,
            label_starts,
            label_ends,
            attributes,
            attribute_count,
            attribute_starts,
            attribute_ends,
        };
        Tables {
            reference_count,
            location,
            index_starts,
            index_ends,
            label_tables,
        }
    }
}
