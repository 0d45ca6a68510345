// A table from place to index.
ghost use Rattle.std.specs.Prelude.{◌≡◌, ℕ, ◌<◌, ◌≤◌, length, replicate, slice_index_or};
ghost use Rattle.placement.specs.Places.{Live};
ghost use Rattle.placement_rows.specs.IndexTable.{Indexed};

use terms::EMPTY_PLACE;

// Each index is entered at its place, in a table that has no index in it.
pub fn index_places(location: &[u16], index_at: &mut [u16])
    requires few { (length location.now < 65535) × (length index_at.old ≤ 65535) }
    requires none { index_at.old ≡ replicate (length index_at.old) 65535 }
    requires inside { (i : ℕ) → Live location.now i → slice_index_or location.now i 65535 < length index_at.old }
    ensures { Indexed location.now index_at.new (length location.now) }
{
    for (i, place) in location.iter().enumerate() {
        if *place != EMPTY_PLACE {
            index_at[*place as usize] = i as u16;
        }
    }
}
