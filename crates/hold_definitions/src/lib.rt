// A sliding hold over a store of its own: the newest kept points, as many as the hold is wide, and nothing older. The types of its
// interface are here, what every call does is in specs/; the code stands in the crate above.
#![tactic(auto)]

ghost use Rattle.std.specs.Prelude.{◌≡◌};
ghost use Rattle.hold_definitions.specs.WellFormed.{width_allowed};

use store_definitions::Store;

// The record of a hold. Its store's memory is lent beside it, with two tables more: the held point indices and their label
// indices, oldest first.
#[derive(Clone, Copy)]
pub struct Hold {
    pub store: Store,
    // How many points are held at most.
    pub width: usize,
    // How many entries of the two tables are in use.
    pub held: usize,
}

#[tactic(auto, unfolding(crate::specs::WellFormed::width_allowed))]
pub fn width_allowed(width: usize, capacity: usize) -> bool
    ensures { result ≡ width_allowed width capacity }
{
    (1 <= width) & (width < capacity)
}
