// The shape and the record's own numbers.
ghost use Rattle.std.specs.Prelude.{true, ◌≡◌};
ghost use Rattle.store_definitions.specs.Bounds.{bounds_hold};
ghost use Rattle.store_definitions.specs.WellFormed.{free_start_well};

use store_definitions::Store;

pub fn bounds_hold(dimensions: usize, shingle_size: usize, capacity: usize) -> bool
    ensures { result ≡ bounds_hold dimensions shingle_size capacity }
{
    let large_enough = (1 <= dimensions) & (1 <= shingle_size) & (1 <= capacity);
    if large_enough & (dimensions <= 64) & (capacity <= 1024) {
        return (dimensions % shingle_size == 0) & (capacity * dimensions <= 16384);
    }
    false
}

// Of a store whose bounds hold.
pub fn free_start_well(s: Store) -> bool
    requires { bounds_hold s.dimensions s.shingle_size s.capacity ≡ true }
    ensures { result ≡ free_start_well s }
{
    let free = s.start_free_region;
    let started = (free == 0) | (s.dimensions <= free);
    (free % s.base() == 0) & (started & (free <= s.store_length))
}
