// The record's own clauses, its table of classes among them, and whether enough memory is lent.
ghost use Rattle.std.specs.Prelude.{◌≡◌, ◌<◌, ℕ, length, get_or};
ghost use Rattle.store_check.specs.CheckLaws.{record_test, numbers_test};

use crate::bounds::{bounds_hold, free_start_well};
use class_table::table_allowed;
use store_definitions::Store;

// How many entries the lent slices of the rows and of the points have.
#[derive(Clone, Copy)]
pub struct Lengths {
    pub floats: usize,
    pub window: usize,
    pub counts: usize,
    pub places: usize,
    pub starts: usize,
    pub ends: usize,
}

// That a count has sixteen bits is known here, where the slice is a parameter, and no longer of a field that holds it.
pub fn lengths_of(
    floats: usize,
    window: usize,
    reference_count: &[u16],
    location: &[u16],
    index_starts: &[u16],
    index_ends: &[u16],
) -> Lengths
    ensures lengths { result ≡ record { floats = floats; window = window; counts = length reference_count.now; places = length location.now; starts = length index_starts.now; ends = length index_ends.now } }
    ensures fit { (i : ℕ) → get_or reference_count.now i 0 < 65536 }
{
    Lengths {
        floats,
        window,
        counts: reference_count.len(),
        places: location.len(),
        starts: index_starts.len(),
        ends: index_ends.len(),
    }
}

// All but the table of classes.
pub fn numbers_well(s: Store, lent: Lengths) -> bool
    ensures { result ≡ numbers_test s lent.floats lent.window lent.counts lent.places lent.starts lent.ends }
{
    let dimensions = s.dimensions;
    let capacity = s.capacity;
    if bounds_hold(dimensions, s.shingle_size, capacity) {
        let floats = capacity * dimensions;
        let rows = (floats <= lent.floats) & (dimensions <= lent.window);
        let entries = (capacity <= lent.counts) & (capacity <= lent.places);
        let stack = (capacity <= lent.starts) & (capacity <= lent.ends);
        let within = (s.index_manager.capacity <= capacity) & (s.store_length <= floats);
        let started = free_start_well(s);
        // Document 01: 'The sequence is at most 4,294,967,295.' Every `u32` is, and the compiler leaves it out.
        let numbered = (s.next_sequence_index <= u32::MAX) & started;
        return rows & (entries & (stack & (within & numbered)));
    }
    false
}

// Put into its callers, of which a hold's check is one: as a call it takes a quarter of a hold's add.
#[inline(always)]
pub fn record_well(s: Store, lent: Lengths) -> bool
    ensures { result ≡ record_test s lent.floats lent.window lent.counts lent.places lent.starts lent.ends }
{
    let classes = s.classes;
    let table = table_allowed(classes);
    let numbers = numbers_well(s, lent);
    table & numbers
}
