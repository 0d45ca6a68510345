// The points' half: the stack of free indices, the counts and the places.
ghost use Rattle.std.specs.Prelude.{◌≡◌, ◌≤◌, ◌<◌, length};
ghost use Rattle.store_definitions.specs.WellFormed.{places_distinct};
ghost use Rattle.store_check.specs.Entries.{place_limit, entry_well, entries_well, place_met, place_marked, NoneMarked, PlacesBelow};

use terms::EMPTY_PLACE;

// The first place whose row would end past the free start: a row ends by it exactly where its place is below the limit.
pub fn place_limit(base: usize, dims: usize, free: usize) -> u16
    requires { (0 < base) × (free ≤ 16384) }
    ensures { result ≡ place_limit base dims free }
{
    if free < dims {
        return 0;
    }
    ((free - dims) / base + 1) as u16
}

// Without a branch, so that the pass over the entries is compiled to vector instructions.
fn entry_well(limit: u16, mark: u8, count: u16, place: u16) -> bool
    ensures { result ≡ entry_well limit mark count place }
{
    let freed = mark == 1;
    let dead = count == 0;
    let empty = place == EMPTY_PLACE;
    let low = place < limit;
    (freed == dead) & ((dead == empty) & (empty | low))
}

// No early exit: every entry is read.
// Kept: no plainer: with the counts' part in place of n the contract has one clause less, and its caller's proof a law of `take` more.
pub fn entries_well(
    n: usize,
    limit: u16,
    marks: &[u8],
    reference_count: &[u16],
    location: &[u16],
) -> bool
    requires { (n ≤ length marks.now) × ((n ≤ length reference_count.now) × (n ≤ length location.now)) }
    ensures { result ≡ entries_well n limit marks.now reference_count.now location.now }
{
    let mut ok = true;
    // Kept: vector code; `all` over the three parts, zipped, takes 2,987 ns for 230 at 1,024 entries; a fold is no plainer: the same test in a closure, and an answer for the invariant's line.
    for i in 0..n {
        ok &= entry_well(limit, marks[i], reference_count[i], location[i]);
    }
    ok
}

// Marks a place that is not empty, and says whether it is marked already.
fn mark_place(place: u16, marks: &mut [bool]) -> bool
    requires { (place ≡ 65535 → ⊥) → place < length marks.old }
    ensures { (result ≡ place_met place marks.old) × (marks.new ≡ place_marked place marks.old) }
{
    if place == EMPTY_PLACE {
        return false;
    }
    let at = place as usize;
    let met = marks[at];
    marks[at] = true;
    met
}

// Whether the live places are distinct: each is marked, and none may be marked already.
fn mark_places(location: &[u16], marks: &mut [bool]) -> bool
    requires { NoneMarked marks.old × PlacesBelow (length marks.old) (length location.now) location.now }
    ensures { result ≡ places_distinct (length location.now) location.now }
{
    let mut met = false;
    // Kept: each turn writes a mark; `any` with a closure that writes is no plainer, and takes 1,022 ns for 896 at 1,024 places.
    for place in location {
        met |= mark_place(*place, marks);
    }
    !met
}

// With a table of N marks.
fn distinct_in<const N: usize>(location: &[u16]) -> bool
    requires { (N ≤ 16384) × PlacesBelow N (length location.now) location.now }
    ensures { result ≡ places_distinct (length location.now) location.now }
{
    let mut marks = [false; N];
    mark_places(location, &mut marks)
}

// Whether the live places are distinct, with a table of marks no larger than the places ask for.
// Kept: with no heap a table's size is fixed where it is compiled, so each of the four sizes has a call of its own.
pub fn places_distinct(places: usize, location: &[u16]) -> bool
    requires { (places ≤ 16384) × PlacesBelow places (length location.now) location.now }
    ensures { result ≡ places_distinct (length location.now) location.now }
{
    if places <= 256 {
        return distinct_in::<256>(location);
    }
    if places <= 1024 {
        return distinct_in::<1024>(location);
    }
    if places <= 4096 {
        return distinct_in::<4096>(location);
    }
    distinct_in::<16384>(location)
}
