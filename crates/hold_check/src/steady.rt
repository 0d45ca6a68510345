// A hold as its own calls leave it: one interval of free indices or two, and a list of one run of indices or two. Then nothing is
// marked: each entry of the points' table is held against the intervals, and the places against their neighbours.
// Kept: no plainer: that a table has at most 1,024 entries is one comparison in two contracts: a record of it would be longer.
ghost use Rattle.std.specs.Prelude.{◌≡◌, ◌+◌, ◌-◌, ◌*◌, ◌<◌, ◌≤◌, true, false, cond, ◌||◌, length, slice_index, IfSome};
ghost use Rattle.interval_store_manager.specs.Intervals.{inside};
ghost use Rattle.store_check.specs.PointsTest.{PointsReady};
ghost use Rattle.hold_check.specs.Steady.{pair_apart, PairOf, pair_size, entry_held, entries_held, Steady};

use crate::rise::runs_rise;
use interval_store_manager::lent_enough;
use store_definitions::Store;
use terms::EMPTY_PLACE;

// Two intervals of free indices, each as its start and how many more it holds, and how many indices they hold. A single one stands
// there twice.
#[derive(Clone, Copy)]
struct Pair {
    start: u16,
    more: u16,
    other: u16,
    further: u16,
    free: usize,
}

// Whether the intervals lie below n and share no index.
#[tactic(auto, unfolding(crate::specs::Steady::pair_apart))]
fn pair_apart(n: usize, count: usize, start: u16, end: u16, other: u16, last: u16) -> bool
    ensures { result ≡ pair_apart n count start end other last }
{
    let ordered = (start <= end) & (other <= last);
    let below = ((end as usize) < n) & ((last as usize) < n);
    let apart = (count == 1) | ((end < other) | (last < start));
    (ordered & below) & apart
}

#[tactic(auto, unfolding(crate::specs::Steady::pair_size))]
fn pair_size(count: usize, more: u16, further: u16) -> usize
    ensures { result ≡ pair_size count more further }
{
    if count == 1 {
        return more as usize + 1;
    }
    more as usize + further as usize + 2
}

// Kept: no plainer: what is shown of a stack (`Sound`) speaks of all that is lent, of which n entries may be used and `count` are.
#[tactic(auto, using(crate::proofs::SteadyLaws::pair_tested))]
fn pair_of(n: usize, count: usize, starts: &[u16], ends: &[u16]) -> Option<Pair>
    requires { ((1 ≤ count) × (count ≤ 2)) × ((count ≤ n) × ((n ≤ 1024) × ((n ≤ length starts.now) × (n ≤ length ends.now)))) }
    ensures { IfSome result (λ pair. PairOf n count starts.now ends.now pair.start pair.more pair.other pair.further pair.free) }
{
    let start = starts[0];
    let end = ends[0];
    let other = starts[count - 1];
    let last = ends[count - 1];
    if pair_apart(n, count, start, end, other, last) {
        let more = end - start;
        let further = last - other;
        return Some(Pair {
            start,
            more,
            other,
            further,
            free: pair_size(count, more, further),
        });
    }
    None
}

// Whether the interval holds the index: by one comparison, since a difference that wraps is larger than every interval.
#[tactic(auto, using(crate::proofs::SteadyLaws::within_is))]
fn within(at: u16, start: u16, more: u16) -> bool
    requires { start + more < 65536 }
    ensures { result ≡ inside start (start + more) at }
{
    std::num::wrapping_sub_u16(at, start) <= more
}

// A free index has count 0 and no place, any other count 1 and a place.
#[tactic(auto, using(crate::proofs::RiseLaws::fall_one), unfolding(crate::specs::Steady::entry_held))]
fn entry_held(free: bool, count: u16, place: u16) -> bool
    ensures { result ≡ entry_held free count place }
{
    let empty = place == EMPTY_PLACE;
    let single = count == !free as u16;
    single & (empty == free)
}

// No early exit: every entry is read.
// Kept: vector code, where `all` branches at each entry; a fold is no plainer: the same test in a closure, and an answer for the invariant's line.
#[tactic(auto, using(crate::proofs::SteadyLaws::entries_more), unfolding(crate::specs::Steady::entries_held, terms::specs::Below::every_below))]
fn entries_held(pair: Pair, counts: &[u16], location: &[u16]) -> bool
    requires { (length counts.now ≤ 1024) × (((pair.start + pair.more < 65536) × (pair.other + pair.further < 65536)) × (length counts.now ≤ length location.now)) }
    ensures { result ≡ entries_held (length counts.now) pair.start pair.more pair.other pair.further counts.now location.now }
{
    let mut ok = true;
    for i in 0..counts.len() {
        let at = i as u16;
        let first = within(at, pair.start, pair.more);
        let second = within(at, pair.other, pair.further);
        ok &= entry_held(first | second, counts[i], location[i]);
    }
    ok
}

// Whether the row of the newest entry ends by the free start: so do then the rows at lower places.
fn last_ends(base: usize, dimensions: usize, free: usize, location: &[u16], list: &[u16]) -> bool
    requires { (base ≤ 64) × (dimensions ≤ 64) }
    ensures { result ≡ true → slice_index location.now (slice_index list.now (length list.now - 1)) * base + dimensions ≤ free }
{
    let held = list.len();
    if 1 <= held {
        let last = list[held - 1] as usize;
        if last < location.len() {
            return location[last] as usize * base + dimensions <= free;
        }
    }
    false
}

// Whether the points' half is well-formed and the list names each live point once, each with count 1, seen in this way.
#[tactic(auto, using(interval_store_manager::specs::Sound::free_le_capacity, crate::proofs::SteadyLaws::few_tested, crate::proofs::SteadyLaws::table_most, crate::proofs::SteadyLaws::shingles))]
pub fn steady(
    s: Store,
    reference_count: &[u16],
    location: &[u16],
    index_starts: &[u16],
    index_ends: &[u16],
    list: &[u16],
) -> bool
    requires { PointsReady s reference_count.now location.now }
    ensures { result ≡ true → Steady s reference_count.now location.now index_starts.now index_ends.now (length list.now) list.now }
{
    let manager = s.index_manager;
    let n = manager.capacity;
    let count = manager.last_in_use;
    let lent = lent_enough(n, index_starts, index_ends);
    if lent & (((1 <= count) & (count <= 2)) & (count <= n)) {
        if let Some(pair) = pair_of(n, count, index_starts, index_ends) {
            let places = &location[..n];
            if n - pair.free == list.len()
                && entries_held(pair, &reference_count[..n], places)
                && runs_rise(places, list)
            {
                // Kept: no plainer: two answers would tell by its contract what `Store::base` gives.
                let base = s.dimensions / s.shingle_size;
                return last_ends(base, s.dimensions, s.start_free_region, location, list);
            }
        }
    }
    false
}
