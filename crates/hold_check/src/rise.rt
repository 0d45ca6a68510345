// Along a hold's list places rise: an add lays its row behind the others, and compaction keeps their order. One pass without marks then
// shows that the list names no index twice and no two at one place.
// Kept: that a table has at most 1,024 entries is one comparison in each contract: a record of it would be longer.
ghost use Rattle.std.specs.Prelude.{◌≡◌, ◌+◌, ◌-◌, ◌<◌, ◌≤◌, true, length, if◌then◌else◌, nat_le, nat_lt, slice_index};
ghost use Rattle.terms.specs.Below.{every_below, count_below};
ghost use Rattle.hold_check.specs.Rising.{Rises};
ghost use Rattle.hold_check.specs.Runs.{turned, runs_listed, falls, falls_before, RunsRise};

// Whether every entry is below n.
// Kept: vector code, where `all` branches at each entry; a fold is no plainer: the same test in a closure, and an answer for the invariant's line.
#[tactic(auto, using(crate::proofs::TestLaws::every_more), unfolding(terms::specs::Below::every_below))]
fn listed_below(n: u16, list: &[u16]) -> bool
    ensures { result ≡ every_below (length list.now) (λ k. nat_lt (slice_index list.now k) n) }
{
    let mut ok = true;
    for entry in list {
        ok &= *entry < n;
    }
    ok
}

// Whether the entries are found at places that rise. Falls are counted, so that the loop has no branch.
// Kept: no plainer: `next` comes from the entry before, and pairs of entries would look each place up twice.
#[tactic(auto, using(crate::specs::Rising::rises_none, crate::proofs::RiseLaws::listed_at))]
fn places_rise(location: &[u16], list: &[u16]) -> bool
    requires { length location.now ≤ 1024 }
    ensures { result ≡ true → Rises (length location.now) 65535 location.now list.now }
{
    let mut falls: usize = 0;
    let mut next: usize = 0;
    if listed_below(location.len() as u16, list) {
        for entry in list {
            let place = location[*entry as usize] as usize;
            let fall = place < next;
            falls += fall as usize;
            next = place + 1;
        }
        return (falls == 0) & (next <= 65535);
    }
    false
}

// The index that `at` names where indices are counted on from 0 after `end`.
#[tactic(auto, using(crate::specs::Runs::turned_below, crate::specs::Runs::turned_on))]
fn turn(end: u16, at: u16) -> u16
    ensures { result ≡ turned end at }
{
    if at < end {
        return at;
    }
    at - end
}

// Whether the entries are first, first + 1, .. below `end`, and then 0, 1, ..
// Kept: vector code, where `all` branches at each entry; a fold is no plainer: the same test in a closure, and an answer for the invariant's line.
#[tactic(auto, using(crate::proofs::TestLaws::every_more), unfolding(crate::specs::Runs::runs_listed, terms::specs::Below::every_below))]
fn runs_listed(first: usize, end: u16, list: &[u16]) -> bool
    requires { (first ≤ 1024) × (length list.now ≤ 1024) }
    ensures { result ≡ runs_listed (length list.now) first end list.now }
{
    let mut ok = true;
    for k in 0..list.len() {
        ok &= list[k] == turn(end, (first + k) as u16);
    }
    ok
}

// How many places are not below the next. Counted in sixteen bits, so that eight are compared at a time.
// Kept: compiled to vector code, as the machine code shows; `filter` and `count` would count in 64 bits.
#[tactic(auto, using(crate::proofs::RiseLaws::count_more, crate::proofs::RiseLaws::fall_most, terms::specs::Below::count_le), unfolding(terms::specs::Below::count_below, terms::specs::Below::sum_below))]
fn places_fall(location: &[u16]) -> u16
    requires { length location.now ≤ 1024 }
    ensures { result ≡ count_below (length location.now - 1) (falls location.now) }
{
    let mut count: u16 = 0;
    for pair in location.windows(2) {
        let fall = pair[1] <= pair[0];
        count += fall as u16;
    }
    count
}

// Whether the place of the first entry is not above the one before it in the table.
fn falls_before(first: usize, location: &[u16]) -> bool
    requires { first < length location.now }
    ensures { result ≡ falls_before first location.now }
{
    if 1 <= first {
        return location[first] <= location[first - 1];
    }
    false
}

// Where the first run ends if the list is one run or two.
fn runs_end(held: usize, first: usize, last: usize) -> usize
    requires { (held ≤ 1024) × ((first ≤ 65535) × (last ≤ 65535)) }
    ensures { result ≡ (if nat_le first last then last + 1 else first + held - (last + 1)) }
{
    if first <= last {
        return last + 1;
    }
    first + held - (last + 1)
}

// Whether the list is at most two runs of indices, the second from 0, and places rise along it. So it is where each add took the index
// that the one before gave up; then no place is looked up through the list.
pub fn runs_rise(location: &[u16], list: &[u16]) -> bool
    requires { length location.now ≤ 1024 }
    ensures { result ≡ true → RunsRise (length location.now) (length list.now) location.now list.now }
{
    let n = location.len();
    let held = list.len();
    if (1 <= held) & (held <= n) {
        let first = list[0] as usize;
        let last = list[held - 1] as usize;
        let end = runs_end(held, first, last);
        if ((first < end) & (last < end)) & ((held <= end) & (end <= n)) {
            let listed = runs_listed(first, end as u16, list);
            let count = places_fall(&location[..end]);
            let fall = falls_before(first, location);
            let seam = (first + held <= end) | (location[end - 1] < location[0]);
            return (listed & (count == fall as u16)) & (seam & (location[last] < 65535));
        }
    }
    false
}

// Whether the list is as long as there are live points, and places rise along it.
pub fn live_rise(live: usize, location: &[u16], list: &[u16]) -> bool
    requires { length location.now ≤ 1024 }
    ensures { result ≡ true → (length list.now ≡ live) × Rises (length location.now) 65535 location.now list.now }
{
    if list.len() == live {
        return places_rise(location, list);
    }
    false
}
