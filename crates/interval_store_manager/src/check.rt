// Well-formedness of a manager in one linear pass: every free index is marked, and the marks are as many as the intervals'
// sizes add up to exactly where no two intervals share an index.
ghost use Rattle.std.specs.Prelude.{true, ◌≡◌, ℕ, ◌≤◌, ◌<◌, length, get_or};
ghost use Rattle.terms.specs.Below.{sum_below};
ghost use Rattle.interval_store_manager.specs.WellFormed.{capacity_allowed, lent_enough, well_formed};
ghost use Rattle.interval_store_manager.specs.Marks.{filled, Unmarked, Swept, free_checked, Marked};

use crate::IntervalStoreManager;

#[tactic(auto, unfolding(crate::specs::WellFormed::capacity_allowed))]
pub fn capacity_allowed(capacity: usize) -> bool
    ensures { result ≡ capacity_allowed capacity }
{
    IntervalStoreManager::LEAST_CAPACITY <= capacity
        && capacity <= IntervalStoreManager::LARGEST_CAPACITY
}

// Whether both slices have at least n entries.
#[tactic(auto, unfolding(crate::specs::WellFormed::lent_enough))]
pub fn lent_enough(n: usize, starts: &[u16], ends: &[u16]) -> bool
    ensures { result ≡ lent_enough n starts.now ends.now }
{
    n <= starts.len() && n <= ends.len()
}

// Marks the indices from `from` up to `to`. A single one is marked by itself: the fill is compiled to a call, and a stack of many
// intervals has mostly such.
fn fill_ones(marks: &mut [u8], from: usize, to: usize)
    requires { (from ≤ to) × (to ≤ length marks.old) }
    ensures { (k : ℕ) → get_or marks.new k 0 ≡ filled marks.old from to k }
{
    if to - from == 1 {
        marks[from] = 1;
        return;
    }
    marks[from..to].fill(1);
}

// How many indices are marked, each by a 1: so sixteen bits have room, and eight marks are added up at once.
fn count_ones(marks: &[u8]) -> usize
    requires { (length marks.now ≤ 1024) × ((k : ℕ) → get_or marks.now k 0 ≤ 1) }
    ensures { result ≡ sum_below (length marks.now) (λ k. get_or marks.now k 0) }
{
    let mut total: u16 = 0;
    // Kept: tried with `map` and `sum`; the proof did not close: `sum` asks of each run of the chain that it fit sixteen bits.
    for mark in marks {
        total += *mark as u16;
    }
    total as usize
}

// The same after a pass over n intervals whose sizes add up to total: fewer than two share no index, and none is counted.
fn marked_number(marks: &[u8], n: usize, total: usize) -> usize
    requires { (length marks.now ≤ 1024) × ((((k : ℕ) → get_or marks.now k 0 ≤ 1)) × ((n < 2 → total ≡ sum_below (length marks.now) (λ k. get_or marks.now k 0)))) }
    ensures { result ≡ sum_below (length marks.now) (λ k. get_or marks.now k 0) }
{
    if n < 2 {
        return total;
    }
    count_ones(marks)
}

// Kept: that a capacity is at most 1,024 and its marks long enough are single comparisons: a record of them would be longer.
// Kept: no plainer: the number of intervals stands beside the slices, as the definitions count the first n entries of two lists.
// Marks every index that the first n intervals hold, and tells what their sizes add up to. It stops where an interval is out of
// bounds or the sizes pass the capacity: then two intervals share an index, and without the stop the pass would not be linear.
fn mark_intervals(
    capacity: usize,
    n: usize,
    starts: &[u16],
    ends: &[u16],
    marks: &mut [u8],
) -> Option<usize>
    requires { (capacity ≤ length marks.old) × ((capacity ≤ 1024) × ((n ≤ length starts.now) × ((n ≤ length ends.now) × Unmarked marks.old))) }
    ensures { Swept capacity n starts.now ends.now marks.new result }
{
    let mut total: usize = 0;
    for i in 0..n {
        let start = starts[i] as usize;
        let end = ends[i] as usize;
        if end < start {
            return None;
        }
        if capacity <= end {
            return None;
        }
        total += end - start + 1;
        if capacity < total {
            return None;
        }
        fill_ones(marks, start, end + 1);
    }
    Some(total)
}

// How many indices are free, where the manager is well-formed. They are marked in a table that has an entry for each of them.
pub fn mark_free(
    m: IntervalStoreManager,
    starts: &[u16],
    ends: &[u16],
    marks: &mut [u8],
) -> Option<usize>
    requires { ((m.capacity ≤ 1024 → m.capacity ≤ length marks.old)) × Unmarked marks.old }
    ensures { Marked m starts.now ends.now marks.new result }
{
    let capacity = m.capacity;
    let n = m.last_in_use;
    if !capacity_allowed(capacity) {
        return None;
    }
    if !lent_enough(capacity, starts, ends) {
        return None;
    }
    if !lent_enough(n, starts, ends) {
        return None;
    }
    let total = mark_intervals(capacity, n, starts, ends, marks)?;
    let free = marked_number(&marks[..capacity], n, total);
    if free == total {
        return Some(free);
    }
    None
}

// How many indices are free, where the manager is well-formed.
pub fn well_formed(m: IntervalStoreManager, starts: &[u16], ends: &[u16]) -> Option<usize>
    ensures { result ≡ free_checked m starts.now ends.now }
{
    let mut marks = [0u8; 1024];
    mark_free(m, starts, ends, &mut marks[..])
}
