// The pass over a hold's list.
// Kept: no plainer: that there are at most 1,024 counts is one comparison in each contract: a record of it would be longer.
ghost use Rattle.std.specs.Prelude.{◌≡◌, ◌≤◌, true, ◌&&◌, length, ◌==◌};
ghost use Rattle.hold_check.specs.ListedOnce.{listed_once, entry_listed, entry_marked, NoMarks};
ghost use Rattle.hold_check.specs.CheckLaws.{list_holds};
ghost use Rattle.hold_check.specs.Rising.{single_counts, ListKnown};

// Marks an entry that counts has, and says whether its count is 1 and it was not marked yet.
#[tactic(auto, unfolding(crate::specs::ListedOnce::entry_listed, crate::specs::ListedOnce::entry_marked))]
fn mark_entry(entry: usize, counts: &[u16], marks: &mut [bool]) -> bool
    requires { length counts.now ≤ length marks.old }
    ensures { (result ≡ entry_listed (length counts.now) counts.now marks.old entry) × (marks.new ≡ entry_marked (length counts.now) marks.old entry) }
{
    if entry < counts.len() {
        let met = marks[entry];
        marks[entry] = true;
        return (counts[entry] == 1) & !met;
    }
    false
}

// Whether each entry has a count, has count 1 and stands there once.
// Kept: no plainer: `all` would write the marks in its closure.
#[tactic(auto, using(crate::specs::ListedOnce::marks_none), unfolding(crate::specs::ListedOnce::listed_once, hold_definitions::specs::Listed::every_named))]
fn mark_list(counts: &[u16], list: &[u16], marks: &mut [bool]) -> bool
    requires { (length counts.now ≤ length marks.old) × NoMarks marks.old }
    ensures { result ≡ listed_once (length counts.now) counts.now list.now }
{
    let mut ok = true;
    for entry in list {
        ok &= mark_entry(*entry as usize, counts, marks);
    }
    ok
}

// With a table of N marks.
#[tactic(auto, using(crate::proofs::MarkLaws::no_marks))]
fn once_in<const N: usize>(counts: &[u16], list: &[u16]) -> bool
    requires { (N ≤ 1024) × (length counts.now ≤ N) }
    ensures { result ≡ listed_once (length counts.now) counts.now list.now }
{
    let mut marks = [false; N];
    mark_list(counts, list, &mut marks)
}

// With a table of marks no larger than the counts ask for.
fn listed_once(counts: &[u16], list: &[u16]) -> bool
    requires { length counts.now ≤ 1024 }
    ensures { result ≡ listed_once (length counts.now) counts.now list.now }
{
    if counts.len() <= 64 {
        return once_in::<64>(counts, list);
    }
    once_in::<1024>(counts, list)
}

// Whether no count is above 1.
// Kept: vector code, where `all` branches at each entry; a fold is no plainer: the same test in a closure, and an answer for the invariant's line.
#[tactic(auto, using(crate::proofs::TestLaws::every_more), unfolding(crate::specs::Rising::single_counts, terms::specs::Below::every_below))]
pub fn counts_single(counts: &[u16]) -> bool
    ensures { result ≡ single_counts (length counts.now) counts.now }
{
    let mut ok = true;
    for count in counts {
        ok &= *count < 2;
    }
    ok
}

// The points' list, with how many points are live. Where it is known already nothing is left to ask.
fn points_once(listed: bool, live: usize, counts: &[u16], list: &[u16]) -> bool
    requires { ListKnown live counts.now list.now listed × (length counts.now ≤ 1024) }
    ensures { result ≡ (listed_once (length counts.now) counts.now list.now && length list.now == live) }
{
    if listed {
        return true;
    }
    if list.len() == live {
        return listed_once(counts, list);
    }
    false
}

// The points' list; the labels' with labels on.
// Kept: no plainer: with labels off the labels' two tables may be of any length, so the callers have no parts of them.
#[tactic(auto, using(crate::proofs::PartLaws::once_part), unfolding(crate::specs::CheckLaws::list_holds))]
pub fn list_well(
    listed: bool,
    live: usize,
    capacity: usize,
    store_labels: bool,
    counts: &[u16],
    label_count: &[u16],
    list: &[u16],
    held_labels: &[u16],
) -> bool
    requires { (ListKnown live counts.now list.now listed × (length counts.now ≤ 1024)) × ((store_labels ≡ true → (capacity ≤ 1024) × ((capacity ≤ length label_count.now) × (length list.now ≤ length held_labels.now)))) }
    ensures { result ≡ list_holds live (length list.now) (length counts.now) capacity store_labels counts.now label_count.now list.now held_labels.now }
{
    if points_once(listed, live, counts, list) {
        if store_labels {
            return listed_once(&label_count[..capacity], &held_labels[..list.len()]);
        }
        return true;
    }
    false
}
