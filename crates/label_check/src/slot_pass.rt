// The pass over the slots: each count is the sum of the labels' counts, and no two live slots hold one class.
ghost use Rattle.std.specs.Prelude.{true, false, cond, not, ◌&&◌, ◌≡◌, ◌≤◌, ◌<◌, length, get_or, set, eqb};
ghost use Rattle.terms.specs.Below.{one, every_below};
ghost use Rattle.labels.specs.Labels.{differ};
ghost use Rattle.label_check.specs.Checks.{slot_passes, slot_fits};
ghost use Rattle.label_check.specs.CheckLaws.{SlotsLent};
ghost use Rattle.label_check.specs.SlotPass.{slots_live};

use labels::LabelTables;

// Kept: no plainer: with the counts' part in place of the capacity a contract has one clause less, and each answer of its caller a law of `take` more.

// Without a branch, so that the pass over the slots is compiled to vector instructions.
fn slot_passes(count: u32, mark: u8, sum: u32) -> bool
    ensures { result ≡ (eqb count sum && eqb mark (one (eqb count 0))) }
{
    let dead = count == 0;
    (count == sum) & (mark == dead as u8)
}

// No early exit: every slot is read.
fn slots_summed(capacity: usize, attribute_count: &[u32], marks: &[u8], sums: &[u32]) -> bool
    requires { (capacity ≤ length attribute_count.now) × ((capacity ≤ length marks.now) × (capacity ≤ length sums.now)) }
    ensures { result ≡ every_below capacity (λ s. slot_passes attribute_count.now marks.now sums.now s) }
{
    let mut ok = true;
    // Kept: vector code; `all` over the three parts, zipped, takes 1,012 ns for 347 at 1,024 slots; a fold is no plainer: the same test in a closure, and an answer for the invariant's line.
    for s in 0..capacity {
        let well = slot_passes(attribute_count[s], marks[s], sums[s]);
        ok = ok & well;
    }
    ok
}

// Whether a live slot before this one holds its class; a live slot's class is then seen.
fn class_met(seen: &mut [bool], class: u8, count: u32) -> bool
    requires { length seen.old ≡ 256 }
    ensures { (result ≡ (not (eqb count 0) && get_or seen.old class false)) × (seen.new ≡ cond (eqb count 0) seen.old (set seen.old class true)) }
{
    if count == 0 {
        return false;
    }
    let k = class as usize;
    let met = seen[k];
    seen[k] = true;
    met
}

// Whether no two live slots hold one class. The loop ends with the last of the live slots, which are known by their number.
fn classes_differ(capacity: usize, live: usize, attributes: &[u8], attribute_count: &[u32]) -> bool
    requires { (capacity ≤ length attributes.now) × ((capacity ≤ length attribute_count.now) × (live ≡ slots_live capacity attribute_count.now)) }
    ensures { result ≡ every_below capacity (λ s. every_below s (λ t. differ attributes.now attribute_count.now s t)) }
{
    let mut seen = [false; 256];
    let mut met = false;
    let mut found: usize = 0;
    // Kept: tried with `zip`, `filter` and `take(live)`; the proof did not close: the laws speak of the first s slots, and the chain of those that it gave.
    let mut s = 0;
    while found < live {
        let count = attribute_count[s];
        let again = class_met(&mut seen, attributes[s], count);
        met = met | again;
        found += (count != 0) as usize;
        s += 1;
    }
    !met
}

// Passes over the slots, of which `free` are marked.
pub fn slots_pass(
    capacity: usize,
    free: usize,
    tables: LabelTables,
    marks: &[u8],
    sums: &[u32],
) -> bool
    requires { SlotsLent capacity free tables.attributes.now tables.attribute_count.now marks.now sums.now }
    ensures { result ≡ every_below capacity (λ s. slot_fits tables.entry.attributes.now tables.entry.attribute_count.now marks.now sums.now s) }
{
    if slots_summed(capacity, tables.attribute_count, marks, sums) {
        return classes_differ(
            capacity,
            capacity - free,
            tables.attributes,
            tables.attribute_count,
        );
    }
    false
}
