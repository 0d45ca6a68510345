// The pass over the labels: what each label must hold, and the sums of the slots' counts.
ghost use Rattle.std.specs.Prelude.{cond, ◌&&◌, ◌||◌, ◌≡◌, ℕ, ◌+◌, ◌<◌, ◌≤◌, ◌^◌, length, get_or, leb, ltb, eqb};
ghost use Rattle.terms.specs.Below.{one, every_below};
ghost use Rattle.labels.specs.Classes.{class_of};
ghost use Rattle.label_check.specs.CheckLaws.{LabelsLent, LabelsSwept};
ghost use Rattle.label_check.specs.LabelPass.{label_bounded, ShareReady, Shared};

use labels::{LabelTables, class_of};

// Kept: no plainer: with a part in place of the capacity a contract has one clause less, and each answer of its caller a law of `take` more.

// Whether the mark fits the count and, of a live label, the code is one of the table's and the slot is below the capacity.
// Without a branch, so that the pass over the labels is compiled to vector instructions.
fn label_bounded(capacity: u16, code: u8, slot: u16, count: u16, mark: u8) -> bool
    ensures { result ≡ (eqb mark (one (eqb count 0)) && (eqb count 0 || (leb code 23 && ltb slot capacity))) }
{
    let dead = count == 0;
    let known = code <= 23;
    let below = slot < capacity;
    (mark == dead as u8) & (dead | (known & below))
}

// No early exit: every label is read.
fn labels_bounded(
    capacity: usize,
    labels: &[u8],
    label_attributes: &[u16],
    label_count: &[u16],
    marks: &[u8],
) -> bool
    requires { (capacity ≤ 1024) × ((capacity ≤ length labels.now) × ((capacity ≤ length label_attributes.now) × ((capacity ≤ length label_count.now) × (capacity ≤ length marks.now)))) }
    ensures { result ≡ every_below capacity (λ i. label_bounded capacity labels.now label_attributes.now label_count.now marks.now i) }
{
    let limit = capacity as u16;
    let mut ok = true;
    // Kept: vector code; `all` over the four parts, zipped, takes 1,700 ns for 277 at 1,024 labels; a fold is no plainer: the same test in a closure, and an answer for the invariant's line.
    for i in 0..capacity {
        let well = label_bounded(
            limit,
            labels[i],
            label_attributes[i],
            label_count[i],
            marks[i],
        );
        ok = ok & well;
    }
    ok
}

// Adds a live label's count to the sum of its slot, and says whether the slot holds the class of its code.
fn share_label(
    classes: &[u8; 24],
    attributes: &[u8],
    sums: &mut [u32],
    code: u8,
    slot: u16,
    count: u16,
) -> bool
    requires { (((count ≡ 0 → ⊥) → (code ≤ 23) × ((slot < length attributes.now) × (slot < length sums.old)))) × ((s : ℕ) → s < length sums.old → get_or sums.old s 0 < 2 ^ 31) }
    ensures { (result ≡ (eqb count 0 || eqb (get_or attributes.now slot 0) (class_of classes.now code))) × ((s : ℕ) → s < length sums.old → get_or sums.new s 0 ≡ get_or sums.old s 0 + cond (eqb slot s) count 0) }
{
    if count == 0 {
        return true;
    }
    let at = slot as usize;
    sums[at] += count as u32;
    attributes[at] == class_of(classes, code as usize)
}

// Leaves the sums of the slots' counts, and says whether each live label's slot holds its class.
fn labels_shared(
    classes: &[u8; 24],
    capacity: usize,
    labels: &[u8],
    label_attributes: &[u16],
    label_count: &[u16],
    attributes: &[u8],
    sums: &mut [u32],
) -> bool
    requires { ShareReady capacity labels.now label_attributes.now label_count.now attributes.now sums.old }
    ensures { Shared classes.now capacity labels.now label_attributes.now label_count.now attributes.now sums.new result }
{
    let mut ok = true;
    // Kept: each turn adds to the sums; an `all` whose closure writes them is no plainer.
    for i in 0..capacity {
        let well = share_label(
            classes,
            attributes,
            sums,
            labels[i],
            label_attributes[i],
            label_count[i],
        );
        ok = ok & well;
    }
    ok
}

// Passes over the labels and leaves the sums of the slots' counts.
pub fn labels_pass(
    classes: &[u8; 24],
    capacity: usize,
    tables: LabelTables,
    marks: &[u8],
    sums: &mut [u32],
) -> bool
    requires { LabelsLent capacity tables.labels.now tables.label_attributes.now tables.label_count.now tables.attributes.now marks.now × ((length sums.old ≡ 1024) × ((s : ℕ) → get_or sums.old s 0 ≡ 0)) }
    ensures { LabelsSwept classes.now capacity tables.entry.labels.now tables.entry.label_attributes.now tables.entry.label_count.now tables.entry.attributes.now marks.now sums.new result }
{
    if labels_bounded(
        capacity,
        tables.labels,
        tables.label_attributes,
        tables.label_count,
        marks,
    ) {
        return labels_shared(
            classes,
            capacity,
            tables.labels,
            tables.label_attributes,
            tables.label_count,
            tables.attributes,
            sums,
        );
    }
    false
}
