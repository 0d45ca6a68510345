// The two tables of a hold, with one entry more or with the oldest gone.
ghost use Rattle.std.specs.Prelude.{true, cond, [], ◌∷◌, ◌++◌, ◌≡◌, ◌≤◌, ◌<◌, length, take, drop};
ghost use Rattle.hold_definitions.specs.Adding.{written_to};

// Kept: no plainer: `held` is the place that is written, and the part of the slice in place of both would end with it.
fn push(list: &mut [u16], held: usize, entry: usize)
    requires { (held < length list.old) × (entry < 65536) }
    ensures { list.new ≡ written_to list.old (take held list.old ++ entry ∷ []) }
{
    list[held] = entry as u16;
}

// Every entry moves down by one, and the first is gone.
fn slide(list: &mut [u16], entry: usize)
    requires { (0 < length list.old) × (entry < 65536) }
    ensures { list.new ≡ drop 1 (list.old ++ entry ∷ []) }
{
    list.copy_within(1.., 0);
    list[list.len() - 1] = entry as u16;
}

// With labels off the labels' table is left as it was.
pub fn push_both(
    store_labels: bool,
    held_indices: &mut [u16],
    held_labels: &mut [u16],
    held: usize,
    index: usize,
    label: usize,
)
    requires { ((held < length held_indices.old) × (index < 65536)) × ((store_labels ≡ true → (held < length held_labels.old) × (label < 65536))) }
    ensures { (held_indices.new ≡ written_to held_indices.old (take held held_indices.old ++ index ∷ [])) × (held_labels.new ≡ cond store_labels (written_to held_labels.old (take held held_labels.old ++ label ∷ [])) held_labels.old) }
{
    push(held_indices, held, index);
    if store_labels {
        push(held_labels, held, label);
    }
}

// Kept: no plainer: with labels off the labels' table may be shorter than the list, so the callers have no part of it.
#[tactic(auto, using(crate::specs::Moves::slid_part))]
pub fn slide_both(
    store_labels: bool,
    held_indices: &mut [u16],
    held_labels: &mut [u16],
    held: usize,
    index: usize,
    label: usize,
)
    requires { ((0 < held) × ((held ≤ length held_indices.old) × (index < 65536))) × ((store_labels ≡ true → (held ≤ length held_labels.old) × (label < 65536))) }
    ensures { (held_indices.new ≡ written_to held_indices.old (drop 1 (take held held_indices.old ++ index ∷ []))) × (held_labels.new ≡ cond store_labels (written_to held_labels.old (drop 1 (take held held_labels.old ++ label ∷ []))) held_labels.old) }
{
    slide(&mut held_indices[..held], index);
    if store_labels {
        slide(&mut held_labels[..held], label);
    }
}
