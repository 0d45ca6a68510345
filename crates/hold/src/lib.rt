// A sliding hold over a store of its own: opening one, and an add that keeps the newest points and nothing older. Its readings
// stand in `hold_check`.
// Kept: the two tables of the list are parameters of their own, since the C interface lends them as `&mut` to an add alone.
#![tactic(auto)]

ghost use Rattle.std.specs.Prelude.{true, ◌≡◌};
ghost use Rattle.float_bits.specs.Words.{words_equal};
ghost use Rattle.hold_definitions.specs.Adding.{hold_added, hold_add_spec};
ghost use Rattle.hold_definitions.specs.Answers.{hold_outcome};
ghost use Rattle.hold_definitions.specs.Lent.{hold_memory};
ghost use Rattle.labels.specs.Lent.{SameWriting};
ghost use Rattle.hold_definitions.specs.Memory.{point_hold, store_of};
ghost use Rattle.hold_definitions.specs.WellFormed.{hold_well_formed};
ghost use Rattle.store_check.specs.Figures.{FiguresOf};
ghost use Rattle.store_definitions.specs.Adding.{add_spec};
ghost use Rattle.store_definitions.specs.Answers.{added_means, outcome};
ghost use Rattle.store_definitions.specs.Lent.{SamePoints, lent_writing};
ghost use Rattle.store_definitions.specs.WellFormed.{well_formed};
ghost use Rattle.store_definitions.specs.Memory.{point_store};

mod keep;
mod list;

use hold_check::check_hold;
use hold_definitions::Hold;
use keep::keep_point;
use labels::{LabelTaking, LabelWriting};
use store_add::add_unchecked;
use store_check::Figures;
use store_definitions::{Kept, PointTables, Store};
use terms::{FloatBits, Refusal};

// An add of the store that the hold has checked.
fn add_to_store(
    s: &mut Store,
    store: &mut [FloatBits],
    last_known_shingle: &mut [FloatBits],
    points: &mut PointTables,
    labels: &mut LabelWriting,
    point: &[FloatBits],
    label: usize,
    figures: Figures,
) -> Result<Option<Kept>, Refusal>
    requires { (well_formed (point_store s.old (lent_writing store.old last_known_shingle.old points.old labels.old)) ≡ true) × FiguresOf figures (point_store s.old (lent_writing store.old last_known_shingle.old points.old labels.old)) }
    ensures same { SamePoints points.old points.new × SameWriting labels.old labels.new }
    ensures added { outcome (added_means result) (point_store s.new (lent_writing store.new last_known_shingle.new points.new labels.new)) ≡ add_spec words_equal 0 (point_store s.old (lent_writing store.old last_known_shingle.old points.old labels.old)) point.now label }
{
    let label_ends = &mut *labels.label_ends;
    let attribute_ends = &mut *labels.attribute_ends;
    let mut lent = LabelTaking {
        labels: labels.labels,
        label_attributes: labels.label_attributes,
        label_count: labels.label_count,
        label_starts: labels.label_starts,
        label_ends,
        attributes: labels.attributes,
        attribute_count: labels.attribute_count,
        attribute_starts: labels.attribute_starts,
        attribute_ends,
    };
    add_unchecked(
        s,
        store,
        last_known_shingle,
        points,
        &mut lent,
        point,
        label,
        figures,
    )
}

// Of a hold that is well-formed.
fn add_checked(
    h: &mut Hold,
    store: &mut [FloatBits],
    last_known_shingle: &mut [FloatBits],
    points: &mut PointTables,
    labels: &mut LabelWriting,
    held_indices: &mut [u16],
    held_labels: &mut [u16],
    point: &[FloatBits],
    label: usize,
    figures: Figures,
) -> Result<Option<Kept>, Refusal>
    requires { (hold_well_formed (point_hold h.old (hold_memory (lent_writing store.old last_known_shingle.old points.old labels.old) held_indices.old held_labels.old)) ≡ true) × FiguresOf figures (store_of (point_hold h.old (hold_memory (lent_writing store.old last_known_shingle.old points.old labels.old) held_indices.old held_labels.old))) }
    ensures same { SamePoints points.old points.new × SameWriting labels.old labels.new }
    ensures added { hold_outcome (added_means result) (point_hold h.new (hold_memory (lent_writing store.new last_known_shingle.new points.new labels.new) held_indices.new held_labels.new)) ≡ hold_added (point_hold h.old (hold_memory (lent_writing store.old last_known_shingle.old points.old labels.old) held_indices.old held_labels.old)) (add_spec words_equal 0 (point_store h.old.store (lent_writing store.old last_known_shingle.old points.old labels.old)) point.now label) }
{
    let added = add_to_store(
        &mut h.store,
        store,
        last_known_shingle,
        points,
        labels,
        point,
        label,
        figures,
    )?;
    let Some(kept) = added else {
        return Ok(None);
    };
    keep_point(
        h,
        kept,
        store,
        last_known_shingle,
        points,
        labels,
        held_indices,
        held_labels,
    );
    Ok(Some(kept))
}

pub fn add(
    h: &mut Hold,
    store: &mut [FloatBits],
    last_known_shingle: &mut [FloatBits],
    points: &mut PointTables,
    labels: &mut LabelWriting,
    held_indices: &mut [u16],
    held_labels: &mut [u16],
    point: &[FloatBits],
    label: usize,
) -> Result<Option<Kept>, Refusal>
    ensures same { SamePoints points.old points.new × SameWriting labels.old labels.new }
    ensures added { hold_outcome (added_means result) (point_hold h.new (hold_memory (lent_writing store.new last_known_shingle.new points.new labels.new) held_indices.new held_labels.new)) ≡ hold_add_spec words_equal 0 (point_hold h.old (hold_memory (lent_writing store.old last_known_shingle.old points.old labels.old) held_indices.old held_labels.old)) point.now label }
{
    let figures = check_hold(
        *h,
        store,
        last_known_shingle,
        points.read(labels.read()),
        held_indices,
        held_labels,
    )
    .ok_or(Refusal::IllFormed)?;
    add_checked(
        h,
        store,
        last_known_shingle,
        points,
        labels,
        held_indices,
        held_labels,
        point,
        label,
        figures,
    )
}
