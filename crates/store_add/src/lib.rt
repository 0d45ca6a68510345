// Document 01's add: the check, the decision, and then what was decided, each table written by one function.
#![tactic(auto)]

ghost use Rattle.std.specs.Prelude.{true, ◌≡◌};
ghost use Rattle.float_bits.specs.Words.{words_equal};
ghost use Rattle.store_check.specs.Figures.{FiguresOf};
ghost use Rattle.store_definitions.specs.Adding.{add_spec};
ghost use Rattle.store_definitions.specs.Answers.{added_means, outcome};
ghost use Rattle.labels.specs.Lent.{SameTaking};
ghost use Rattle.store_definitions.specs.Lent.{SamePoints, lent_taking};
ghost use Rattle.store_definitions.specs.Memory.{point_store};
ghost use Rattle.store_definitions.specs.WellFormed.{well_formed};

mod decide;
mod keep;
mod lay;
mod room;
mod take;

use decide::{AddStep, add_decision};
use keep::keep;
use labels::LabelTaking;
use lay::shift_window;
use store_check::{Figures, check};
use store_definitions::{Kept, PointTables, Store};
use terms::{FloatBits, Refusal};

// None: the store waits for more points of the shingle.
pub fn add(
    s: &mut Store,
    store: &mut [FloatBits],
    last_known_shingle: &mut [FloatBits],
    points: &mut PointTables,
    labels: &mut LabelTaking,
    point: &[FloatBits],
    label: usize,
) -> Result<Option<Kept>, Refusal>
    ensures same { SamePoints points.old points.new × SameTaking labels.old labels.new }
    ensures added { outcome (added_means result) (point_store s.new (lent_taking store.new last_known_shingle.new points.new labels.new)) ≡ add_spec words_equal 0 (point_store s.old (lent_taking store.old last_known_shingle.old points.old labels.old)) point.now label }
{
    let figures = check(
        *s,
        store.len(),
        last_known_shingle.len(),
        points.read(labels.read()),
    )
    .ok_or(Refusal::IllFormed)?;
    add_unchecked(
        s,
        store,
        last_known_shingle,
        points,
        labels,
        point,
        label,
        figures,
    )
}

// For callers that have checked, with what the check counted.
pub fn add_unchecked(
    s: &mut Store,
    store: &mut [FloatBits],
    last_known_shingle: &mut [FloatBits],
    points: &mut PointTables,
    labels: &mut LabelTaking,
    point: &[FloatBits],
    label: usize,
    figures: Figures,
) -> Result<Option<Kept>, Refusal>
    requires { (well_formed (point_store s.old (lent_taking store.old last_known_shingle.old points.old labels.old)) ≡ true) × FiguresOf figures (point_store s.old (lent_taking store.old last_known_shingle.old points.old labels.old)) }
    ensures same { SamePoints points.old points.new × SameTaking labels.old labels.new }
    ensures added { outcome (added_means result) (point_store s.new (lent_taking store.new last_known_shingle.new points.new labels.new)) ≡ add_spec words_equal 0 (point_store s.old (lent_taking store.old last_known_shingle.old points.old labels.old)) point.now label }
{
    let step = add_decision(*s, point.len(), label)?;
    match step {
        AddStep::Wait => {
            shift_window(*s, last_known_shingle, point);
            s.next_sequence_index += 1;
            Ok(None)
        }
        AddStep::Keep => {
            let kept = keep(
                s,
                store,
                last_known_shingle,
                points,
                labels,
                point,
                label,
                figures,
            )?;
            Ok(Some(kept))
        }
    }
}
