// Adjust of any store and any memory: the check, and then the pairs in order.
#![tactic(auto)]

ghost use Rattle.std.specs.Prelude.{◌≡◌};
ghost use Rattle.store_definitions.specs.Answers.{outcome, adjusted_means};
ghost use Rattle.store_definitions.specs.Counting.{adjust_spec};
ghost use Rattle.labels.specs.Lent.{SameLowering};
ghost use Rattle.store_definitions.specs.Lent.{SamePoints, lent_lowering};
ghost use Rattle.store_definitions.specs.Memory.{point_store};
ghost use Rattle.store_adjust.specs.Pairs.{pairings_of};

use labels::LabelLowering;
use store_adjust::adjust_unchecked;
use store_check::check;
use store_definitions::{AdjustRefusal, Pair, PointTables, Store};
use terms::{FloatBits, Refusal};

pub fn adjust_count(
    s: &mut Store,
    store: &[FloatBits],
    last_known_shingle: &[FloatBits],
    points: &mut PointTables,
    labels: &mut LabelLowering,
    pairs: &[Pair],
) -> Result<(), AdjustRefusal>
    ensures same { SamePoints points.old points.new × SameLowering labels.old labels.new }
    ensures adjusted { outcome (adjusted_means result) (point_store s.new (lent_lowering store.now last_known_shingle.now points.new labels.new)) ≡ adjust_spec (point_store s.old (lent_lowering store.now last_known_shingle.now points.old labels.old)) (pairings_of pairs.now) }
{
    check(
        *s,
        store.len(),
        last_known_shingle.len(),
        points.read(labels.read()),
    )
    .ok_or(AdjustRefusal {
        why: Refusal::IllFormed,
        pairs_before: 0,
    })?;
    adjust_unchecked(
        s,
        store.len(),
        last_known_shingle.len(),
        points,
        labels,
        pairs,
    )
}
