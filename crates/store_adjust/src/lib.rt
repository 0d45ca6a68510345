// Adjust: a list of pairs, each an inc and a dec, in order. The pairs before a refused one stand. `adjust_pair` and `adjust_unchecked`
// are for callers that have checked the store; `adjust_plain` checks it, and takes plain numbers.
#![tactic(auto)]

ghost use Rattle.std.specs.Prelude.{true, ◌≡◌};
ghost use Rattle.store_definitions.specs.Answers.{outcome, adjusted_means};
ghost use Rattle.store_definitions.specs.Counting.{adjust_spec};
ghost use Rattle.store_definitions.specs.Memory.{point_store};
ghost use Rattle.store_definitions.specs.WellFormed.{well_formed};
ghost use Rattle.labels.specs.Lent.{SameLowering};
ghost use Rattle.store_definitions.specs.Lent.{SamePoints};
ghost use Rattle.store_check.specs.Tables.{tables_lowering};
ghost use Rattle.store_adjust.specs.Pairs.{pairings_of};

mod pair;
mod plain;

use labels::LabelLowering;
pub use pair::adjust_pair;
pub use plain::{adjust_plain, adjust_rows};
use store_definitions::{AdjustRefusal, Pair, PointTables, Store};

// Of the elements only the lengths are known.
pub fn adjust_unchecked(
    s: &mut Store,
    floats: usize,
    window: usize,
    points: &mut PointTables,
    labels: &mut LabelLowering,
    pairs: &[Pair],
) -> Result<(), AdjustRefusal>
    requires { well_formed (point_store s.old (tables_lowering floats window points.old labels.old)) ≡ true }
    ensures same { SamePoints points.old points.new × SameLowering labels.old labels.new }
    ensures adjusted { outcome (adjusted_means result) (point_store s.new (tables_lowering floats window points.new labels.new)) ≡ adjust_spec (point_store s.old (tables_lowering floats window points.old labels.old)) (pairings_of pairs.now) }
{
    for (i, pair) in pairs.iter().enumerate() {
        let adjusted = adjust_pair(s, floats, window, points, labels, *pair);
        if let Err(why) = adjusted {
            return Err(AdjustRefusal {
                why,
                pairs_before: i,
            });
        }
    }
    Ok(())
}
