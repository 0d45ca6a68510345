// One pair of an adjust: an inc, then a dec judged on the counts so raised.
ghost use Rattle.std.specs.Prelude.{true, ◌≡◌};
ghost use Rattle.interval_store_manager.specs.Calls.{go, decision_means};
ghost use Rattle.store_definitions.specs.Answers.{outcome, done_means};
ghost use Rattle.store_definitions.specs.Counting.{pair_decided, pair_done};
ghost use Rattle.store_definitions.specs.Memory.{point_store};
ghost use Rattle.store_definitions.specs.WellFormed.{well_formed};
ghost use Rattle.labels.specs.Lent.{SameLowering};
ghost use Rattle.store_definitions.specs.Lent.{SamePoints};
ghost use Rattle.store_check.specs.Tables.{tables_lowering};
ghost use Rattle.store_counts.specs.Tables.{counts_alone};
ghost use Rattle.store_adjust.specs.Pairs.{pairing_of, pair_test, pair_spec};

use labels::LabelLowering;
use store_counts::{dec_accepted, dec_test, inc_accepted, inc_test};
use store_definitions::{Pair, PointTables, Store};
use terms::{NONE, Refusal};

// Whether inc and dec will be taken. The counts before the inc decide of the dec: they are above 0 where those after it are.
#[tactic(auto, using(crate::specs::PairLaws::test_refused, crate::specs::PairLaws::test_inc, crate::specs::PairLaws::test_dec))]
fn pair_test(
    s: Store,
    points: &PointTables,
    labels: &LabelLowering,
    pair: Pair,
) -> Result<(), Refusal>
    ensures { decision_means result ≡ pair_test (point_store s (counts_alone points.now.reference_count.now labels.now.label_count.now)) (pairing_of pair) }
{
    inc_test(s, points.reference_count, labels.label_count, pair.insert)?;
    if pair.delete.index.0 == NONE {
        return Ok(());
    }
    dec_test(s, points.reference_count, labels.label_count, pair.delete)
}

// A pair that will be taken.
fn pair_accepted(
    s: &mut Store,
    floats: usize,
    window: usize,
    points: &mut PointTables,
    labels: &mut LabelLowering,
    pair: Pair,
)
    requires { (well_formed (point_store s.old (tables_lowering floats window points.old labels.old)) ≡ true) × (pair_decided (point_store s.old (tables_lowering floats window points.old labels.old)) (pairing_of pair) ≡ go) }
    ensures same { SamePoints points.old points.new × SameLowering labels.old labels.new }
    ensures done { point_store s.new (tables_lowering floats window points.new labels.new) ≡ pair_done (point_store s.old (tables_lowering floats window points.old labels.old)) (pairing_of pair) }
{
    inc_accepted(
        s.store_labels,
        points.reference_count,
        labels.label_attributes,
        labels.label_count,
        labels.attribute_count,
        pair.insert,
    );
    if pair.delete.index.0 != NONE {
        dec_accepted(s, floats, window, points, labels, pair.delete);
    }
}

// A pair in a well-formed store; insert index none skips it.
pub fn adjust_pair(
    s: &mut Store,
    floats: usize,
    window: usize,
    points: &mut PointTables,
    labels: &mut LabelLowering,
    pair: Pair,
) -> Result<(), Refusal>
    requires { well_formed (point_store s.old (tables_lowering floats window points.old labels.old)) ≡ true }
    ensures same { SamePoints points.old points.new × SameLowering labels.old labels.new }
    ensures done { outcome (done_means result) (point_store s.new (tables_lowering floats window points.new labels.new)) ≡ pair_spec (point_store s.old (tables_lowering floats window points.old labels.old)) (pairing_of pair) }
{
    if pair.insert.index.0 == NONE {
        return Ok(());
    }
    pair_test(*s, points, labels, pair)?;
    pair_accepted(s, floats, window, points, labels, pair);
    Ok(())
}
