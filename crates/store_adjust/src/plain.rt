// Adjust over plain numbers, of any store and any memory: the check, and then the pairs in order. A pair is a row of four: the index
// and the label that the inc takes, then those that the dec takes.
ghost use Rattle.std.specs.Prelude.{true, ◌≡◌};
ghost use Rattle.store_definitions.specs.Answers.{outcome, adjusted_means};
ghost use Rattle.store_definitions.specs.Counting.{adjust_spec};
ghost use Rattle.store_definitions.specs.Memory.{point_store};
ghost use Rattle.store_definitions.specs.WellFormed.{well_formed};
ghost use Rattle.labels.specs.Lent.{SameLowering};
ghost use Rattle.store_definitions.specs.Lent.{SamePoints, lent_lowering};
ghost use Rattle.store_check.specs.Tables.{tables_lowering};
ghost use Rattle.store_adjust.specs.Pairs.{pairing, pairing_of, pairings};

use crate::pair::adjust_pair;
use labels::LabelLowering;
use store_check::check;
use store_definitions::{AdjustRefusal, Change, Pair, PointTables, Store};
use terms::{FloatBits, LabelIndex, PointIndex, Refusal};

fn pair_of_row(row: [usize; 4]) -> Pair
    ensures { pairing_of result ≡ pairing row }
{
    let [insert_index, insert_label, delete_index, delete_label] = row;
    Pair {
        insert: Change {
            index: PointIndex(insert_index),
            label: LabelIndex(insert_label),
        },
        delete: Change {
            index: PointIndex(delete_index),
            label: LabelIndex(delete_label),
        },
    }
}

// For a checked store.
// Kept: a loop beside that of `adjust_unchecked`: a lent slice of rows is no slice of pairs, and there is no heap to make one on.
pub fn adjust_rows(
    s: &mut Store,
    floats: usize,
    window: usize,
    points: &mut PointTables,
    labels: &mut LabelLowering,
    pairs: &[[usize; 4]],
) -> Result<(), AdjustRefusal>
    requires { well_formed (point_store s.old (tables_lowering floats window points.old labels.old)) ≡ true }
    ensures same { SamePoints points.old points.new × SameLowering labels.old labels.new }
    ensures adjusted { outcome (adjusted_means result) (point_store s.new (tables_lowering floats window points.new labels.new)) ≡ adjust_spec (point_store s.old (tables_lowering floats window points.old labels.old)) (pairings pairs.now) }
{
    for (i, row) in pairs.iter().enumerate() {
        let adjusted = adjust_pair(s, floats, window, points, labels, pair_of_row(*row));
        if let Err(why) = adjusted {
            return Err(AdjustRefusal {
                why,
                pairs_before: i,
            });
        }
    }
    Ok(())
}

pub fn adjust_plain(
    s: &mut Store,
    store: &[FloatBits],
    last_known_shingle: &[FloatBits],
    points: &mut PointTables,
    labels: &mut LabelLowering,
    pairs: &[[usize; 4]],
) -> Result<(), AdjustRefusal>
    ensures same { SamePoints points.old points.new × SameLowering labels.old labels.new }
    ensures adjusted { outcome (adjusted_means result) (point_store s.new (lent_lowering store.now last_known_shingle.now points.new labels.new)) ≡ adjust_spec (point_store s.old (lent_lowering store.now last_known_shingle.now points.old labels.old)) (pairings pairs.now) }
{
    check(
        *s,
        store.len(),
        last_known_shingle.len(),
        points.read(labels.read()),
    )
    .ok_or(AdjustRefusal {
        why: Refusal::IllFormed,
        pairs_before: 0,
    })?;
    adjust_rows(
        s,
        store.len(),
        last_known_shingle.len(),
        points,
        labels,
        pairs,
    )
}
