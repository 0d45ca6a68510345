// The sum where an item is a row of two plain numbers: a point's index and its weight. Every row is judged before anything is written.
// Kept: two loops beside those of `sum`: a lent slice of rows is no slice of items, and there is no heap to make one on.
ghost use Rattle.std.specs.Prelude.{[], ◌≡◌, length};
ghost use Rattle.float_bits.specs.Rows.{add_scaled};
ghost use Rattle.float_bits.specs.Words.{float_of, plus_zero};
ghost use Rattle.interval_store_manager.specs.Calls.{decision_means};
ghost use Rattle.store_counts.specs.Tables.{counts_alone};
ghost use Rattle.store_definitions.specs.Answers.{done_means, output};
ghost use Rattle.store_definitions.specs.Memory.{point_store, rows_alone};
ghost use Rattle.store_definitions.specs.Sums.{items_decided, summed};
ghost use Rattle.store_rows.specs.Copying.{Readable};
ghost use Rattle.row_readings.specs.Items.{weightings, checked_sum};
ghost use Rattle.row_readings.specs.RowSums.{item_of, AllRowsAddable};

use super::sum::{add_item, item_test};
use store_definitions::{Item, Store};
use terms::{FloatBits, PointIndex, Refusal};

fn item_of(row: [usize; 2]) -> Item
    ensures { result ≡ item_of row }
{
    Item {
        index: PointIndex(row[0]),
        weight: row[1],
    }
}

fn rows_test(s: Store, reference_count: &[u16], rows: &[[usize; 2]]) -> Result<(), Refusal>
    ensures { decision_means result ≡ items_decided (point_store s (counts_alone reference_count.now [])) (weightings rows.now) }
{
    for row in rows {
        item_test(s, reference_count, item_of(*row))?;
    }
    Ok(())
}

#[tactic(auto, using(crate::specs::RowSums::next_row_added, crate::specs::RowSums::no_row_added))]
fn add_rows(s: Store, store: &[FloatBits], location: &[u16], rows: &[[usize; 2]], out: &mut [f32])
    requires { (length out.old ≡ s.dimensions) × AllRowsAddable s (length store.now) location.now rows.now }
    ensures { out.new ≡ summed add_scaled (point_store s (rows_alone store.now [] location.now)) (weightings rows.now) out.old }
{
    for row in rows {
        add_item(s, store, location, item_of(*row), out);
    }
}

pub fn plain_sum_unchecked(
    s: Store,
    store: &[FloatBits],
    reference_count: &[u16],
    location: &[u16],
    rows: &[[usize; 2]],
    out: &mut [f32],
) -> Result<(), Refusal>
    requires { Readable s (length store.now) reference_count.now location.now }
    ensures { output (done_means result) out.new ≡ checked_sum add_scaled (float_of plus_zero) s store.now reference_count.now location.now (weightings rows.now) out.old }
{
    if out.len() != s.dimensions {
        return Err(Refusal::Length);
    }
    rows_test(s, reference_count, rows)?;
    out.fill(0.0);
    add_rows(s, store, location, rows, out);
    Ok(())
}
