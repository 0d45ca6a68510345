// Stored rows times their weights, added up, unturned. Every item is judged before anything is written.
ghost use Rattle.std.specs.Prelude.{[], ◌∷◌, ◌≡◌, length};
ghost use Rattle.float_bits.specs.Rows.{add_scaled};
ghost use Rattle.float_bits.specs.Words.{float_of, plus_zero};
ghost use Rattle.interval_store_manager.specs.Calls.{decision_means};
ghost use Rattle.store_counts.specs.Tables.{counts_alone};
ghost use Rattle.store_definitions.specs.Answers.{done_means, output};
ghost use Rattle.store_definitions.specs.Memory.{point_store, rows_alone};
ghost use Rattle.store_definitions.specs.Sums.{items_decided, stored_row, summed};
ghost use Rattle.store_rows.specs.Copying.{Readable};
ghost use Rattle.row_readings.specs.Items.{weighting_of, weightings_of, Addable, AllAddable, checked_sum};

use float_bits::add_scaled;
use store_counts::point_in_use;
use store_definitions::{Item, Store};
use terms::{FloatBits, Refusal};

// Document 01: 'weight above 16,777,216'. Up to it a weight's float is the weight itself.
const LARGEST_WEIGHT: usize = 16_777_216;

#[tactic(auto, using(crate::specs::SumLaws::item_dead, crate::specs::SumLaws::item_heavy, crate::specs::SumLaws::item_goes))]
pub fn item_test(s: Store, reference_count: &[u16], item: Item) -> Result<(), Refusal>
    ensures { decision_means result ≡ items_decided (point_store s (counts_alone reference_count.now [])) (weighting_of item ∷ []) }
{
    if !point_in_use(s, reference_count, item.index) {
        return Err(Refusal::PointNotInUse);
    }
    if LARGEST_WEIGHT < item.weight {
        return Err(Refusal::ValueTooLarge);
    }
    Ok(())
}

fn items_test(s: Store, reference_count: &[u16], items: &[Item]) -> Result<(), Refusal>
    ensures { decision_means result ≡ items_decided (point_store s (counts_alone reference_count.now [])) (weightings_of items.now) }
{
    for item in items {
        item_test(s, reference_count, *item)?;
    }
    Ok(())
}

// One item that was judged: its row as it is stored, times its weight, is added to the sums.
#[tactic(auto, using(crate::specs::SumLaws::row_read))]
pub fn add_item(s: Store, store: &[FloatBits], location: &[u16], item: Item, out: &mut [f32])
    requires { (length out.old ≡ s.dimensions) × Addable s (length store.now) location.now (weighting_of item) }
    ensures { out.new ≡ add_scaled item.weight out.old (stored_row (point_store s (rows_alone store.now [] location.now)) item.index.0) }
{
    let dimensions = s.dimensions;
    let place = location[item.index.0] as usize;
    let start = place * s.base();
    let end = start + dimensions;
    add_scaled(out, &store[start..end], item.weight);
}

#[tactic(auto, using(crate::specs::SumLaws::next_added, crate::specs::SumLaws::none_added))]
fn add_items(s: Store, store: &[FloatBits], location: &[u16], items: &[Item], out: &mut [f32])
    requires { (length out.old ≡ s.dimensions) × AllAddable s (length store.now) location.now items.now }
    ensures { out.new ≡ summed add_scaled (point_store s (rows_alone store.now [] location.now)) (weightings_of items.now) out.old }
{
    for item in items {
        add_item(s, store, location, *item, out);
    }
}

pub fn point_sum_unchecked(
    s: Store,
    store: &[FloatBits],
    reference_count: &[u16],
    location: &[u16],
    items: &[Item],
    out: &mut [f32],
) -> Result<(), Refusal>
    requires { Readable s (length store.now) reference_count.now location.now }
    ensures { output (done_means result) out.new ≡ checked_sum add_scaled (float_of plus_zero) s store.now reference_count.now location.now (weightings_of items.now) out.old }
{
    if out.len() != s.dimensions {
        return Err(Refusal::Length);
    }
    items_test(s, reference_count, items)?;
    out.fill(0.0);
    add_items(s, store, location, items, out);
    Ok(())
}
