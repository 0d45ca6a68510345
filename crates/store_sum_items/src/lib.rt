// The sum of weighted rows. Every item is judged before the first row is added, so a refused sum leaves the output as it was. A sum that is
// not a number is the one NaN of the logic.
#![tactic(auto)]

ghost use Rattle.std.specs.Prelude.{◌≡◌};
ghost use Rattle.float_bits.specs.Rows.{add_scaled};
ghost use Rattle.float_bits.specs.Words.{float_of, plus_zero};
ghost use Rattle.store_definitions.specs.Answers.{done_means, output};
ghost use Rattle.store_definitions.specs.Lent.{lent};
ghost use Rattle.store_definitions.specs.Memory.{point_store};
ghost use Rattle.store_definitions.specs.Sums.{point_sum_spec};
ghost use Rattle.row_readings.specs.Items.{weightings_of};

use row_readings::point_sum_unchecked;
use store_check::check;
use store_definitions::{Item, Store, Tables};
use terms::{FloatBits, Refusal};

#[tactic(auto, using(store_check::specs::Checked::check_failed, store_laws::specs::IllFormedLaws::sum_ill))]
pub fn point_sum(
    s: Store,
    store: &[FloatBits],
    last_known_shingle: &[FloatBits],
    tables: Tables,
    items: &[Item],
    out: &mut [f32],
) -> Result<(), Refusal>
    ensures { output (done_means result) out.new ≡ point_sum_spec add_scaled (float_of plus_zero) (point_store s (lent store.now last_known_shingle.now tables.entry)) (weightings_of items.now) out.old }
{
    check(s, store.len(), last_known_shingle.len(), tables).ok_or(Refusal::IllFormed)?;
    point_sum_unchecked(
        s,
        store,
        tables.reference_count,
        tables.location,
        items,
        out,
    )
}
