// The readings of rows: a point compared with a copy, and stored rows added up.
ghost use Rattle.std.specs.Prelude.{◌≡◌};
ghost use Rattle.float_bits.specs.Rows.{add_scaled};
ghost use Rattle.float_bits.specs.Words.{float_of, plus_zero, words_equal};
ghost use Rattle.store_definitions.specs.Answers.{done_means, equality_means, output};
ghost use Rattle.store_definitions.specs.Lent.{lent};
ghost use Rattle.store_definitions.specs.Memory.{point_store};
ghost use Rattle.store_definitions.specs.Sums.{is_equal_spec, point_sum_spec};
ghost use Rattle.row_readings.specs.Items.{weightings};

use row_readings::{is_equal_unchecked, plain_sum_unchecked};
use store_check::check;
use store_definitions::{Store, Tables};
use terms::{FloatBits, PointIndex, Refusal};

#[tactic(auto, using(store_check::specs::Checked::check_failed, store_laws::specs::IllFormedLaws::equal_ill))]
pub fn is_equal(
    s: Store,
    store: &[FloatBits],
    last_known_shingle: &[FloatBits],
    tables: Tables,
    index: PointIndex,
    point: &[FloatBits],
) -> Result<bool, Refusal>
    ensures { equality_means result ≡ is_equal_spec words_equal (point_store s (lent store.now last_known_shingle.now tables.entry)) index.0 point.now }
{
    check(s, store.len(), last_known_shingle.len(), tables).ok_or(Refusal::IllFormed)?;
    is_equal_unchecked(
        s,
        store,
        tables.reference_count,
        tables.location,
        index,
        point,
    )
}

// Each item is an index and a weight, as plain numbers. A sum that is not a number is the one NaN of the logic.
#[tactic(auto, using(store_check::specs::Checked::check_failed, store_laws::specs::IllFormedLaws::sum_ill))]
pub fn point_sum_plain(
    s: Store,
    store: &[FloatBits],
    last_known_shingle: &[FloatBits],
    tables: Tables,
    items: &[[usize; 2]],
    out: &mut [f32],
) -> Result<(), Refusal>
    ensures { output (done_means result) out.new ≡ point_sum_spec add_scaled (float_of plus_zero) (point_store s (lent store.now last_known_shingle.now tables.entry)) (weightings items.now) out.old }
{
    check(s, store.len(), last_known_shingle.len(), tables).ok_or(Refusal::IllFormed)?;
    plain_sum_unchecked(
        s,
        store,
        tables.reference_count,
        tables.location,
        items,
        out,
    )
}
