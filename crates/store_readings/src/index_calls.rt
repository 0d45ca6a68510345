// Where the next values stand in the window.
ghost use Rattle.std.specs.Prelude.{◌≡◌};
ghost use Rattle.store_definitions.specs.Answers.{done_means, output};
ghost use Rattle.store_definitions.specs.IndexLists.{missing_indices_spec, next_indices_spec};
ghost use Rattle.store_definitions.specs.Lent.{lent};
ghost use Rattle.store_definitions.specs.Memory.{point_store};

use row_readings::{missing_indices_unchecked, next_indices_unchecked};
use store_check::check;
use store_definitions::{Store, Tables};
use terms::{FloatBits, Refusal};

#[tactic(auto, using(store_check::specs::Checked::check_failed, store_laws::specs::IllFormedLaws::missing_ill))]
pub fn missing_indices(
    s: Store,
    store: &[FloatBits],
    last_known_shingle: &[FloatBits],
    tables: Tables,
    look_ahead: usize,
    values: &[usize],
    out: &mut [usize],
) -> Result<(), Refusal>
    ensures { output (done_means result) out.new ≡ missing_indices_spec (point_store s (lent store.now last_known_shingle.now tables.entry)) look_ahead values.now out.old }
{
    check(s, store.len(), last_known_shingle.len(), tables).ok_or(Refusal::IllFormed)?;
    missing_indices_unchecked(s, look_ahead, values, out)
}

// For the values 0 to base − 1.
#[tactic(auto, using(store_check::specs::Checked::check_failed, store_laws::specs::IllFormedLaws::next_ill))]
pub fn next_indices(
    s: Store,
    store: &[FloatBits],
    last_known_shingle: &[FloatBits],
    tables: Tables,
    look_ahead: usize,
    out: &mut [usize],
) -> Result<(), Refusal>
    ensures { output (done_means result) out.new ≡ next_indices_spec (point_store s (lent store.now last_known_shingle.now tables.entry)) look_ahead out.old }
{
    check(s, store.len(), last_known_shingle.len(), tables).ok_or(Refusal::IllFormed)?;
    next_indices_unchecked(s, look_ahead, out)
}
