// The readings of a hold.
ghost use Rattle.std.specs.Prelude.{◌≡◌};
ghost use Rattle.hold_definitions.specs.Lent.{hold_lent};
ghost use Rattle.hold_definitions.specs.Memory.{point_hold};
ghost use Rattle.hold_definitions.specs.Readings.{held_spec, held_number_spec};
ghost use Rattle.store_definitions.specs.Answers.{done_means, number_means, output};

use crate::check::check_hold;
use hold_definitions::Hold;
use store_definitions::Tables;
use terms::{FloatBits, Refusal};

// The held point indices, oldest first. The output is exactly as long as the list.
#[tactic(auto, using(hold_definitions::proofs::ReadingLaws::held_ill, hold_definitions::proofs::ReadingLaws::held_short, crate::specs::Checked::hold_checked_ok, crate::specs::Checked::hold_checked_err))]
pub fn held(
    h: Hold,
    store: &[FloatBits],
    last_known_shingle: &[FloatBits],
    tables: Tables,
    held_indices: &[u16],
    held_labels: &[u16],
    out: &mut [u16],
) -> Result<(), Refusal>
    ensures { output (done_means result) out.new ≡ held_spec (point_hold h (hold_lent store.now last_known_shingle.now tables.entry held_indices.now held_labels.now)) out.old }
{
    check_hold(
        h,
        store,
        last_known_shingle,
        tables,
        held_indices,
        held_labels,
    )
    .ok_or(Refusal::IllFormed)?;
    if out.len() != h.held {
        return Err(Refusal::Length);
    }
    out.copy_from_slice(&held_indices[..h.held]);
    Ok(())
}

// How many points are held.
#[tactic(auto, using(hold_definitions::proofs::ReadingLaws::number_ill, hold_definitions::proofs::ReadingLaws::number_well, crate::specs::Checked::hold_checked_ok, crate::specs::Checked::hold_checked_err))]
pub fn held_number(
    h: Hold,
    store: &[FloatBits],
    last_known_shingle: &[FloatBits],
    tables: Tables,
    held_indices: &[u16],
    held_labels: &[u16],
) -> Result<usize, Refusal>
    ensures { number_means result ≡ held_number_spec (point_hold h (hold_lent store.now last_known_shingle.now tables.entry held_indices.now held_labels.now)) }
{
    check_hold(
        h,
        store,
        last_known_shingle,
        tables,
        held_indices,
        held_labels,
    )
    .ok_or(Refusal::IllFormed)?;
    Ok(h.held)
}
