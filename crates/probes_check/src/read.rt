// The reading of a product: how many estimates each probe has had.
ghost use Rattle.std.specs.Prelude.{◌≡◌};
ghost use Rattle.probes_definitions.specs.Memory.{point_probes};
ghost use Rattle.probes_definitions.specs.Tallies.{tallies_spec};
ghost use Rattle.store_definitions.specs.Answers.{done_means, output};
ghost use Rattle.store_definitions.specs.Lent.{lent};

use crate::check::check_probes;
use probes_definitions::Probes;
use store_definitions::Tables;
use terms::{FloatBits, Refusal};

// The output has exactly eight entries.
#[tactic(auto, using(crate::specs::CheckLaws::read_ill, crate::specs::CheckLaws::read_short, crate::specs::CheckLaws::read_whole, crate::specs::Checked::probes_checked_ok, crate::specs::Checked::probes_checked_err))]
pub fn tallies(
    p: Probes,
    store: &[FloatBits],
    last_known_shingle: &[FloatBits],
    tables: Tables,
    out: &mut [u32],
) -> Result<(), Refusal>
    ensures { output (done_means result) out.new ≡ tallies_spec (point_probes p (lent store.now last_known_shingle.now tables.entry)) out.old }
{
    check_probes(p, store, last_known_shingle, tables).ok_or(Refusal::IllFormed)?;
    if out.len() != 8 {
        return Err(Refusal::Length);
    }
    out.copy_from_slice(&p.tallies);
    Ok(())
}
