// The window that a next point would make.
ghost use Rattle.std.specs.Prelude.{◌≡◌};
ghost use Rattle.store_definitions.specs.Answers.{done_means, output};
ghost use Rattle.store_definitions.specs.Lent.{lent};
ghost use Rattle.store_definitions.specs.Memory.{point_store};
ghost use Rattle.store_definitions.specs.Preview.{shingled_point_spec};

use row_readings::shingled_point_unchecked;
use store_check::check;
use store_definitions::{Store, Tables};
use terms::{FloatBits, Refusal};

#[tactic(auto, using(store_check::specs::Checked::check_failed, store_laws::specs::IllFormedLaws::preview_ill))]
pub fn shingled_point(
    s: Store,
    store: &[FloatBits],
    last_known_shingle: &[FloatBits],
    tables: Tables,
    point: &[FloatBits],
    out: &mut [FloatBits],
) -> Result<(), Refusal>
    ensures { output (done_means result) out.new ≡ shingled_point_spec (point_store s (lent store.now last_known_shingle.now tables.entry)) point.now out.old }
{
    check(s, store.len(), last_known_shingle.len(), tables).ok_or(Refusal::IllFormed)?;
    shingled_point_unchecked(s, last_known_shingle, point, out)
}
