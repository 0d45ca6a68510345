// The store's page.
ghost use Rattle.std.specs.Prelude.{◌≡◌};
ghost use Rattle.store_definitions.specs.Answers.{number_means, output};
ghost use Rattle.store_definitions.specs.Lent.{lent};
ghost use Rattle.store_definitions.specs.Memory.{point_store};
ghost use Rattle.page.specs.Page.{page_spec};

use crate::lines::page_unchecked;
use store_check::check;
use store_definitions::{Store, Tables};
use terms::{FloatBits, Refusal};

// Answers the page's length. A text that is too short is not written to.
pub fn page(
    s: Store,
    store: &[FloatBits],
    last_known_shingle: &[FloatBits],
    tables: Tables,
    text: &mut [u8],
) -> Result<usize, Refusal>
    ensures { output (number_means result) text.new ≡ page_spec (point_store s (lent store.now last_known_shingle.now tables.entry)) text.old }
{
    let figures = check(s, store.len(), last_known_shingle.len(), tables).ok_or(
        Refusal::IllFormed,
    )?;
    page_unchecked(
        s.index_manager.capacity,
        figures.live,
        tables.reference_count,
        tables.location,
        text,
    )
}
