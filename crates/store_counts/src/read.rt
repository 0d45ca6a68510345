// The readings of a count, of the number of live points and of the free start.
ghost use Rattle.std.specs.Prelude.{◌≡◌};
ghost use Rattle.store_definitions.specs.Answers.{number_means};
ghost use Rattle.store_definitions.specs.Counting.{count_spec, live_number_spec, free_start_spec};
ghost use Rattle.store_definitions.specs.Lent.{lent};
ghost use Rattle.store_definitions.specs.Memory.{point_store};

use crate::decide::point_in_use;
use labels::entry;
use store_check::check;
use store_definitions::{Store, Tables};
use terms::{FloatBits, PointIndex, Refusal};

#[tactic(auto, using(crate::specs::ReadingLaws::count_refused, crate::specs::ReadingLaws::count_of_dead, crate::specs::ReadingLaws::count_of_live))]
pub fn count(
    s: Store,
    store: &[FloatBits],
    last_known_shingle: &[FloatBits],
    tables: Tables,
    index: PointIndex,
) -> Result<usize, Refusal>
    ensures { number_means result ≡ count_spec (point_store s (lent store.now last_known_shingle.now tables.entry)) index.0 }
{
    check(s, store.len(), last_known_shingle.len(), tables).ok_or(Refusal::IllFormed)?;
    if !point_in_use(s, tables.reference_count, index) {
        return Err(Refusal::PointNotInUse);
    }
    Ok(entry(tables.reference_count, index.0, 0) as usize)
}

#[tactic(auto, using(crate::specs::ReadingLaws::live_number_refused, crate::specs::ReadingLaws::live_number_read))]
pub fn live_number(
    s: Store,
    store: &[FloatBits],
    last_known_shingle: &[FloatBits],
    tables: Tables,
) -> Result<usize, Refusal>
    ensures { number_means result ≡ live_number_spec (point_store s (lent store.now last_known_shingle.now tables.entry)) }
{
    let figures = check(s, store.len(), last_known_shingle.len(), tables).ok_or(
        Refusal::IllFormed,
    )?;
    Ok(figures.live)
}

#[tactic(auto, using(crate::specs::ReadingLaws::free_start_refused, crate::specs::ReadingLaws::free_start_read))]
pub fn free_start(
    s: Store,
    store: &[FloatBits],
    last_known_shingle: &[FloatBits],
    tables: Tables,
) -> Result<usize, Refusal>
    ensures { number_means result ≡ free_start_spec (point_store s (lent store.now last_known_shingle.now tables.entry)) }
{
    check(s, store.len(), last_known_shingle.len(), tables).ok_or(Refusal::IllFormed)?;
    Ok(s.start_free_region)
}
