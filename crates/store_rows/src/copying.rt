// A point's row copied out.
ghost use Rattle.std.specs.Prelude.{◌≡◌, length};
ghost use Rattle.store_definitions.specs.Answers.{done_means, output};
ghost use Rattle.store_definitions.specs.Lent.{lent};
ghost use Rattle.store_definitions.specs.Memory.{point_store};
ghost use Rattle.store_definitions.specs.Rows.{copy_spec};
ghost use Rattle.store_rows.specs.Copying.{Readable, checked_copy};

use placement_rows::Shape;
use store_check::check;
use store_definitions::{Store, Tables};
use terms::{FloatBits, PointIndex, Refusal};

// Of a store whose live points stand within its floats.
#[tactic(auto, using(crate::specs::Copying::past_table, crate::specs::Copying::not_counted, crate::specs::Copying::other_length, crate::specs::Copying::row_copied, terms::specs::Below::positive))]
pub fn copy_unchecked(
    s: Store,
    store: &[FloatBits],
    reference_count: &[u16],
    location: &[u16],
    index: PointIndex,
    out: &mut [FloatBits],
) -> Result<(), Refusal>
    requires { Readable s (length store.now) reference_count.now location.now }
    ensures { output (done_means result) out.new ≡ checked_copy s store.now reference_count.now location.now index.0 out.old }
{
    // Kept: not `store_counts::point_in_use`: opening, compaction and copies would stand on the crate of inc and dec for two tests.
    let manager = s.index_manager;
    let at = index.0;
    if manager.capacity <= at {
        return Err(Refusal::PointNotInUse);
    }
    if reference_count[at] == 0 {
        return Err(Refusal::PointNotInUse);
    }
    let dimensions = s.dimensions;
    if out.len() != dimensions {
        return Err(Refusal::Length);
    }
    let shape = Shape::new(dimensions, s.shingle_size, s.internal_rotation);
    let place = location[at] as usize;
    shape.copy(store, out, place);
    Ok(())
}

#[tactic(auto, using(store_check::specs::Checked::check_failed, store_laws::specs::IllFormedLaws::copy_ill))]
pub fn copy(
    s: Store,
    store: &[FloatBits],
    last_known_shingle: &[FloatBits],
    tables: Tables,
    index: PointIndex,
    out: &mut [FloatBits],
) -> Result<(), Refusal>
    ensures { output (done_means result) out.new ≡ copy_spec (point_store s (lent store.now last_known_shingle.now tables.entry)) index.0 out.old }
{
    check(s, store.len(), last_known_shingle.len(), tables).ok_or(Refusal::IllFormed)?;
    copy_unchecked(
        s,
        store,
        tables.reference_count,
        tables.location,
        index,
        out,
    )
}
