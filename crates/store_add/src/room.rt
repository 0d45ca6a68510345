// Room for a row: compaction, growth of the store, and whether the row fits then.
ghost use Rattle.std.specs.Prelude.{◌≡◌};
ghost use Rattle.float_bits.specs.Words.{words_equal};
ghost use Rattle.placement.specs.Laying.{written_count};
ghost use Rattle.store_definitions.specs.Rows.{room_made};
ghost use Rattle.store_add.specs.Pieces.{rows_in, row_from, with_extent, joined_if_fits};
ghost use Rattle.store_add.specs.Requires.{Roomy, Rowed};

use placement_rows::{Shape, compact, grow_store, grown_length, row_joins};
use store_definitions::Store;
use terms::{FloatBits, Refusal};

// Room for one row more, as far as compaction and growth give it.
fn make_room(s: &mut Store, store: &mut [FloatBits], location: &mut [u16])
    requires { Roomy s.old store.old location.old }
    ensures rows { rows_in s.new store.new location.new ≡ room_made 0 s.old (rows_in s.old store.old location.old) }
    ensures rest { s.new ≡ with_extent s.new.start_free_region s.new.store_length s.old }
{
    let dimensions = s.dimensions;
    let length = s.store_length;
    let free = s.start_free_region;
    if free + dimensions <= length {
        return;
    }
    let shape = Shape::new(dimensions, s.shingle_size, s.internal_rotation);
    let start = compact(store, location, s.index_manager.capacity, shape, free);
    s.start_free_region = start;
    if start + dimensions <= length {
        return;
    }
    let longer = grown_length(length, dimensions, s.capacity * dimensions);
    grow_store(store, length, longer);
    s.store_length = longer;
}

// How many words are written.
#[tactic(auto, unfolding(placement::specs::Laying::written_count))]
fn written(dimensions: usize, base: usize, joined: bool) -> usize
    ensures { result ≡ written_count dimensions base joined }
{
    if joined {
        return base;
    }
    dimensions
}

// Answers whether the row joins what stands before it. The window is not moved yet. Where the row does not fit, what compaction and
// growth did stands.
pub fn find_room<'a>(
    s: &mut Store,
    store: &mut [FloatBits],
    location: &mut [u16],
    window: &'a [FloatBits],
    point: &'a [FloatBits],
) -> Result<bool, Refusal>
    requires { Roomy s.old store.old location.old × Rowed s.old window.now point.now }
    ensures rows { rows_in s.new store.new location.new ≡ room_made 0 s.old (rows_in s.old store.old location.old) }
    ensures rest { s.new ≡ with_extent s.new.start_free_region s.new.store_length s.old }
    ensures answer { result ≡ joined_if_fits words_equal s.old (rows_in s.new store.new location.new) (row_from s.old window.now point.now) }
{
    let dimensions = s.dimensions;
    let base = s.base();
    make_room(s, store, location);
    let joined = row_joins(
        store,
        window,
        point,
        s.internal_shingling,
        s.shingle_size,
        base,
        dimensions - base,
        s.start_free_region,
    );
    if s.start_free_region + written(dimensions, base, joined) <= s.store_length {
        return Ok(joined);
    }
    Err(Refusal::FloatSpaceFull)
}
