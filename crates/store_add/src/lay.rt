// The window moves, and the row is laid.
ghost use Rattle.std.specs.Prelude.{◌≡◌, ◌/◌, length};
ghost use Rattle.placement.specs.Laying.{laid_as, laid_elements, laid_free};
ghost use Rattle.placement_rows.specs.Layable.{Layable};
ghost use Rattle.store_definitions.specs.Parts.{base_of};
ghost use Rattle.store_add.specs.Pieces.{window_moved, row_from};
ghost use Rattle.store_add.specs.Requires.{Rowed};

use placement_rows::{LaidRow, lay, move_window, row};
use store_definitions::Store;
use terms::FloatBits;

pub fn shift_window(s: Store, window: &mut [FloatBits], point: &[FloatBits])
    requires { Rowed s window.old point.now }
    ensures { window.new ≡ window_moved s window.old point.now }
{
    if s.internal_shingling {
        move_window(window, point, s.dimensions);
    }
}

pub fn lay_row(
    s: Store,
    store: &mut [FloatBits],
    window: &mut [FloatBits],
    point: &[FloatBits],
    start_free_region: usize,
    joined: bool,
) -> LaidRow
    requires { Rowed s window.old point.now × Layable s.dimensions (base_of s) joined start_free_region s.dimensions (length store.old) }
    ensures window { window.new ≡ window_moved s window.old point.now }
    ensures store { store.new ≡ laid_elements s.dimensions (base_of s) joined start_free_region store.old (row_from s window.old point.now) }
    ensures answer { (result.laid ≡ laid_as s.dimensions (base_of s) joined start_free_region) × (result.start_free_region ≡ laid_free s.dimensions (base_of s) joined start_free_region) }
{
    let dimensions = s.dimensions;
    let base = s.base();
    shift_window(s, window, point);
    let laid = row(window, point, s.internal_shingling, dimensions);
    lay(store, laid, dimensions, base, start_free_region, joined)
}
