// Whether a row joins what stands before the free start.
ghost use Rattle.std.specs.Prelude.{◌≡◌, ◌+◌, ◌≤◌, length, take};
ghost use Rattle.float_bits.specs.Words.{words_equal};
ghost use Rattle.placement.specs.Overlap.{overlaps};
ghost use Rattle.placement.specs.Row.{row_to_lay, moved_window};

use super::rows::head;
use float_bits::rows_equal;
use terms::FloatBits;

// Of the row only the first `extra` words are looked at.
#[tactic(auto, unfolding(placement::specs::Overlap::overlaps))]
pub fn ready_to_copy(
    store: &[FloatBits],
    row: &[FloatBits],
    shingle_size: usize,
    extra: usize,
    start_free_region: usize,
) -> bool
    requires { (extra ≤ length row.now) × (start_free_region ≤ length store.now) }
    ensures { result ≡ overlaps words_equal shingle_size extra start_free_region store.now row.now }
{
    if shingle_size <= 1 {
        return false;
    }
    if start_free_region <= extra {
        return false;
    }
    let from = start_free_region - extra;
    rows_equal(&store[from..start_free_region], &row[..extra])
}

// The same test while the window is not moved yet, of the row that is to be laid.
#[tactic(auto, using(crate::proofs::Runs::overlaps_head))]
pub fn row_joins<'a>(
    store: &[FloatBits],
    window: &'a [FloatBits],
    point: &'a [FloatBits],
    internal: bool,
    shingle_size: usize,
    base: usize,
    extra: usize,
    start_free_region: usize,
) -> bool
    requires { (base + extra ≤ length (row_to_lay internal window.now point.now)) × (start_free_region ≤ length store.now) }
    ensures { result ≡ overlaps words_equal shingle_size extra start_free_region store.now (row_to_lay internal (moved_window base (take (base + extra) window.now) point.now) point.now) }
{
    ready_to_copy(
        store,
        head(window, point, internal, base, extra),
        shingle_size,
        extra,
        start_free_region,
    )
}
