// The row to be laid, and the window that internal shingling moves.
ghost use Rattle.std.specs.Prelude.{◌≡◌, ◌+◌, ◌≤◌, ◌++◌, length, take, drop};
ghost use Rattle.placement.specs.Row.{row_to_lay, moved_window};

use super::words::{copy_down, copy_from};
use terms::FloatBits;

// Kept: window, point and flag stand side by side, here and in `head` and `row_joins`: each caller would put a struct together for one call.
// The window, moved already, or the caller's own point.
#[tactic(auto, unfolding(placement::specs::Row::row_to_lay))]
pub fn row<'a>(
    window: &'a [FloatBits],
    point: &'a [FloatBits],
    internal: bool,
    dimensions: usize,
) -> &'a [FloatBits]
    requires { dimensions ≤ length (row_to_lay internal window.now point.now) }
    ensures { result.now ≡ take dimensions (row_to_lay internal window.now point.now) }
{
    if internal {
        return &window[..dimensions];
    }
    &point[..dimensions]
}

// The first words of the row to be laid, while the window is not moved yet: whether the row fits is judged before the move.
#[tactic(auto, using(crate::proofs::Runs::moved_head), unfolding(placement::specs::Row::row_to_lay))]
pub fn head<'a>(
    window: &'a [FloatBits],
    point: &'a [FloatBits],
    internal: bool,
    base: usize,
    extra: usize,
) -> &'a [FloatBits]
    requires { base + extra ≤ length (row_to_lay internal window.now point.now) }
    ensures { (result.now ≡ take extra (row_to_lay internal (moved_window base (take (base + extra) window.now) point.now) point.now)) × (length result.now ≡ extra) }
{
    if internal {
        let end = base + extra;
        return &window[base..end];
    }
    &point[..extra]
}

// The window drops its first entries and gains the point. Only the first `dimensions` entries are the window.
#[tactic(auto, using(crate::proofs::Runs::window_moved_lem))]
pub fn move_window(window: &mut [FloatBits], point: &[FloatBits], dimensions: usize)
    requires { (length point.now ≤ dimensions) × (dimensions ≤ length window.old) }
    ensures { window.new ≡ moved_window (length point.now) (take dimensions window.old) point.now ++ drop dimensions window.old }
{
    let base = point.len();
    let extra = dimensions - base;
    copy_down(window, 0, base, extra);
    copy_from(window, extra, point);
}
