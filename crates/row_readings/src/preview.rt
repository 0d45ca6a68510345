// The window that a next point would make.
ghost use Rattle.std.specs.Prelude.{◌≡◌, length, ◌≤◌};
ghost use Rattle.store_definitions.specs.Answers.{done_means, output};
ghost use Rattle.row_readings.specs.Shingled.{Shingled};
ghost use Rattle.store_definitions.specs.Preview.{shown, preview_written};
ghost use Rattle.row_readings.specs.Previews.{Shown};

use placement_rows::{copy_from, move_window};
use store_definitions::Store;
use terms::{FloatBits, Refusal};

// The point stands last in the moved window or, rotating, over entry (sequence × base) mod dimensions of the unmoved one.
fn show_window(
    rotation: bool,
    dimensions: usize,
    sequence: u32,
    window: &[FloatBits],
    point: &[FloatBits],
    out: &mut [FloatBits],
)
    requires { Shown dimensions (length window.now) (length point.now) (length out.old) }
    ensures { out.new ≡ shown rotation dimensions (length point.now) sequence window.now point.now }
{
    copy_from(out, 0, &window[..dimensions]);
    if rotation {
        let at = sequence as usize * point.len() % dimensions;
        copy_from(out, at, point);
        return;
    }
    move_window(out, point, dimensions);
}

// With shingle size 1 base is dimensions, and the answer is always the input.
pub fn shingled_point_unchecked(
    s: Store,
    last_known_shingle: &[FloatBits],
    point: &[FloatBits],
    out: &mut [FloatBits],
) -> Result<(), Refusal>
    requires { (Shingled s) × (s.dimensions ≤ length last_known_shingle.now) }
    ensures { output (done_means result) out.new ≡ preview_written s last_known_shingle.now point.now out.old }
{
    let dimensions = s.dimensions;
    if out.len() != dimensions {
        return Err(Refusal::Length);
    }
    if (point.len() == s.base()) & (1 < s.shingle_size) {
        if s.internal_shingling {
            show_window(
                s.internal_rotation,
                dimensions,
                s.next_sequence_index,
                last_known_shingle,
                point,
                out,
            );
            return Ok(());
        }
        return Err(Refusal::Length);
    }
    if point.len() != dimensions {
        return Err(Refusal::Length);
    }
    copy_from(out, 0, point);
    Ok(())
}
