// Whether a point equals the copy of a stored row, word by word.
ghost use Rattle.std.specs.Prelude.{◌≡◌, ◌+◌, ◌*◌, ◌≤◌, ◌<◌, length};
ghost use Rattle.terms.specs.Rows.{all_equal};
ghost use Rattle.float_bits.specs.Words.{words_equal};
ghost use Rattle.placement.specs.Copying.{turned, copied};
ghost use Rattle.store_definitions.specs.Answers.{equality_means};
ghost use Rattle.store_rows.specs.Copying.{Readable};
ghost use Rattle.row_readings.specs.EqualityLaws.{checked_equality};

use float_bits::rows_equal;
use placement_rows::Shape;
use store_counts::point_in_use;
use store_definitions::Store;
use terms::{FloatBits, PointIndex, Refusal};

// A copy begins with its row's last t words, so the row is compared in two parts, where it stands.
#[tactic(auto, using(crate::specs::EqualityLaws::turned_equal))]
fn turned_equals(row: &[FloatBits], point: &[FloatBits], dimensions: usize, t: usize) -> bool
    requires { (length row.now ≡ dimensions) × (length point.now ≡ dimensions) × (t ≤ dimensions) }
    ensures { result ≡ all_equal words_equal (turned dimensions t row.now) point.now }
{
    let others = dimensions - t;
    let first = rows_equal(&row[others..], &point[..t]);
    let second = rows_equal(&row[..others], &point[t..]);
    first & second
}

#[tactic(auto, using(crate::specs::EqualityLaws::copied_part))]
pub fn copy_equals(store: &[FloatBits], point: &[FloatBits], shape: Shape, place: usize) -> bool
    requires { (0 < shape.dimensions) × (length point.now ≡ shape.dimensions) × (place * shape.base + shape.dimensions ≤ length store.now) }
    ensures { result ≡ all_equal words_equal (copied shape.rotation shape.dimensions shape.base place store.now) point.now }
{
    let t = shape.turn_at(place);
    let start = place * shape.base;
    let end = start + shape.dimensions;
    turned_equals(&store[start..end], point, shape.dimensions, t)
}

pub fn is_equal_unchecked(
    s: Store,
    store: &[FloatBits],
    reference_count: &[u16],
    location: &[u16],
    index: PointIndex,
    point: &[FloatBits],
) -> Result<bool, Refusal>
    requires { Readable s (length store.now) reference_count.now location.now }
    ensures { equality_means result ≡ checked_equality words_equal s store.now reference_count.now location.now index.0 point.now }
{
    if !point_in_use(s, reference_count, index) {
        return Err(Refusal::PointNotInUse);
    }
    let dimensions = s.dimensions;
    if point.len() != dimensions {
        return Err(Refusal::Length);
    }
    let shape = Shape::new(dimensions, s.shingle_size, s.internal_rotation);
    let place = location[index.0] as usize;
    Ok(copy_equals(store, point, shape, place))
}
