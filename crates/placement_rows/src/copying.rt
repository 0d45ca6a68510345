// A stored row is copied out, turned by its place where the store rotates.
ghost use Rattle.std.specs.Prelude.{◌≡◌, ◌+◌, ◌*◌, ◌^◌, ◌<◌, ◌≤◌, length};
ghost use Rattle.placement.specs.Copying.{turn, turned, copied};

use super::shape::Shape;
use super::words::copy_from;
use terms::FloatBits;

// The row's last words come first: two straight copies.
#[tactic(auto, using(crate::proofs::Runs::turned_copied))]
fn copy_turned(row: &[FloatBits], out: &mut [FloatBits], last: usize, others: usize)
    requires { (length row.now ≡ last + others) × (length out.old ≡ last + others) }
    ensures { out.new ≡ turned (last + others) last row.now }
{
    copy_from(out, 0, &row[others..]);
    copy_from(out, last, &row[..others]);
}

impl Shape {
    // How many of a row's last words its copy begins with.
    #[tactic(auto, unfolding(placement::specs::Copying::turn))]
    pub fn turn_at(self, place: usize) -> usize
        requires { (0 < self.dimensions) × (place * self.base < 2 ^ 64) }
        ensures { (result ≡ turn self.rotation self.dimensions self.base place) × (result ≤ self.dimensions) }
    {
        if self.rotation {
            return place * self.base % self.dimensions;
        }
        0
    }

    #[tactic(auto, using(crate::proofs::Runs::copy_turned))]
    pub fn copy(self, store: &[FloatBits], out: &mut [FloatBits], place: usize)
        requires { (0 < self.dimensions) × (length out.old ≡ self.dimensions) × (place * self.base + self.dimensions ≤ length store.now) }
        ensures { out.new ≡ copied self.rotation self.dimensions self.base place store.now }
    {
        let t = self.turn_at(place);
        let others = self.dimensions - t;
        let start = place * self.base;
        let end = start + self.dimensions;
        copy_turned(&store[start..end], out, t, others);
    }
}
