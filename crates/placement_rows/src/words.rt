// Runs of words of one slice: written from another slice, or copied down.
ghost use Rattle.std.specs.Prelude.{◌≡◌, ◌+◌, ◌≤◌, length};
ghost use Rattle.std.proofs.Math.Seq.{paste};
ghost use Rattle.placement.specs.InPlace.{copied_within};

use terms::FloatBits;

pub fn copy_from(words: &mut [FloatBits], at: usize, from: &[FloatBits])
    requires { at + length from.now ≤ length words.old }
    ensures { words.new ≡ paste words.old at from.now (length from.now) }
{
    let end = at + from.len();
    words[at..end].copy_from_slice(from);
}

// Where nothing moves there is nothing to do.
#[tactic(auto, using(crate::proofs::Parts::copy_still))]
pub fn copy_down(words: &mut [FloatBits], at: usize, from: usize, count: usize)
    requires { (at ≤ from) × (from + count ≤ length words.old) }
    ensures { words.new ≡ copied_within at from count words.old }
{
    if at == from {
        return;
    }
    words.copy_within(from..from + count, at);
}
