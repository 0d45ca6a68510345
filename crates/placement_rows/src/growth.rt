// How long the table or the store becomes, and what fills the new entries.
ghost use Rattle.std.specs.Prelude.{◌≡◌, ◌-◌, ◌≤◌, length};
ghost use Rattle.placement.specs.Growth.{grown};
ghost use Rattle.placement.specs.InPlace.{filled};

use terms::{EMPTY_PLACE, FloatBits};

#[tactic(auto, unfolding(placement::specs::Growth::grown))]
pub fn grown_length(length: usize, least: usize, limit: usize) -> usize
    requires { length ≤ limit }
    ensures { result ≡ grown length least limit }
{
    let fifth = length / 5;
    let gain = if fifth < least { least } else { fifth };
    if gain < limit - length {
        length + gain
    } else {
        limit
    }
}

// The store's new words are 0.0.
pub fn grow_store(store: &mut [FloatBits], old: usize, new: usize)
    requires { (old ≤ new) × (new ≤ length store.old) }
    ensures { store.new ≡ filled 0 old (new - old) store.old }
{
    store[old..new].fill(0);
}

// New indices have count 0 and no place.
pub fn grow_table(reference_count: &mut [u16], location: &mut [u16], old: usize, new: usize)
    requires { (old ≤ new) × (new ≤ length reference_count.old) × (new ≤ length location.old) }
    ensures counts { reference_count.new ≡ filled 0 old (new - old) reference_count.old }
    ensures places { location.new ≡ filled 65535 old (new - old) location.old }
{
    reference_count[old..new].fill(0);
    location[old..new].fill(EMPTY_PLACE);
}
