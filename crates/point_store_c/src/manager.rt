// The interval manager's calls. The words of its record are the capacity and then the entries in use; a record of fewer
// words is ill-formed.
ghost use Rattle.std.specs.Prelude.{[], ◌∷◌, ◌≡◌, ◌≤◌, length};
ghost use Rattle.interval_store_manager.specs.Answers.{changed_means, done};
ghost use Rattle.interval_store_manager.specs.Calls.{change_spec, get_spec, release_spec, used_spec, is_empty_spec, get_capacity_spec};
ghost use Rattle.point_store_c.specs.Exported.{manager_in, manager_out, returned, recorded, exported, exported_opening, exported_call, read, exported_reading};

use crate::answers::number_out;
use interval_store_manager::{IntervalStoreManager, capacity_allowed};
use terms::Refusal;

const RECORD_WORDS: usize = 2;

// The manager that a record holds. One too short holds none: the manager of capacity 0, which is ill-formed.
// Kept: tried with an Option: six calls refuse in a second place and change_capacity in a third (13 before 1), in 14 lines more.
#[tactic(auto, unfolding(crate::specs::Exported::manager_in))]
fn manager_in(words: &[u64]) -> IntervalStoreManager
    ensures { result ≡ manager_in words.now }
{
    if words.len() < RECORD_WORDS {
        return IntervalStoreManager {
            capacity: 0,
            last_in_use: 0,
        };
    }
    IntervalStoreManager {
        capacity: words[0] as usize,
        last_in_use: words[1] as usize,
    }
}

#[tactic(auto, unfolding(crate::specs::Exported::manager_out))]
fn manager_out(words: &mut [u64], m: IntervalStoreManager)
    requires { 2 ≤ length words.old }
    ensures { words.new ≡ manager_out words.old m }
{
    words[0] = m.capacity as u64;
    words[1] = m.last_in_use as u64;
}

#[tactic(auto, unfolding(crate::specs::Exported::exported_opening))]
#[unsafe(no_mangle)]
pub extern "C" fn ps_manager_new(
    words: &mut [u64],
    starts: &mut [u16],
    ends: &mut [u16],
    size: usize,
) -> u64
    ensures { exported result words.new [] starts.new ends.new ≡ exported_opening words.old size starts.old ends.old }
{
    if words.len() < RECORD_WORDS {
        if capacity_allowed(size) {
            return u64::from(Refusal::IllFormed);
        }
        return u64::from(Refusal::ManagerCapacity);
    }
    // Kept: one function with the openings of store, hold and product would take the writer of the record as a closure, and save four lines.
    match IntervalStoreManager::new(size, starts, ends) {
        Err(why) => u64::from(why),
        Ok(m) => {
            manager_out(words, m);
            0
        }
    }
}

// A refused call leaves the record.
fn changed_out(words: &mut [u64], m: IntervalStoreManager, answer: Result<(), Refusal>) -> u64
    requires { changed_means answer ≡ done → 2 ≤ length words.old }
    ensures { (result ≡ returned (changed_means answer)) × (words.new ≡ recorded words.old (changed_means answer) m) }
{
    match answer {
        Err(why) => u64::from(why),
        Ok(()) => {
            manager_out(words, m);
            0
        }
    }
}

#[tactic(auto, using(crate::specs::ExportedLaws::changed_carried))]
#[unsafe(no_mangle)]
pub extern "C" fn ps_manager_change_capacity(
    words: &mut [u64],
    starts: &mut [u16],
    ends: &mut [u16],
    new_capacity: usize,
) -> u64
    ensures { exported result words.new [] starts.new ends.new ≡ exported_call words.old [] (change_spec (manager_in words.old) starts.old ends.old new_capacity) }
{
    let mut m = manager_in(words);
    let answer = m.change_capacity(starts, ends, new_capacity);
    changed_out(words, m, answer)
}

#[tactic(auto, unfolding(crate::specs::Exported::exported_call))]
#[unsafe(no_mangle)]
pub extern "C" fn ps_manager_get(
    words: &mut [u64],
    starts: &mut [u16],
    ends: &[u16],
    index: &mut u64,
    free_indices: &mut u64,
) -> u64
    ensures { exported result words.new (index.new ∷ free_indices.new ∷ []) starts.new ends.now ≡ exported_call words.old (index.old ∷ free_indices.old ∷ []) (get_spec (manager_in words.old) starts.old ends.now) }
{
    let mut m = manager_in(words);
    match m.get(starts, ends) {
        Err(why) => u64::from(why),
        Ok(given) => {
            manager_out(words, m);
            *index = given.index as u64;
            *free_indices = given.free as u64;
            0
        }
    }
}

#[tactic(auto, using(crate::specs::ExportedLaws::changed_carried))]
#[unsafe(no_mangle)]
pub extern "C" fn ps_manager_release(
    words: &mut [u64],
    starts: &mut [u16],
    ends: &mut [u16],
    index: usize,
) -> u64
    ensures { exported result words.new [] starts.new ends.new ≡ exported_call words.old [] (release_spec (manager_in words.old) starts.old ends.old index) }
{
    let mut m = manager_in(words);
    let answer = m.release(starts, ends, index);
    changed_out(words, m, answer)
}

#[unsafe(no_mangle)]
pub extern "C" fn ps_manager_used(
    words: &[u64],
    starts: &[u16],
    ends: &[u16],
    used: &mut u64,
) -> u64
    ensures { read result (used.new ∷ []) ≡ exported_reading (used.old ∷ []) (used_spec (manager_in words.now) starts.now ends.now) }
{
    let answer = manager_in(words).used(starts, ends);
    number_out(answer, used)
}

// 1 where no index is free, else 0.
#[unsafe(no_mangle)]
pub extern "C" fn ps_manager_is_empty(
    words: &[u64],
    starts: &[u16],
    ends: &[u16],
    empty: &mut u64,
) -> u64
    ensures { read result (empty.new ∷ []) ≡ exported_reading (empty.old ∷ []) (is_empty_spec (manager_in words.now) starts.now ends.now) }
{
    let answer = manager_in(words).is_empty(starts, ends);
    number_out(answer.map(usize::from), empty)
}

#[unsafe(no_mangle)]
pub extern "C" fn ps_manager_get_capacity(
    words: &[u64],
    starts: &[u16],
    ends: &[u16],
    capacity: &mut u64,
) -> u64
    ensures { read result (capacity.new ∷ []) ≡ exported_reading (capacity.old ∷ []) (get_capacity_spec (manager_in words.now) starts.now ends.now) }
{
    let answer = manager_in(words).get_capacity(starts, ends);
    number_out(answer, capacity)
}
