// New, get, release and change for callers that have checked: the same definitions, with what the check shows as `requires`.
ghost use Rattle.std.specs.Prelude.{true, false, ◌≡◌, ◌<◌, ◌≤◌, length};
ghost use Rattle.interval_store_manager.specs.Intervals.{is_free, free_number};
ghost use Rattle.interval_store_manager.specs.WellFormed.{capacity_allowed, lent_enough, well_formed};
ghost use Rattle.interval_store_manager.specs.Answers.{done, given, opened, opening, outcome};
ghost use Rattle.interval_store_manager.specs.Calls.{new_spec, changed, pushed, taken, released};

use crate::{Given, IntervalStoreManager};

// Kept: no plainer: that a manager is well-formed is one equation in three contracts, beside other facts in each.
impl IntervalStoreManager {
    #[tactic(auto, using(crate::specs::Sound::allowed, crate::specs::Sound::lent), unfolding(crate::specs::Calls::new_spec))]
    pub fn new_unchecked(size: usize, starts: &mut [u16], ends: &mut [u16]) -> IntervalStoreManager
        requires { (capacity_allowed size ≡ true) × (lent_enough size starts.old ends.old ≡ true) }
        ensures { opening (opened result) starts.new ends.new ≡ new_spec size starts.old ends.old }
    {
        starts[0] = 0;
        ends[0] = (size - 1) as u16;
        IntervalStoreManager {
            capacity: size,
            last_in_use: 1,
        }
    }

    // Pushes [start, end] on the stack, at another capacity.
    #[tactic(auto, unfolding(crate::specs::Calls::pushed))]
    fn push(
        &mut self,
        starts: &mut [u16],
        ends: &mut [u16],
        capacity: usize,
        start: usize,
        end: usize,
    )
        requires { (self.old.last_in_use < length starts.old) × ((self.old.last_in_use < length ends.old) × ((start ≤ 1023) × (end ≤ 1023))) }
        ensures { outcome done self.new starts.new ends.new ≡ pushed done capacity self.old.last_in_use starts.old ends.old start end }
    {
        let n = self.last_in_use;
        starts[n] = start as u16;
        ends[n] = end as u16;
        self.capacity = capacity;
        self.last_in_use = n + 1;
    }

    // The check has counted how many are free.
    pub fn get_unchecked(&mut self, starts: &mut [u16], ends: &[u16], free: usize) -> Given
        requires { (well_formed self.old starts.old ends.now ≡ true) × ((0 < self.old.last_in_use) × (free ≡ free_number self.old.capacity self.old.last_in_use starts.old ends.now)) }
        ensures { outcome (given result.index result.free) self.new starts.new ends.now ≡ taken self.old starts.old ends.now }
    {
        let top = self.last_in_use - 1;
        let start = starts[top];
        if start == ends[top] {
            self.last_in_use = top;
        } else {
            starts[top] = start + 1;
        }
        Given {
            index: start as usize,
            free: free - 1,
        }
    }

    pub fn release_unchecked(&mut self, starts: &mut [u16], ends: &mut [u16], index: usize)
        requires { (well_formed self.old starts.old ends.old ≡ true) × ((index < self.old.capacity) × (is_free self.old.last_in_use starts.old ends.old index ≡ false)) }
        ensures { outcome done self.new starts.new ends.new ≡ released self.old starts.old ends.old index }
    {
        let n = self.last_in_use;
        let capacity = self.capacity;
        if n == 0 {
            self.push(starts, ends, capacity, index, index);
            return;
        }
        let top = n - 1;
        let start = starts[top] as usize;
        if start == index + 1 {
            starts[top] = index as u16;
            return;
        }
        let end = ends[top] as usize;
        if end + 1 == index {
            ends[top] = index as u16;
            return;
        }
        self.push(starts, ends, capacity, index, index);
    }

    pub fn change_capacity_unchecked(
        &mut self,
        starts: &mut [u16],
        ends: &mut [u16],
        new_capacity: usize,
    )
        requires { (well_formed self.old starts.old ends.old ≡ true) × ((new_capacity ≤ 1024) × (lent_enough new_capacity starts.old ends.old ≡ true)) }
        ensures { outcome done self.new starts.new ends.new ≡ changed self.old starts.old ends.old new_capacity }
    {
        let capacity = self.capacity;
        if capacity < new_capacity {
            self.push(starts, ends, new_capacity, capacity, new_capacity - 1);
        }
    }
}
