// The interval manager of document 01: a stack of intervals of free indices, over two slices that the caller lends. A port
// of intervalstoremanager.rs. Every public call takes any manager and any slices, and refuses what is not well-formed; the
// functions that end in `unchecked` are for callers that have checked, and follow the same definitions.
#![tactic(auto)]

ghost use Rattle.std.specs.Prelude.{◌≡◌};
ghost use Rattle.interval_store_manager.specs.Answers.{opened_means, changed_means, got_means, number_means, emptiness_means, opening, outcome};
ghost use Rattle.interval_store_manager.specs.Calls.{new_spec, change_spec, get_spec, release_spec, used_spec, is_empty_spec, get_capacity_spec};

mod check;
mod decide;
mod unchecked;

pub use check::{capacity_allowed, lent_enough, mark_free, well_formed};
use decide::{change_decision, release_decision};
use terms::Refusal;

// A stack of `last_in_use` intervals over the indices below `capacity`; the caller lends their starts and their ends.
// Kept: manager, starts and ends make no struct: records hold the manager by value, and each call lends the slices as `&` or `&mut`.
#[derive(Clone, Copy)]
pub struct IntervalStoreManager {
    pub capacity: usize,
    pub last_in_use: usize,
}

// What get gives: the index, and how many remain free.
#[derive(Clone, Copy)]
pub struct Given {
    pub index: usize,
    pub free: usize,
}

impl IntervalStoreManager {
    // Document 01: 'capacity is 1 to 1,024'.
    pub const LEAST_CAPACITY: usize = 1;

    pub const LARGEST_CAPACITY: usize = 1024;

    // A manager all of whose indices are free.
    #[tactic(auto, unfolding(crate::specs::Calls::new_spec))]
    pub fn new(
        size: usize,
        starts: &mut [u16],
        ends: &mut [u16],
    ) -> Result<IntervalStoreManager, Refusal>
        ensures { opening (opened_means result) starts.new ends.new ≡ new_spec size starts.old ends.old }
    {
        if !capacity_allowed(size) {
            return Err(Refusal::ManagerCapacity);
        }
        if !lent_enough(size, starts, ends) {
            return Err(Refusal::IllFormed);
        }
        Ok(IntervalStoreManager::new_unchecked(size, starts, ends))
    }

    // Grows the capacity; a change to what it is or below it does nothing.
    #[tactic(auto, unfolding(crate::specs::Calls::change_spec))]
    pub fn change_capacity(
        &mut self,
        starts: &mut [u16],
        ends: &mut [u16],
        new_capacity: usize,
    ) -> Result<(), Refusal>
        ensures { outcome (changed_means result) self.new starts.new ends.new ≡ change_spec self.old starts.old ends.old new_capacity }
    {
        change_decision(*self, starts, ends, new_capacity)?;
        self.change_capacity_unchecked(starts, ends, new_capacity);
        Ok(())
    }

    // Takes a free index, and tells how many remain.
    #[tactic(auto, unfolding(crate::specs::Calls::get_spec, crate::specs::Calls::get_decided))]
    pub fn get(&mut self, starts: &mut [u16], ends: &[u16]) -> Result<Given, Refusal>
        ensures { outcome (got_means result) self.new starts.new ends.now ≡ get_spec self.old starts.old ends.now }
    {
        let free = well_formed(*self, starts, ends).ok_or(Refusal::IllFormed)?;
        if self.last_in_use == 0 {
            return Err(Refusal::PointsFull);
        }
        Ok(self.get_unchecked(starts, ends, free))
    }

    // Makes an index free again.
    #[tactic(auto, unfolding(crate::specs::Calls::release_spec))]
    pub fn release(
        &mut self,
        starts: &mut [u16],
        ends: &mut [u16],
        index: usize,
    ) -> Result<(), Refusal>
        ensures { outcome (changed_means result) self.new starts.new ends.new ≡ release_spec self.old starts.old ends.old index }
    {
        release_decision(*self, starts, ends, index)?;
        self.release_unchecked(starts, ends, index);
        Ok(())
    }

    // How many indices below the capacity are not free.
    #[tactic(auto, unfolding(crate::specs::Calls::used_spec, crate::specs::Calls::reading))]
    pub fn used(self, starts: &[u16], ends: &[u16]) -> Result<usize, Refusal>
        ensures { number_means result ≡ used_spec self starts.now ends.now }
    {
        let free = well_formed(self, starts, ends).ok_or(Refusal::IllFormed)?;
        Ok(self.capacity - free)
    }

    // Whether no index is free.
    #[tactic(auto, unfolding(crate::specs::Calls::is_empty_spec, crate::specs::Calls::reading))]
    pub fn is_empty(self, starts: &[u16], ends: &[u16]) -> Result<bool, Refusal>
        ensures { emptiness_means result ≡ is_empty_spec self starts.now ends.now }
    {
        well_formed(self, starts, ends).ok_or(Refusal::IllFormed)?;
        Ok(self.last_in_use == 0)
    }

    #[tactic(auto, unfolding(crate::specs::Calls::get_capacity_spec, crate::specs::Calls::reading))]
    pub fn get_capacity(self, starts: &[u16], ends: &[u16]) -> Result<usize, Refusal>
        ensures { number_means result ≡ get_capacity_spec self starts.now ends.now }
    {
        well_formed(self, starts, ends).ok_or(Refusal::IllFormed)?;
        Ok(self.capacity)
    }
}
