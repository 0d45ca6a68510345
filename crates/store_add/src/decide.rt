// What is decided of an add to a well-formed store, the first cause that applies.
ghost use Rattle.std.specs.Prelude.{◌≡◌, ◌≤◌, ◌<◌};
ghost use Rattle.store_definitions.specs.Adding.{point_length, waits, table_full};
ghost use Rattle.store_definitions.specs.Parts.{table_length};
ghost use Rattle.store_add.specs.Deciding.{decision_means, keep_asked, add_asked};

use labels::{code_decision, room_decision};
use placement_rows::grown_length;
use store_definitions::Store;
use terms::Refusal;

// What an add that is not refused does: it keeps its point, or it waits for more points of the shingle.
#[derive(Clone, Copy, PartialEq, Eq, Debug)]
pub enum AddStep {
    Keep,
    Wait,
}

#[tactic(auto, unfolding(store_definitions::specs::Adding::point_length))]
fn point_length(s: Store) -> usize
    requires { 0 < s.shingle_size }
    ensures { result ≡ point_length s }
{
    if s.internal_shingling {
        return s.base();
    }
    s.dimensions
}

#[tactic(auto, unfolding(store_definitions::specs::Adding::waits))]
fn still_waits(s: Store) -> bool
    ensures { result ≡ waits s }
{
    if s.internal_shingling {
        return s.next_sequence_index as usize + 1 < s.shingle_size;
    }
    false
}

// Kept: that the table is within the capacity is one comparison in three contracts: a record of it would be longer.
// No index is free, and growth gives none.
#[tactic(auto, unfolding(store_definitions::specs::Adding::table_full))]
fn table_full(s: Store) -> bool
    requires { table_length s ≤ s.capacity }
    ensures { result ≡ table_full s }
{
    let manager = s.index_manager;
    if manager.last_in_use == 0 {
        return grown_length(manager.capacity, 1, s.capacity) == manager.capacity;
    }
    false
}

#[tactic(auto, unfolding(crate::specs::Deciding::keep_asked))]
fn keep_decision(s: Store) -> Result<AddStep, Refusal>
    requires { table_length s ≤ s.capacity }
    ensures { decision_means result ≡ keep_asked s }
{
    if still_waits(s) {
        return Ok(AddStep::Wait);
    }
    room_decision(s.store_labels, s.label_manager)?;
    if table_full(s) {
        return Err(Refusal::PointsFull);
    }
    Ok(AddStep::Keep)
}

#[tactic(auto, unfolding(crate::specs::Deciding::add_asked))]
pub fn add_decision(s: Store, length: usize, code: usize) -> Result<AddStep, Refusal>
    requires { (0 < s.shingle_size) × (table_length s ≤ s.capacity) }
    ensures { decision_means result ≡ add_asked s length code }
{
    if length != point_length(s) {
        return Err(Refusal::Length);
    }
    // Document 01: 'sequence number at 4,294,967,295'.
    if s.next_sequence_index == u32::MAX {
        return Err(Refusal::SequenceFull);
    }
    code_decision(s.store_labels, code)?;
    keep_decision(s)
}
