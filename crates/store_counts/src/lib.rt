// The calls that count: one more or one less of a point and of its label, and the readings of a count, of the number of live
// points and of the free start. Each takes any store and any memory, and checks them first; under inc and dec stand the same
// for callers that have checked.
// Kept: no plainer: that the store is well-formed is one equation in each contract, here and in `store_adjust`.
#![tactic(auto)]

mod decide;
mod lower;
mod raise;
mod read;

pub use decide::{dec_test, inc_test, point_in_use};
pub use lower::{dec, dec_accepted, dec_unchecked};
pub use raise::{inc, inc_accepted, inc_unchecked};
pub use read::{count, free_start, live_number};
