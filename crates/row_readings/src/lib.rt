// What the store's other readings do once the store is checked: equality with a row's copy, sums of rows, the window that a next
// point would make, and where the next values stand in it. Each function takes just the slices that it reads and writes, with
// what the check shows as its `requires`. They stand apart from the calls over the whole store, so that an edit that must be
// refused is tried in seconds.
#![tactic(auto)]

mod equality;
mod index_list;
mod plain_sum;
mod preview;
mod sum;

pub use equality::{copy_equals, is_equal_unchecked};
pub use index_list::{missing_indices_unchecked, next_indices_unchecked};
pub use plain_sum::plain_sum_unchecked;
pub use preview::shingled_point_unchecked;
pub use sum::{add_item, item_test, point_sum_unchecked};
