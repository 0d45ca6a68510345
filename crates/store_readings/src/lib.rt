// The store's other readings. Each takes any record and any lent memory, checks first and refuses by document 01's numbers; the
// store is only read, and an output slice of a refused call is left as it was. What follows the check stands in `row_readings`
// and `labels`.
#![tactic(auto)]

mod index_calls;
mod label_readings;
mod preview_calls;
mod rows;

pub use index_calls::{missing_indices, next_indices};
pub use label_readings::{attribute, attribute_vec, label};
pub use preview_calls::shingled_point;
pub use rows::{is_equal, point_sum_plain};
