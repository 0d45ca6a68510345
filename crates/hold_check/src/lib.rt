// The well-formedness check of a hold: its store's, and one linear pass over its list. A hold as its own calls leave it is checked without a
// mark (`steady`), any other with local marks where places do not rise along the list.
// The readings of a hold, which need nothing else.
#![tactic(auto)]

mod check;
mod list;
mod read;
mod rise;
mod steady;
mod store;

pub use check::check_hold;
pub use read::{held, held_number};
