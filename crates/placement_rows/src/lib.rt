// Rows of 32-bit float words in lent slices: which row is laid, whether it joins the one before it, how it is laid and copied
// out, how the store and the point table grow, and compaction in one pass. Each function does what its definition in
// `placement` says, at words and their equality. The slices may be longer than what the store has in use: what lies
// past that is left as it is.
#![tactic(auto)]

mod compaction;
mod copying;
mod growth;
mod index_table;
mod laying;
mod one_pass;
mod overlap;
mod rows;
mod shape;
mod words;

pub use compaction::compact;
pub use growth::{grow_store, grow_table, grown_length};
pub use laying::{LaidRow, lay};
pub use overlap::{ready_to_copy, row_joins};
pub use rows::{head, move_window, row};
pub use shape::Shape;
pub use words::copy_from;

// The index at a place where no point stands.
// Kept: sixteen bits an entry, where an Option would take twice that of the stack.
const NO_INDEX: u16 = 65535;
