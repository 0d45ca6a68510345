// The table of reason classes that a store is opened with: which tables are allowed, the text of a table, and the text of document
// 01's own table.
#![tactic(auto)]

mod allowed;
mod read;
mod reasons;

pub use allowed::table_allowed;
pub use read::read_classes;
pub use reasons::reason_classes_text;
