// The well-formedness check of a product: its store's, its base and flag, and its tallies. The reading of a product, which needs
// nothing else.
#![tactic(auto)]

mod check;
mod read;

pub use check::{check_probes, eight_probes};
pub use read::tallies;
