// Document 02, Point 7: a store on a page, one line for each live index in rising order.
#![tactic(auto)]

mod call;
mod lines;

pub use call::page;
pub use lines::page_unchecked;
