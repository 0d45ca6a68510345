// The label half of document 01's store: reason classes, label indices and attribute slots, over lent slices, two interval
// managers and the capacity. The store's calls sequence it with the points. Decisions and readings take any slices; taking,
// inc and dec are for callers that have checked.
#![tactic(auto)]

mod classes;
mod count;
mod decide;
mod entries;
mod read;
mod tables;
mod take;
mod to_lower;
mod to_raise;
mod to_take;
mod to_write;

pub use classes::{LARGEST_CODE, class_of};
pub use count::{dec_label, inc_label};
pub use decide::{
    LARGEST_COUNT, code_decision, dec_decision, inc_decision, label_in_use, room_decision,
};
pub use entries::entry;
use interval_store_manager::IntervalStoreManager;
pub use read::{attribute, attribute_vec, label};
pub use tables::LabelTables;
pub use take::take_label;
pub use to_lower::LabelLowering;
pub use to_raise::LabelRaising;
pub use to_take::LabelTaking;
pub use to_write::LabelWriting;

// The managers of the label indices and of the attribute slots.
#[derive(Clone, Copy)]
pub struct LabelManagers {
    pub label_manager: IntervalStoreManager,
    pub attribute_manager: IntervalStoreManager,
}

// How many label indices and how many slots are free.
#[derive(Clone, Copy)]
pub struct LabelsFree {
    pub labels: usize,
    pub slots: usize,
}
