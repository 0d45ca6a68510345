// Document 01 as definitions: the types of the store's interface here, what every call does in specs/. The store's code
// stands in the crates above, and its contracts cite these definitions.
#![tactic(auto)]

ghost use Rattle.std.specs.Prelude.{◌≡◌, ◌<◌};
ghost use Rattle.store_definitions.specs.Parts.{base_of};

mod points;
mod raising;
mod tables;

use interval_store_manager::IntervalStoreManager;
use labels::LabelManagers;
use placement::Laid;
pub use points::PointTables;
pub use raising::PointRaising;
pub use tables::Tables;
use terms::{LabelIndex, PointIndex, Refusal};

// The record of a store, under the Rust's names. What the Rust keeps in vectors is lent beside it.
#[derive(Clone, Copy)]
pub struct Store {
    pub dimensions: usize,
    pub shingle_size: usize,
    pub capacity: usize,
    pub internal_shingling: bool,
    pub internal_rotation: bool,
    pub store_labels: bool,
    // Document 01's store length: how many of the lent floats are in use.
    pub store_length: usize,
    pub start_free_region: usize,
    pub next_sequence_index: u32,
    // Its capacity is document 01's table length.
    pub index_manager: IntervalStoreManager,
    pub label_manager: IntervalStoreManager,
    pub attribute_manager: IntervalStoreManager,
    // The class of each reason code, as it was loaded on opening.
    pub classes: [u8; 24],
}

impl Store {
    // How many words each of the shingle's points has.
    pub fn base(self) -> usize
        requires { 0 < self.shingle_size }
        ensures { result ≡ base_of self }
    {
        self.dimensions / self.shingle_size
    }

    pub fn label_managers(self) -> LabelManagers
        ensures { result ≡ record { label_manager = self.label_manager; attribute_manager = self.attribute_manager } }
    {
        LabelManagers {
            label_manager: self.label_manager,
            attribute_manager: self.attribute_manager,
        }
    }
}

// What opening takes besides the memory.
#[derive(Clone, Copy)]
pub struct Shape {
    pub dimensions: usize,
    pub shingle_size: usize,
    pub capacity: usize,
    pub initial_capacity: usize,
    pub internal_shingling: bool,
    pub internal_rotation: bool,
    pub store_labels: bool,
}

// What a kept add gives: the point's index, the label's index (none with labels off), how the row was laid and how many point indices
// remain free.
#[derive(Clone, Copy)]
pub struct Kept {
    pub index: PointIndex,
    // Kept: with labels off NONE: a dec takes the number and C is lent it, so an Option would be turned into it at each.
    pub label: LabelIndex,
    pub laid: Laid,
    pub free_indices: usize,
}

// Why an adjust stopped, and how many pairs stand before the refused one.
#[derive(Clone, Copy, PartialEq, Eq, Debug)]
pub struct AdjustRefusal {
    pub why: Refusal,
    pub pairs_before: usize,
}

// A point index with a label index: what an inc or a dec takes.
#[repr(C)]
#[derive(Clone, Copy)]
pub struct Change {
    pub index: PointIndex,
    pub label: LabelIndex,
}

// One pair of an adjust list.
#[repr(C)]
#[derive(Clone, Copy)]
pub struct Pair {
    pub insert: Change,
    pub delete: Change,
}

// One item of a sum's list.
#[repr(C)]
#[derive(Clone, Copy)]
pub struct Item {
    pub index: PointIndex,
    pub weight: usize,
}
