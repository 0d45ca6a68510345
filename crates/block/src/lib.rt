// A store with its memory by value, for programs: at most sixteen points and 512 floats. Each method lends the memory to one call
// of the store.
#![tactic(auto)]

use labels::LabelTables;
use store_definitions::{Store, Tables};

mod changing;
mod opening;
mod reading;

// The record, the floats, the window and the thirteen tables, under the names of the store's calls.
#[derive(Clone, Copy)]
pub struct Block {
    pub store: Store,
    pub floats: [u32; 512],
    pub window: [u32; 32],
    pub reference_count: [u16; 16],
    pub location: [u16; 16],
    pub index_starts: [u16; 16],
    pub index_ends: [u16; 16],
    pub labels: [u8; 16],
    pub label_attributes: [u16; 16],
    pub label_count: [u16; 16],
    pub label_starts: [u16; 16],
    pub label_ends: [u16; 16],
    pub attributes: [u8; 16],
    pub attribute_count: [u32; 16],
    pub attribute_starts: [u16; 16],
    pub attribute_ends: [u16; 16],
}

impl Block {
    // The tables as the calls that read are lent them.
    fn tables(&self) -> Tables<'_> {
        Tables {
            reference_count: &self.reference_count,
            location: &self.location,
            index_starts: &self.index_starts,
            index_ends: &self.index_ends,
            label_tables: LabelTables {
                labels: &self.labels,
                label_attributes: &self.label_attributes,
                label_count: &self.label_count,
                label_starts: &self.label_starts,
                label_ends: &self.label_ends,
                attributes: &self.attributes,
                attribute_count: &self.attribute_count,
                attribute_starts: &self.attribute_starts,
                attribute_ends: &self.attribute_ends,
            },
        }
    }
}
