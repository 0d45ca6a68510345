// The product for the eight-probe block, above a store of its own: one entry a probe, a set of eight readings one add. The types of
// its interface are here, what every call does is in specs/; the code stands in the crates above.
#![tactic(auto)]

use store_definitions::Store;

// What one probe reports.
#[derive(Clone, Copy)]
pub enum Reading {
    Measured(f32),
    Estimated(f32),
    Absent,
}

// The record of a product. Its store's memory is lent beside it. The last floats are the end of the store's window, and are kept
// nowhere else.
#[derive(Clone, Copy)]
pub struct Probes {
    pub store: Store,
    // How many estimates each probe has had. None is above the store's sequence, so 32 bits do.
    pub tallies: [u32; 8],
}
