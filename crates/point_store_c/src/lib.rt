// The static library for C and Rust: the calls of this repository under C names. A slice is a pointer and then a length, and
// the slices of a call do not overlap. The record of a manager, a store, a hold or a product is a lent slice of words, the
// return value is 0 or the refusal's number, and an answer goes to lent numbers or an output slice. A refused call writes no
// more than document 01 says: what an add refused with 10 made of the floats, the pairs before an adjust's refused one, and
// their number.
// Kept: a C caller passes each slice by itself, so an exported function takes each by itself.
#![tactic(auto)]

mod answers;
mod counts;
mod hold_calls;
mod hold_record;
mod label_readings;
mod manager;
mod name;
mod opening;
mod page_call;
mod probes_calls;
mod probes_record;
mod readings;
mod record;
mod rows;
