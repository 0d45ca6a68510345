// Decimal numbers right-justified in fields of any width, and lines of such fields: writers into a part of a lent text, readers
// from one. The rule of a field stands in specs/Field.antt, its laws for every width in proofs/FieldLaws.antt.
#![tactic(auto)]

mod columns;
mod read;
mod write;

pub use read::{field_value, is_field, is_line, read_field};
pub use write::{put_field, put_line, write_field};

pub const LINE_FEED: u8 = 10;
