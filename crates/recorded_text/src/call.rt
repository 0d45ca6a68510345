// What the replays say of a number in a record that none of their calls has.
use std::fmt;

// The value that such a line has to hold to agree.
pub const NO_CALL: usize = 99;

#[derive(Clone, Copy)]
pub struct UnknownCall(pub usize);

impl fmt::Display for UnknownCall {
    fn fmt<W: fmt::Write>(&self, f: &mut fmt::Formatter<W>) -> fmt::Result {
        f.write_str("no call")
    }
}
