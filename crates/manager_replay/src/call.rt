// The calls of the record, by their numbers there.
use recorded_text::UnknownCall;
use std::fmt;

#[derive(Clone, Copy)]
pub enum Call {
    New,
    ChangeCapacity,
    Get,
    Release,
    Used,
    IsEmpty,
    GetCapacity,
}

// Every call, at its number's place.
pub const CALLS: [Call; 7] = [
    Call::New,
    Call::ChangeCapacity,
    Call::Get,
    Call::Release,
    Call::Used,
    Call::IsEmpty,
    Call::GetCapacity,
];

impl TryFrom<usize> for Call {
    type Error = UnknownCall;

    fn try_from(number: usize) -> Result<Self, UnknownCall> {
        CALLS.get(number).copied().ok_or(UnknownCall(number))
    }
}

impl fmt::Display for Call {
    fn fmt<W: fmt::Write>(&self, f: &mut fmt::Formatter<W>) -> fmt::Result {
        f.write_str(match self {
            Call::New => "new",
            Call::ChangeCapacity => "change_capacity",
            Call::Get => "get",
            Call::Release => "release",
            Call::Used => "used",
            Call::IsEmpty => "is_empty",
            Call::GetCapacity => "get_capacity",
        })
    }
}
