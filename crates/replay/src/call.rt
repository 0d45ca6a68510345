// The calls of the record, by their numbers there.
use recorded_text::UnknownCall;
use std::fmt;

#[derive(Clone, Copy)]
pub enum Call {
    Open,
    Add,
    Inc,
    Dec,
    Adjust,
    Compact,
    Copy,
    Count,
    IsEqual,
    PointSum,
    ShingledPoint,
    MissingIndices,
    NextIndices,
    Label,
    Attribute,
    AttributeVec,
}

// Every call, at its number's place.
pub const CALLS: [Call; 16] = [
    Call::Open,
    Call::Add,
    Call::Inc,
    Call::Dec,
    Call::Adjust,
    Call::Compact,
    Call::Copy,
    Call::Count,
    Call::IsEqual,
    Call::PointSum,
    Call::ShingledPoint,
    Call::MissingIndices,
    Call::NextIndices,
    Call::Label,
    Call::Attribute,
    Call::AttributeVec,
];

impl TryFrom<usize> for Call {
    type Error = UnknownCall;

    fn try_from(number: usize) -> Result<Self, UnknownCall> {
        CALLS.get(number).copied().ok_or(UnknownCall(number))
    }
}

impl fmt::Display for Call {
    fn fmt<W: fmt::Write>(&self, f: &mut fmt::Formatter<W>) -> fmt::Result {
        f.write_str(match self {
            Call::Open => "open",
            Call::Add => "add",
            Call::Inc => "inc",
            Call::Dec => "dec",
            Call::Adjust => "adjust",
            Call::Compact => "compact",
            Call::Copy => "copy",
            Call::Count => "count",
            Call::IsEqual => "is_equal",
            Call::PointSum => "point_sum",
            Call::ShingledPoint => "shingled_point",
            Call::MissingIndices => "missing_indices",
            Call::NextIndices => "next_indices",
            Call::Label => "label",
            Call::Attribute => "attribute",
            Call::AttributeVec => "attribute_vec",
        })
    }
}
