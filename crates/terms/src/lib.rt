// The terms that every crate shares: the refusals of documents 01 and 02 with their numbers, the two kinds of index, and a
// binary32 float held as its 32 bits.
#![tactic(auto)]

ghost use Rattle.std.specs.Prelude.{◌≡◌};
ghost use Rattle.terms.specs.Refusals.{number};

// Why a call was refused: one case for each number, document 01's and then document 02's, in their order.
#[derive(Clone, Copy, PartialEq, Eq, Debug)]
pub enum Refusal {
    IllFormed,
    Shape,
    Length,
    LabelCode,
    PointNotInUse,
    LabelNotInUse,
    CountFull,
    LabelsFull,
    PointsFull,
    FloatSpaceFull,
    ValueTooLarge,
    SequenceFull,
    ManagerCapacity,
    NotReleasable,
    HoldWidth,
    NoEarlierReading,
    ClassText,
    TextLength,
}

// The index of a point. A tuple struct of its own, so that a label's index cannot stand in its place.
#[repr(C)]
#[derive(Clone, Copy, PartialEq, Eq, Debug)]
pub struct PointIndex(pub usize);

// The index of a label.
#[repr(C)]
#[derive(Clone, Copy, PartialEq, Eq, Debug)]
pub struct LabelIndex(pub usize);

// A binary32 float, held as its 32 bits.
pub type FloatBits = u32;

// What document 01 calls none: the index that no point and no label has.
// Kept: the C interface takes and writes this number where an Option would say None.
pub const NONE: usize = 0xffff_ffff_ffff_ffff;

// The place of an index that has no point.
// Kept: an entry of the lent table has sixteen bits, so that there is no place is one of their numbers.
pub const EMPTY_PLACE: u16 = 65535;

// Document 01's number of a refusal.
impl From<Refusal> for u64 {
    ghost from_gives = { λ r n. n ≡ number r };

    fn from(why: Refusal) -> u64 {
        match why {
            Refusal::IllFormed => 1,
            Refusal::Shape => 2,
            Refusal::Length => 3,
            Refusal::LabelCode => 4,
            Refusal::PointNotInUse => 5,
            Refusal::LabelNotInUse => 6,
            Refusal::CountFull => 7,
            Refusal::LabelsFull => 8,
            Refusal::PointsFull => 9,
            Refusal::FloatSpaceFull => 10,
            Refusal::ValueTooLarge => 11,
            Refusal::SequenceFull => 12,
            Refusal::ManagerCapacity => 13,
            Refusal::NotReleasable => 14,
            Refusal::HoldWidth => 15,
            Refusal::NoEarlierReading => 16,
            Refusal::ClassText => 17,
            Refusal::TextLength => 18,
        }
    }
}

pub fn refusal_number(why: Refusal) -> u64
    ensures { result ≡ number why }
{
    u64::from(why)
}
