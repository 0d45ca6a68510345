// Rows in lent elements: which row is laid, where and how it is laid, how it is copied out, and what compaction leaves.
// The crate holds definitions, in specs/, and laws, there and in proofs/, for elements of any type; code over them stands in crates above.
#![tactic(auto)]

ghost use Rattle.std.specs.Prelude.{◌≡◌};
ghost use Rattle.placement.specs.Laying.{place_of};

// How a row was laid: all of it written, or joined to the one before it. The number is its place.
#[derive(Clone, Copy)]
pub enum Laid {
    Whole(usize),
    Joined(usize),
}

impl Laid {
    #[tactic(auto, unfolding(crate::specs::Laying::place_of))]
    pub fn place(self) -> usize
        ensures { result ≡ place_of self }
    {
        match self {
            Laid::Whole(place) | Laid::Joined(place) => place,
        }
    }
}
