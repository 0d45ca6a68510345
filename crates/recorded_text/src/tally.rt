// How many recorded calls were made again, and how many of them agreed with the record.
ghost use Rattle.std.specs.Prelude.{◌≡◌, replicate, slice_set, slice_index_or};
ghost use Rattle.recorded_text.specs.Counts.{counted, no_calls};

use std::{fmt, io};

#[derive(Clone, Copy)]
pub struct Agreement {
    pub agreed: u64,
    pub made: u64,
}

const NO_CALLS: Agreement = Agreement { agreed: 0, made: 0 };

impl Agreement {
    // With one call more.
    fn counted(self, agreed: bool) -> Agreement
        ensures { result ≡ counted self agreed }
    {
        Agreement {
            agreed: self.agreed.wrapping_add(u64::from(agreed)),
            made: self.made.wrapping_add(1),
        }
    }
}

impl fmt::Display for Agreement {
    fn fmt<W: fmt::Write>(&self, f: &mut fmt::Formatter<W>) -> fmt::Result {
        let Agreement { agreed, made } = *self;
        write!(f, "{agreed} of {made} agree")
    }
}

// Of each kind of call, and of all.
#[derive(Clone, Copy)]
pub struct Tally<const KINDS: usize> {
    pub kinds: [Agreement; KINDS],
    pub all: Agreement,
}

impl<const KINDS: usize> Tally<KINDS> {
    pub fn new() -> Self
        ensures { (result.kinds ≡ replicate KINDS no_calls) × (result.all ≡ no_calls) }
    {
        Tally {
            kinds: [NO_CALLS; KINDS],
            all: NO_CALLS,
        }
    }

    // A call of no kind, as one past the last, counts in all alone.
    pub fn count(&mut self, kind: usize, agreed: bool)
        ensures all { self.new.all ≡ counted self.old.all agreed }
        ensures kinds { self.new.kinds ≡ slice_set self.old.kinds kind (counted (slice_index_or self.old.kinds kind no_calls) agreed) }
    {
        self.all = self.all.counted(agreed);
        if kind < KINDS {
            let one = self.kinds[kind];
            self.kinds[kind] = one.counted(agreed);
        }
    }

    // A line for each kind under its name, and one for all.
    pub fn print<N: fmt::Display>(&self, rt: &impl Print, names: &[N]) -> io::Result<()> {
        for (name, agreement) in names.iter().zip(&self.kinds) {
            println!(rt; "{name}: {agreement}")?;
        }
        let all = self.all;
        println!(rt; "total: {all}")
    }
}
