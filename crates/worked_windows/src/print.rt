// Answers and rows as the table shows them.
use float_bits::{float_of_word, word_of_float};
use placement::Laid;
use std::fmt;
use store_definitions::{AdjustRefusal, Kept, Shape};
use terms::{FloatBits, NONE, Refusal};

// What was asked for, or the number of the refusal.
#[derive(Clone, Copy)]
pub struct Answer<T>(pub Result<T, Refusal>);

impl<T: fmt::Display> fmt::Display for Answer<T> {
    fn fmt<W: fmt::Write>(&self, f: &mut fmt::Formatter<W>) -> fmt::Result {
        match &self.0 {
            Ok(value) => write!(f, "{value}"),
            Err(why) => write!(f, "refused {}", u64::from(*why)),
        }
    }
}

// The answer of a call that has no value.
pub fn done(answer: Result<(), Refusal>) -> Answer<&'static str> {
    Answer(answer.map(|()| "done"))
}

// An add's answer: of a kept one with how many indices are left.
#[derive(Clone, Copy)]
pub struct KeptOrWaiting(Option<Kept>);

pub fn added(answer: Result<Option<Kept>, Refusal>) -> Answer<KeptOrWaiting> {
    Answer(answer.map(KeptOrWaiting))
}

impl fmt::Display for KeptOrWaiting {
    fn fmt<W: fmt::Write>(&self, f: &mut fmt::Formatter<W>) -> fmt::Result {
        let Some(kept) = self.0 else {
            return write!(f, "waiting");
        };
        write!(f, "index {}", kept.index.0)?;
        if kept.label.0 != NONE {
            write!(f, ", label index {}", kept.label.0)?;
        }
        match kept.laid {
            Laid::Whole(place) => write!(f, ", whole at place {place}")?,
            Laid::Joined(place) => write!(f, ", joined at place {place}")?,
        }
        write!(f, ", left {}", kept.free_indices)
    }
}

#[derive(Clone, Copy)]
pub struct Adjusted(pub Result<(), AdjustRefusal>);

impl fmt::Display for Adjusted {
    fn fmt<W: fmt::Write>(&self, f: &mut fmt::Formatter<W>) -> fmt::Result {
        match self.0 {
            Ok(()) => write!(f, "done"),
            Err(AdjustRefusal { why, pairs_before }) => {
                write!(f, "refused {} after {pairs_before} pairs", u64::from(why))
            }
        }
    }
}

// What a new store is asked for.
#[derive(Clone, Copy)]
pub struct Asked(pub Shape);

impl fmt::Display for Asked {
    fn fmt<W: fmt::Write>(&self, f: &mut fmt::Formatter<W>) -> fmt::Result {
        let shape = self.0;
        write!(f, "dimensions {}", shape.dimensions)?;
        write!(f, ", shingle size {}", shape.shingle_size)?;
        write!(f, ", capacity {}", shape.capacity)?;
        write!(f, ", start {}", shape.initial_capacity)?;
        if shape.internal_shingling {
            write!(f, ", internal shingling")?;
        }
        if shape.internal_rotation {
            write!(f, ", rotation")?;
        }
        if shape.store_labels {
            write!(f, ", labels")?;
        }
        Ok(())
    }
}

// Floats by their words, shown with a space between them.
#[derive(Clone, Copy)]
pub struct Row<const N: usize>(pub [FloatBits; N]);

impl<const N: usize> Row<N> {
    pub fn of(floats: [f32; N]) -> Self {
        // Kept: tried with `floats.map(word_of_float)`; the proof did not close.
        let mut words = [0; N];
        for (word, float) in words.iter_mut().zip(&floats) {
            *word = word_of_float(*float);
        }
        Row(words)
    }
}

impl<const N: usize> fmt::Display for Row<N> {
    fn fmt<W: fmt::Write>(&self, f: &mut fmt::Formatter<W>) -> fmt::Result {
        let mut between = "";
        for word in &self.0 {
            let float = float_of_word(*word);
            write!(f, "{between}{float}")?;
            between = " ";
        }
        Ok(())
    }
}
