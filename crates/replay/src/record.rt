// A line of the record: the call, two arguments, how many numbers it takes and these; then the value (0 or document 01's refusal
// number), how many numbers it answers and these; then the free start and the number of live points after the call.
use crate::answers::Answer;
use recorded_text::next_number;
use std::alloc::{AllocError, Global};
use store_definitions::{Change, Item, Pair};
use terms::{FloatBits, LabelIndex, NONE, PointIndex};

// What the record writes for none, 2^64 − 1.
// Kept: a number of the record has at most ten digits, and the calls take NONE.
const NONE_WRITTEN: usize = 9_999_999_999;

pub fn written(index: usize) -> usize {
    if index == NONE { NONE_WRITTEN } else { index }
}

fn read(index: usize) -> usize {
    if index == NONE_WRITTEN { NONE } else { index }
}

// No call takes or answers more numbers; of a longer list the rest is read as what follows it.
const MOST: usize = 64;

#[derive(Drop)]
pub struct Line {
    pub call: usize,
    pub first: usize,
    pub second: usize,
    pub numbers: Vec<usize>,
    pub answer: Answer,
    // How many numbers the record says that it answers.
    pub answered: usize,
    pub free_start: usize,
    pub live_number: usize,
}

fn next_numbers(
    alloc: Global,
    text: &[u8],
    at: &mut usize,
    count: usize,
) -> Result<Vec<usize>, AllocError> {
    let mut numbers = Vec::new(alloc);
    for _ in 0..count.min(MOST) {
        numbers.push(next_number(text, at))?;
    }
    Ok(numbers)
}

// The line that starts at `at`, which then is where the next one starts.
pub fn next_line(alloc: Global, text: &[u8], at: &mut usize) -> Result<Line, AllocError> {
    let call = next_number(text, at);
    let first = next_number(text, at);
    let second = next_number(text, at);
    let taken = next_number(text, at);
    let numbers = next_numbers(alloc, text, at, taken)?;
    let value = next_number(text, at);
    let answered = next_number(text, at);
    let answer = Answer {
        value,
        numbers: next_numbers(alloc, text, at, answered)?,
    };
    Ok(Line {
        call,
        first,
        second,
        numbers,
        answer,
        answered,
        free_start: next_number(text, at),
        live_number: next_number(text, at),
    })
}

fn change(index: usize, label: usize) -> Change {
    Change {
        index: PointIndex(read(index)),
        label: LabelIndex(read(label)),
    }
}

// What a call takes, of the line's arguments and numbers.
impl Line {
    pub fn change(&self) -> Change {
        change(self.first, self.second)
    }

    pub fn point(&self) -> PointIndex {
        self.change().index
    }

    pub fn label(&self) -> LabelIndex {
        LabelIndex(read(self.first))
    }

    // How many entries of a list a reading is lent.
    pub fn room(&self) -> usize {
        self.second.min(MOST)
    }

    // The last 32 bits of each number.
    pub fn words(&self, alloc: Global) -> Result<Vec<FloatBits>, AllocError> {
        self.numbers
            .iter()
            .map(|number| (*number % 4_294_967_296) as u32)
            .collect(alloc)
    }

    pub fn pairs(&self, alloc: Global) -> Result<Vec<Pair>, AllocError> {
        self.numbers
            .chunks_exact(4)
            .map(|four| Pair {
                insert: change(four[0], four[1]),
                delete: change(four[2], four[3]),
            })
            .collect(alloc)
    }

    pub fn items(&self, alloc: Global) -> Result<Vec<Item>, AllocError> {
        self.numbers
            .chunks_exact(2)
            .map(|two| Item {
                index: PointIndex(read(two[0])),
                weight: read(two[1]),
            })
            .collect(alloc)
    }
}
