// Answers of the store in the record's numbers.
use crate::record::written;
use float_bits::word_of_float;
use placement::Laid;
use recorded_text::NO_CALL;
use std::alloc::{AllocError, Global};
use store_definitions::{AdjustRefusal, Kept};
use terms::Refusal;

// 0 or the number of the refusal, and what the call gives.
#[derive(PartialEq, Drop)]
pub struct Answer {
    // Kept: the record holds this number, so a Result would be turned into it for each line.
    pub value: usize,
    pub numbers: Vec<usize>,
}

// An entry of a list in the record's numbers: of a float its word.
pub trait Recorded: Copy {
    fn recorded(self) -> usize;
}

impl Recorded for usize {
    fn recorded(self) -> usize {
        self
    }
}

impl Recorded for u32 {
    fn recorded(self) -> usize {
        self as usize
    }
}

impl Recorded for f32 {
    fn recorded(self) -> usize {
        word_of_float(self) as usize
    }
}

impl Answer {
    fn of_value(alloc: Global, value: usize) -> Self {
        Answer {
            value,
            numbers: Vec::new(alloc),
        }
    }

    pub fn refused(alloc: Global, why: Refusal) -> Self {
        Answer::of_value(alloc, u64::from(why) as usize)
    }

    pub fn no_call(alloc: Global) -> Self {
        Answer::of_value(alloc, NO_CALL)
    }

    pub fn given<T: Recorded>(alloc: Global, list: &[T]) -> Result<Self, AllocError> {
        let numbers = list.iter().map(|entry| entry.recorded()).collect(alloc)?;
        Ok(Answer { value: 0, numbers })
    }

    // Of a call that fills a list, or of one with no value and no list.
    pub fn filled<T: Recorded>(
        alloc: Global,
        answer: Result<(), Refusal>,
        list: &[T],
    ) -> Result<Self, AllocError> {
        match answer {
            Ok(()) => Answer::given(alloc, list),
            Err(why) => Ok(Answer::refused(alloc, why)),
        }
    }

    pub fn done(alloc: Global, answer: Result<(), Refusal>) -> Result<Self, AllocError> {
        Answer::filled::<usize>(alloc, answer, &[])
    }

    pub fn number(alloc: Global, answer: Result<usize, Refusal>) -> Result<Self, AllocError> {
        match answer {
            Ok(number) => Answer::given(alloc, &[number]),
            Err(why) => Ok(Answer::refused(alloc, why)),
        }
    }

    // 0 where the store waits; else 1, the index, the label's, whether the row was joined to the one before, and its place.
    pub fn added(alloc: Global, answer: Result<Option<Kept>, Refusal>) -> Result<Self, AllocError> {
        match answer {
            Ok(None) => Answer::given(alloc, &[0usize]),
            Ok(Some(kept)) => {
                let joined = match kept.laid {
                    Laid::Whole(_) => 0,
                    Laid::Joined(_) => 1,
                };
                let numbers = [
                    1,
                    kept.index.0,
                    written(kept.label.0),
                    joined,
                    kept.laid.place(),
                ];
                Answer::given(alloc, &numbers)
            }
            Err(why) => Ok(Answer::refused(alloc, why)),
        }
    }

    pub fn adjusted(alloc: Global, answer: Result<(), AdjustRefusal>) -> Result<Self, AllocError> {
        match answer {
            Ok(()) => Answer::done(alloc, Ok(())),
            Err(AdjustRefusal { why, pairs_before }) => {
                let mut refused = Answer::refused(alloc, why);
                refused.numbers.push(pairs_before)?;
                Ok(refused)
            }
        }
    }
}
