// A recorded call made on the proved manager, and what is seen of it.
use crate::call::Call;
use interval_store_manager::IntervalStoreManager;
use recorded_text::{NO_CALL, UnknownCall};
use std::fmt;
use terms::Refusal;

// What the record holds of a call: 0 or the number of its refusal, its answer, and the manager's stack after it, with the
// start and the end of the stack's top. What there is none of is 0.
#[derive(Clone, Copy, PartialEq, Eq)]
pub struct Seen {
    // Kept: the record holds this number, so a Result would be turned into it for each line.
    pub value: usize,
    pub answer: usize,
    pub in_use: usize,
    pub start: usize,
    pub end: usize,
}

impl fmt::Display for Seen {
    fn fmt<W: fmt::Write>(&self, f: &mut fmt::Formatter<W>) -> fmt::Result {
        let Seen {
            value,
            answer,
            in_use,
            start,
            end,
        } = *self;
        write!(
            f,
            "value {value}, answer {answer}, in use {in_use}, top {start} to {end}"
        )
    }
}

// The manager with its memory.
#[derive(Clone, Copy)]
pub struct Replayed {
    manager: IntervalStoreManager,
    starts: [u16; 1024],
    ends: [u16; 1024],
}

// The entry at the top of a stack, or 0.
fn top(entries: &[u16], in_use: usize) -> usize {
    in_use
        .checked_sub(1)
        .and_then(|top| entries.get(top))
        .map_or(0, |entry| usize::from(*entry))
}

impl Replayed {
    pub fn new() -> Self {
        Replayed {
            manager: IntervalStoreManager {
                capacity: 0,
                last_in_use: 0,
            },
            starts: [0; 1024],
            ends: [0; 1024],
        }
    }

    // The call's answer as a number: 0 where it has none.
    fn answer(&mut self, call: Call, argument: usize) -> Result<usize, Refusal> {
        let starts = &mut self.starts;
        let ends = &mut self.ends;
        // Kept: each call takes arguments of its own, which a table of functions would have to carry all.
        match call {
            Call::New => {
                self.manager = IntervalStoreManager::new(argument, starts, ends)?;
                Ok(0)
            }
            Call::ChangeCapacity => self
                .manager
                .change_capacity(starts, ends, argument)
                .map(|()| 0),
            Call::Get => self.manager.get(starts, ends).map(|given| given.index),
            Call::Release => self.manager.release(starts, ends, argument).map(|()| 0),
            Call::Used => self.manager.used(starts, ends),
            Call::IsEmpty => self.manager.is_empty(starts, ends).map(usize::from),
            Call::GetCapacity => self.manager.get_capacity(starts, ends),
        }
    }

    pub fn make(&mut self, called: Result<Call, UnknownCall>, argument: usize) -> Seen {
        let (value, answer) = match called {
            Ok(call) => match self.answer(call, argument) {
                Ok(answer) => (0, answer),
                Err(why) => (u64::from(why) as usize, 0),
            },
            Err(_) => (NO_CALL, 0),
        };
        let in_use = self.manager.last_in_use;
        Seen {
            value,
            answer,
            in_use,
            start: top(&self.starts, in_use),
            end: top(&self.ends, in_use),
        }
    }
}
