// The recorded calls that open or change a store.
use crate::answers::Answer;
use crate::record::Line;
use block::Block;
use std::alloc::{AllocError, Global};
use store_definitions::Shape;

fn shape_of(numbers: &[usize]) -> Shape {
    let number = |place: usize| numbers.get(place).copied().unwrap_or(0);
    Shape {
        dimensions: number(0),
        shingle_size: number(1),
        capacity: number(2),
        initial_capacity: number(3),
        internal_shingling: number(4) == 1,
        internal_rotation: number(5) == 1,
        store_labels: number(6) == 1,
    }
}

// Where opening is refused, the store before it goes on.
pub fn open(alloc: Global, block: &mut Block, line: &Line) -> Result<Answer, AllocError> {
    match Block::open(shape_of(&line.numbers)) {
        Ok(opened) => {
            *block = opened;
            Answer::done(alloc, Ok(()))
        }
        Err(why) => Ok(Answer::refused(alloc, why)),
    }
}

pub fn add(alloc: Global, block: &mut Block, line: &Line) -> Result<Answer, AllocError> {
    let row = line.words(alloc)?;
    Answer::added(alloc, block.add(&row, line.first))
}

pub fn inc(alloc: Global, block: &mut Block, line: &Line) -> Result<Answer, AllocError> {
    let change = line.change();
    Answer::done(alloc, block.inc(change.index, change.label))
}

pub fn dec(alloc: Global, block: &mut Block, line: &Line) -> Result<Answer, AllocError> {
    let change = line.change();
    Answer::done(alloc, block.dec(change.index, change.label))
}

pub fn adjust(alloc: Global, block: &mut Block, line: &Line) -> Result<Answer, AllocError> {
    let pairs = line.pairs(alloc)?;
    Answer::adjusted(alloc, block.adjust_count(&pairs))
}
