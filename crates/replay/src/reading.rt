// The recorded calls that read a store, most into a list, whose length is the line's second argument as far as there is room.
use crate::answers::Answer;
use crate::record::Line;
use block::Block;
use std::alloc::{AllocError, Global};

pub fn copy(alloc: Global, block: &Block, line: &Line) -> Result<Answer, AllocError> {
    let mut row = vec![in alloc; 0; line.room()]?;
    let answer = block.copy(line.point(), &mut row);
    Answer::filled(alloc, answer, &row)
}

pub fn is_equal(alloc: Global, block: &Block, line: &Line) -> Result<Answer, AllocError> {
    let row = line.words(alloc)?;
    let answer = block.is_equal(line.point(), &row);
    Answer::number(alloc, answer.map(|equal| usize::from(equal)))
}

pub fn point_sum(alloc: Global, block: &Block, line: &Line) -> Result<Answer, AllocError> {
    let items = line.items(alloc)?;
    let mut sums = vec![in alloc; 0.0f32; line.room()]?;
    let answer = block.point_sum(&items, &mut sums);
    Answer::filled(alloc, answer, &sums)
}

pub fn shingled_point(alloc: Global, block: &Block, line: &Line) -> Result<Answer, AllocError> {
    let point = line.words(alloc)?;
    let mut row = vec![in alloc; 0; line.room()]?;
    let answer = block.shingled_point(&point, &mut row);
    Answer::filled(alloc, answer, &row)
}

pub fn missing_indices(alloc: Global, block: &Block, line: &Line) -> Result<Answer, AllocError> {
    let mut places = vec![in alloc; 0usize; line.room()]?;
    let answer = block.missing_indices(line.first, &line.numbers, &mut places);
    Answer::filled(alloc, answer, &places)
}

pub fn next_indices(alloc: Global, block: &Block, line: &Line) -> Result<Answer, AllocError> {
    let mut places = vec![in alloc; 0usize; line.room()]?;
    let answer = block.next_indices(line.first, &mut places);
    Answer::filled(alloc, answer, &places)
}

pub fn attribute_vec(alloc: Global, block: &Block, line: &Line) -> Result<Answer, AllocError> {
    let mut floats = vec![in alloc; 0.0f32; line.room()]?;
    let answer = block.attribute_vec(line.label(), &mut floats);
    Answer::filled(alloc, answer, &floats)
}
