// Previews: the window that a next point would make, and where the next values stand in it. 7 stands where nothing was written.
use crate::cases::{opened, three_adds};
use crate::print::{Row, done};
use block::Block;
use float_bits::word_of_float;
use std::io;

fn preview<const N: usize>(rt: &impl Print, block: &Block, point: [f32; N]) -> io::Result<()> {
    let row = Row::of(point);
    let mut words = [word_of_float(7.0); 4];
    let answer = done(block.shingled_point(&row.0, &mut words));
    let window = Row(words);
    println!(rt; "  shingled_point {row}: {answer}, {window}")
}

fn missing(
    rt: &impl Print,
    block: &Block,
    look_ahead: usize,
    values: [usize; 2],
) -> io::Result<()> {
    let [v, w] = values;
    let mut places = [7; 2];
    let answer = done(block.missing_indices(look_ahead, &values, &mut places));
    let [first, second] = places;
    println!(rt; "  missing_indices, look-ahead {look_ahead}, {v} {w}: {answer}, {first} {second}")
}

fn next(rt: &impl Print, block: &Block, look_ahead: usize) -> io::Result<()> {
    let mut places = [7; 2];
    let answer = done(block.next_indices(look_ahead, &mut places));
    let [first, second] = places;
    println!(rt; "  next_indices, look-ahead {look_ahead}: {answer}, {first} {second}")
}

// After case C the window is 3 4 5 6 and the sequence 3.
fn after_c(rt: &impl Print, internal_rotation: bool) -> io::Result<()> {
    let mut block = opened(rt, true, internal_rotation, 10, 5)?;
    three_adds(rt, &mut block)?;
    preview(rt, &block, [7.0, 8.0])?;
    preview(rt, &block, [7.0, 8.0, 9.0])?;
    missing(rt, &block, 0, [1, 0])?;
    missing(rt, &block, 1, [1, 0])?;
    missing(rt, &block, 0, [1, 2])?;
    next(rt, &block, 1)?;
    next(rt, &block, 65536)
}

pub fn previews(rt: &impl Print) -> io::Result<()> {
    println!(rt; "shingled_point, missing_indices and next_indices")?;
    after_c(rt, false)?;
    println!(rt; "shingled_point, missing_indices and next_indices, rotating")?;
    after_c(rt, true)
}
