// The worked windows, case by case. With labels off an add's code is not looked at, and the label index is none.
use crate::print::{Answer, Asked, Row, added, done};
use block::Block;
use class_table::reason_classes_text;
use std::{fmt, io};
use store_definitions::Shape;
use terms::{FloatBits, LabelIndex, NONE, PointIndex, Refusal};

const UNLABELLED: LabelIndex = LabelIndex(NONE);

// A line of a new store.
pub fn opening(rt: &impl Print, shape: Shape, answer: Result<(), Refusal>) -> io::Result<()> {
    let asked = Asked(shape);
    let answer = done(answer);
    println!(rt; "  new store: {asked}: {answer}")
}

// A new store with a table of classes of its own, and its line.
pub fn new_store_with(rt: &impl Print, shape: Shape, class_text: &[u8]) -> io::Result<Block> {
    let block = Block::open_with_classes(shape, class_text);
    opening(rt, shape, block.map(|_| ()))?;
    block.map_err(|_| io::Error::other("the store of a case was refused"))
}

// The same with document 01's.
pub fn new_store(rt: &impl Print, shape: Shape) -> io::Result<Block> {
    new_store_with(rt, shape, &reason_classes_text())
}

pub fn opened(
    rt: &impl Print,
    internal_shingling: bool,
    internal_rotation: bool,
    capacity: usize,
    initial_capacity: usize,
) -> io::Result<Block> {
    new_store(
        rt,
        Shape {
            dimensions: 4,
            shingle_size: 2,
            capacity,
            initial_capacity,
            internal_shingling,
            internal_rotation,
            store_labels: false,
        },
    )
}

// An add under a name of the point, and the free start after it.
pub fn add_said(
    rt: &impl Print,
    block: &mut Block,
    said: &impl fmt::Display,
    point: &[FloatBits],
    code: usize,
) -> io::Result<()> {
    let answer = added(block.add(point, code));
    let free = block.store.start_free_region;
    println!(rt; "  add {said}: {answer}; free start {free}")
}

// An add of a row, or with internal shingling of the values that follow.
pub fn add<const N: usize>(rt: &impl Print, block: &mut Block, point: [f32; N]) -> io::Result<()> {
    let row = Row::of(point);
    add_said(rt, block, &row, &row.0, 0)
}

fn dec(rt: &impl Print, block: &mut Block, index: usize) -> io::Result<()> {
    let answer = done(block.dec(PointIndex(index), UNLABELLED));
    let free = block.store.start_free_region;
    println!(rt; "  dec {index}: {answer}; free start {free}")
}

fn compact(rt: &impl Print, block: &mut Block) -> io::Result<()> {
    let answer = done(block.compact());
    let free = block.store.start_free_region;
    println!(rt; "  compact: {answer}; free start {free}")
}

// Of a refused copy zeros.
fn copy(rt: &impl Print, block: &Block, index: usize) -> io::Result<()> {
    let mut words = [0; 4];
    let _ = block.copy(PointIndex(index), &mut words);
    let row = Row(words);
    println!(rt; "  copy {index}: {row}")
}

pub fn three_adds(rt: &impl Print, block: &mut Block) -> io::Result<()> {
    add(rt, block, [1.0, 2.0])?;
    add(rt, block, [3.0, 4.0])?;
    add(rt, block, [5.0, 6.0])
}

pub fn five_adds(rt: &impl Print, block: &mut Block) -> io::Result<()> {
    three_adds(rt, block)?;
    add(rt, block, [7.0, 8.0])?;
    add(rt, block, [9.0, 10.0])
}

pub fn without_rotation(rt: &impl Print) -> io::Result<()> {
    println!(rt; "A to E")?;
    let mut block = opened(rt, true, false, 10, 5)?;
    five_adds(rt, &mut block)?;
    dec(rt, &mut block, 0)?;
    dec(rt, &mut block, 1)?;
    compact(rt, &mut block)?;
    copy(rt, &block, 2)?;
    add(rt, &mut block, [11.0, 12.0])?;
    copy(rt, &block, 0)
}

// Five adds, of which the first's row goes, and a compaction.
fn first_gone(rt: &impl Print, internal_rotation: bool) -> io::Result<Block> {
    let mut block = opened(rt, true, internal_rotation, 10, 5)?;
    five_adds(rt, &mut block)?;
    dec(rt, &mut block, 0)?;
    compact(rt, &mut block)?;
    Ok(block)
}

pub fn rotating(rt: &impl Print) -> io::Result<()> {
    println!(rt; "F")?;
    let mut f = opened(rt, true, true, 10, 5)?;
    three_adds(rt, &mut f)?;
    copy(rt, &f, 1)?;
    println!(rt; "G")?;
    let g = first_gone(rt, true)?;
    copy(rt, &g, 1)?;
    let floats = g.floats;
    let first = Row([floats[0], floats[1], floats[2], floats[3]]);
    println!(rt; "  first floats: {first}")?;
    println!(rt; "G, without rotation")?;
    first_gone(rt, false)?;
    Ok(())
}

fn before_the_last_row(rt: &impl Print) -> io::Result<Block> {
    let mut block = opened(rt, false, true, 2, 2)?;
    add(rt, &mut block, [1.0, 2.0, 3.0, 4.0])?;
    add(rt, &mut block, [3.0, 4.0, 5.0, 6.0])?;
    dec(rt, &mut block, 0)?;
    Ok(block)
}

pub fn refused_for_space(rt: &impl Print) -> io::Result<()> {
    println!(rt; "H")?;
    let mut refused = before_the_last_row(rt)?;
    add(rt, &mut refused, [9.0, 9.0, 9.0, 9.0])?;
    println!(rt; "H, another last row")?;
    let mut joined = before_the_last_row(rt)?;
    add(rt, &mut joined, [5.0, 6.0, 9.0, 9.0])
}

pub fn small_starts(rt: &impl Print) -> io::Result<()> {
    println!(rt; "start 4: a fifth index")?;
    let mut four = opened(rt, true, false, 10, 4)?;
    five_adds(rt, &mut four)?;
    add(rt, &mut four, [11.0, 12.0])?;
    println!(rt; "start 5: a sixth index")?;
    let mut five = opened(rt, true, false, 10, 5)?;
    five_adds(rt, &mut five)?;
    add(rt, &mut five, [11.0, 12.0])?;
    add(rt, &mut five, [1.0, 2.0])
}

fn inc_first(rt: &impl Print, block: &mut Block) -> io::Result<()> {
    let answer = done(block.inc(PointIndex(0), UNLABELLED));
    let count = Answer(block.count(PointIndex(0)));
    println!(rt; "  inc 0: {answer}; count {count}")
}

pub fn largest_count(rt: &impl Print) -> io::Result<()> {
    println!(rt; "count 65,534 takes inc, 65,535 gives 7")?;
    let mut block = opened(rt, true, false, 10, 5)?;
    add(rt, &mut block, [1.0, 2.0])?;
    add(rt, &mut block, [3.0, 4.0])?;
    // The memory is the caller's.
    block.reference_count[0] = 65534;
    let count = Answer(block.count(PointIndex(0)));
    println!(rt; "  memory lent with count 65534 of index 0; count: {count}")?;
    inc_first(rt, &mut block)?;
    inc_first(rt, &mut block)
}
