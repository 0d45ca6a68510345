// The other readings, of small stores: what is compared and added up of rows, and what is read of labels.
use crate::cases::{add, add_said, new_store, new_store_with, opened, opening, three_adds};
use crate::print::{Answer, Row, done};
use block::Block;
use float_bits::word_of_float;
use std::{fmt, io};
use store_definitions::{Item, Shape};
use terms::{FloatBits, LabelIndex, PointIndex};

// The words of −0.0 and of two NaNs.
const MINUS_ZERO: FloatBits = 0x8000_0000;

const NAN: FloatBits = 0x7fc0_0000;

const OTHER_NAN: FloatBits = 0x7fc0_0001;

// A comparison with a row under its name.
fn compare_said(
    rt: &impl Print,
    block: &Block,
    index: usize,
    said: &impl fmt::Display,
    row: &[FloatBits],
) -> io::Result<()> {
    let answer = Answer(block.is_equal(PointIndex(index), row));
    println!(rt; "  is_equal {index}, {said}: {answer}")
}

fn compare(rt: &impl Print, block: &Block, index: usize, floats: [f32; 4]) -> io::Result<()> {
    let row = Row::of(floats);
    compare_said(rt, block, index, &row, &row.0)
}

// The sum of two rows, each an index with a weight; 7 stands where nothing was written.
fn sum(rt: &impl Print, block: &Block, items: [(usize, usize); 2]) -> io::Result<()> {
    let [(i, v), (j, w)] = items;
    let mut sums = [7.0; 4];
    let answer = done(block.point_sum(
        &items.map(|(index, weight)| Item {
            index: PointIndex(index),
            weight,
        }),
        &mut sums,
    ));
    let row = Row::of(sums);
    println!(rt; "  point_sum {i} x {v}, {j} x {w}: {answer}, {row}")
}

// A sum reads rows as they are stored; a comparison turns them.
pub fn rows_read(rt: &impl Print) -> io::Result<()> {
    println!(rt; "is_equal and point_sum, rotating")?;
    let mut block = opened(rt, true, true, 10, 5)?;
    three_adds(rt, &mut block)?;
    compare(rt, &block, 1, [5.0, 6.0, 3.0, 4.0])?;
    compare(rt, &block, 1, [3.0, 4.0, 5.0, 6.0])?;
    compare(rt, &block, 2, [5.0, 6.0, 3.0, 4.0])?;
    sum(rt, &block, [(0, 1), (1, 1)])?;
    sum(rt, &block, [(0, 3), (1, 0)])?;
    sum(rt, &block, [(0, 16777216), (1, 16777217)])?;
    sum(rt, &block, [(0, 16777217), (2, 1)])?;
    sum(rt, &block, [(2, 16777217), (0, 1)])
}

// Equality is that of the 32 bits: −0.0 is not 0.0, and a NaN equals a NaN of the same bits.
pub fn zeros_and_nans(rt: &impl Print) -> io::Result<()> {
    println!(rt; "is_equal: zeros, NaNs and lengths")?;
    let mut block = opened(rt, true, false, 10, 5)?;
    add(rt, &mut block, [0.0, 1.0])?;
    add(rt, &mut block, [2.0, 3.0])?;
    let zero = [
        MINUS_ZERO,
        word_of_float(1.0),
        word_of_float(2.0),
        word_of_float(3.0),
    ];
    compare_said(rt, &block, 0, &"-0 1 2 3", &zero)?;
    add_said(rt, &mut block, &"NaN 5", &[NAN, word_of_float(5.0)], 0)?;
    let nan = [
        word_of_float(2.0),
        word_of_float(3.0),
        NAN,
        word_of_float(5.0),
    ];
    compare_said(rt, &block, 1, &"2 3 NaN 5", &nan)?;
    let other = [
        word_of_float(2.0),
        word_of_float(3.0),
        OTHER_NAN,
        word_of_float(5.0),
    ];
    compare_said(rt, &block, 1, &"2 3 NaN of other bits 5", &other)?;
    compare_said(rt, &block, 1, &"three floats", &nan[..3])?;
    compare_said(rt, &block, 2, &"three floats", &nan[..3])
}

// The second row is laid whole for its zero's sign alone; the third joins over a NaN, which the fourth's is not.
pub fn joined_by_bits(rt: &impl Print) -> io::Result<()> {
    println!(rt; "overlap: zeros and NaNs")?;
    let mut block = new_store(
        rt,
        Shape {
            dimensions: 2,
            shingle_size: 2,
            capacity: 4,
            initial_capacity: 4,
            internal_shingling: false,
            internal_rotation: false,
            store_labels: false,
        },
    )?;
    add_said(
        rt,
        &mut block,
        &"1 0",
        &[word_of_float(1.0), word_of_float(0.0)],
        0,
    )?;
    add_said(rt, &mut block, &"-0 NaN", &[MINUS_ZERO, NAN], 0)?;
    add_said(rt, &mut block, &"NaN NaN", &[NAN, NAN], 0)?;
    add_said(
        rt,
        &mut block,
        &"NaN of other bits 2",
        &[OTHER_NAN, word_of_float(2.0)],
        0,
    )
}

fn add_with_code(rt: &impl Print, block: &mut Block, code: usize) -> io::Result<()> {
    let row = Row::of([1.0, 2.0]);
    add_said(
        rt,
        block,
        &format_args!("{row} with code {code}"),
        &row.0,
        code,
    )
}

const THREE_LABELLED: Shape = Shape {
    dimensions: 2,
    shingle_size: 1,
    capacity: 3,
    initial_capacity: 3,
    internal_shingling: false,
    internal_rotation: false,
    store_labels: true,
};

fn read_label(rt: &impl Print, block: &Block, index: usize) -> io::Result<()> {
    let code = Answer(block.label(LabelIndex(index)));
    let class = Answer(block.attribute(LabelIndex(index)));
    let mut floats = [7.0; 10];
    let answer = done(block.attribute_vec(LabelIndex(index), &mut floats));
    let vector = Row::of(floats);
    println!(rt; "  label {index}: {code}; attribute: {class}; attribute_vec: {answer}, {vector}")
}

fn read_three_labels(rt: &impl Print, block: &Block) -> io::Result<()> {
    for index in 0..3 {
        read_label(rt, block, index)?;
    }
    Ok(())
}

// Codes 23 and 5, of the classes 9 and 2: the vector's 1.0 stands at the slot, not at the class.
pub fn labels_read(rt: &impl Print) -> io::Result<()> {
    println!(rt; "label, attribute and attribute_vec")?;
    let mut block = new_store(rt, THREE_LABELLED)?;
    add_with_code(rt, &mut block, 23)?;
    add_with_code(rt, &mut block, 5)?;
    read_three_labels(rt, &block)
}

// Code 0 has class 2, code 1 class 1, every other code class 0.
const FALLING: [u8; 216] =
    *b"   0   2\n   1   1\n   2   0\n   3   0\n   4   0\n   5   0\n   6   0\n   7   0\n   8   0\n   9   0\n  10   0\n  11   0\n  12   0\n  13   0\n  14   0\n  15   0\n  16   0\n  17   0\n  18   0\n  19   0\n  20   0\n  21   0\n  22   0\n  23   0\n";

// The classes are those of the loaded table, which fall; one line less is no table.
pub fn loaded_classes(rt: &impl Print) -> io::Result<()> {
    println!(rt; "attribute by a loaded table whose classes fall")?;
    let falling = FALLING;
    let mut block = new_store_with(rt, THREE_LABELLED, &falling)?;
    for code in 0..3 {
        add_with_code(rt, &mut block, code)?;
    }
    read_three_labels(rt, &block)?;
    println!(rt; "its text with one line less")?;
    let refused = Block::open_with_classes(THREE_LABELLED, &falling[9..]);
    opening(rt, THREE_LABELLED, refused.map(|_| ()))
}
