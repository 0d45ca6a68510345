// Writes the page of worked case D, and nothing else: five adds, then dec 0, dec 1 and compact (docs/STORE.md).
#![tactic(auto)]

use block::Block;
use float_bits::word_of_float;
use std::io;
use store_definitions::Shape;
use terms::{LabelIndex, NONE, PointIndex, Refusal};

fn case_d() -> Result<Block, Refusal> {
    let mut block = Block::open(Shape {
        dimensions: 4,
        shingle_size: 2,
        capacity: 10,
        initial_capacity: 5,
        internal_shingling: true,
        internal_rotation: false,
        store_labels: false,
    })?;
    for [x, y] in [[1.0, 2.0], [3.0, 4.0], [5.0, 6.0], [7.0, 8.0], [9.0, 10.0]] {
        block.add(&[word_of_float(x), word_of_float(y)], 0)?;
    }
    for index in 0..2 {
        block.dec(PointIndex(index), LabelIndex(NONE))?;
    }
    block.compact()?;
    Ok(block)
}

// The slice is longer than the page.
fn main(rt: HostRuntime) -> io::Result<()> {
    let mut text = [0; 64];
    let page = case_d().and_then(|block| block.page(&mut text));
    let length = page.map_err(|_| io::Error::other("a call of case D was refused"))?;
    let written = text.get(..length).unwrap_or_default();
    rt.write_all(written)
}
