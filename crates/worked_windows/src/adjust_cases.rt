// Adjust over a list of pairs, each an inc and a dec.
use crate::cases::{five_adds, opened};
use crate::print::{Adjusted, Answer};
use block::Block;
use std::io;
use store_definitions::{Change, Pair};
use terms::{LabelIndex, NONE, PointIndex};

// A pair of an inc and a dec, of no labels.
fn pair(insert: usize, delete: usize) -> Pair {
    let change = |index| Change {
        index: PointIndex(index),
        label: LabelIndex(NONE),
    };
    Pair {
        insert: change(insert),
        delete: change(delete),
    }
}

fn adjust(rt: &impl Print, block: &mut Block, said: &str, pairs: &[Pair]) -> io::Result<()> {
    let answer = Adjusted(block.adjust_count(pairs));
    print!(rt; "  {said}: {answer}")?;
    for index in 0..4 {
        let count = Answer(block.count(PointIndex(index)));
        print!(rt; "; count {index}: {count}")?;
    }
    println!(rt)
}

// The pairs before a refused one stand, and a skipped pair is one of them.
pub fn pairs(rt: &impl Print) -> io::Result<()> {
    println!(rt; "adjust: pairs skipped, accepted and refused")?;
    let mut block = opened(rt, true, false, 10, 5)?;
    five_adds(rt, &mut block)?;
    let refused = [pair(NONE, 2), pair(1, 0), pair(9, 1), pair(2, 3)];
    adjust(rt, &mut block, "skip, +1 -0, +9 -1, +2 -3", &refused)?;
    let accepted = [pair(2, 3), pair(2, NONE)];
    adjust(rt, &mut block, "+2 -3, +2", &accepted)?;
    adjust(rt, &mut block, "no pair", &[])
}
