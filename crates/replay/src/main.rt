// Replays recorded calls of the Rust's point store on the proved one, and compares every answer, the free start and the number
// of live points after each call. How the record is made stands in differential/README.md.
#![tactic(auto)]

mod answers;
mod call;
mod changing;
mod reading;
mod record;

use answers::Answer;
use block::Block;
use call::{CALLS, Call};
use record::{Line, next_line};
use recorded_text::{Tally, count_lines};
use std::alloc::{AllocError, Global};
use std::{fmt, fs, io};
use store_definitions::Shape;

fn make(alloc: Global, block: &mut Block, call: Call, line: &Line) -> Result<Answer, AllocError> {
    // Kept: each call takes arguments of its own, which a table of functions would have to carry all.
    match call {
        Call::Open => changing::open(alloc, block, line),
        Call::Add => changing::add(alloc, block, line),
        Call::Inc => changing::inc(alloc, block, line),
        Call::Dec => changing::dec(alloc, block, line),
        Call::Adjust => changing::adjust(alloc, block, line),
        Call::Compact => Answer::done(alloc, block.compact()),
        Call::Copy => reading::copy(alloc, block, line),
        Call::Count => Answer::number(alloc, block.count(line.point())),
        Call::IsEqual => reading::is_equal(alloc, block, line),
        Call::PointSum => reading::point_sum(alloc, block, line),
        Call::ShingledPoint => reading::shingled_point(alloc, block, line),
        Call::MissingIndices => reading::missing_indices(alloc, block, line),
        Call::NextIndices => reading::next_indices(alloc, block, line),
        Call::Label => Answer::number(alloc, block.label(line.label())),
        Call::Attribute => Answer::number(alloc, block.attribute(line.label())),
        Call::AttributeVec => reading::attribute_vec(alloc, block, line),
    }
}

fn print_difference<N: fmt::Display>(
    rt: &impl Print,
    step: usize,
    name: &N,
    value: usize,
    recorded: usize,
) -> io::Result<()> {
    println!(rt; "step {step} differs: {name}: value {value}, recorded {recorded}")
}

fn replay_line(
    rt: &impl Print,
    alloc: Global,
    step: usize,
    line: &Line,
    block: &mut Block,
    tally: &mut Tally<16>,
) -> io::Result<()> {
    let called = Call::try_from(line.call);
    let answer = match called {
        Ok(call) => make(alloc, block, call, line)?,
        Err(_) => Answer::no_call(alloc),
    };
    let agreed = answer == line.answer
        && answer.numbers.len() == line.answered
        && block.free_start() == Ok(line.free_start)
        && block.live_number() == Ok(line.live_number);
    tally.count(line.call % KINDS, agreed);
    if !agreed {
        let value = answer.value;
        let recorded = line.answer.value;
        match called {
            Ok(call) => print_difference(rt, step, &call, value, recorded)?,
            Err(unknown) => print_difference(rt, step, &unknown, value, recorded)?,
        }
    }
    Ok(())
}

// A number past the calls counts by what it leaves when divided by this: 31 counts as an opening.
const KINDS: usize = 31;

// Before the record opens a store, the smallest one stands.
const SMALLEST: Shape = Shape {
    dimensions: 1,
    shingle_size: 1,
    capacity: 1,
    initial_capacity: 1,
    internal_shingling: false,
    internal_rotation: false,
    store_labels: false,
};

fn replay(rt: &impl Print, alloc: Global, text: &[u8]) -> io::Result<Tally<16>> {
    let smallest = Block::open(SMALLEST);
    let mut block = smallest.map_err(|_| io::Error::other("the smallest store was refused"))?;
    let mut tally = Tally::new();
    let mut at = 0;
    for step in 1..=count_lines(text) {
        let line = next_line(alloc, text, &mut at)?;
        replay_line(rt, alloc, step, &line, &mut block, &mut tally)?;
    }
    Ok(tally)
}

fn main(rt: HostRuntime) -> io::Result<()> {
    let text = fs::read(&rt, "store_calls")?;
    let tally = replay(&rt, rt.alloc(), &text)?;
    tally.print(&rt, &CALLS)
}
