// Replays recorded calls of the Rust's interval manager on the proved one, and compares every answer and the stack's top
// after each call. A line of the record is a step: call, argument, value, answer, entries in use, start and end of the top.
// The value is 0 or document 01's refusal number; what there is none of is 0. How the record is made stands in
// differential/README.md.
#![tactic(auto)]

mod call;
mod made;
mod text;

use call::{CALLS, Call};
use made::{Replayed, Seen};
use recorded_text::{Tally, count_lines};
use std::{fmt, fs, io};
use text::{Line, next_line};

fn print_difference<N: fmt::Display>(
    rt: &impl Print,
    step: usize,
    name: &N,
    line: Line,
    seen: Seen,
) -> io::Result<()> {
    let argument = line.argument;
    let recorded = line.seen;
    println!(rt; "step {step} differs: {name} {argument}: {seen}; recorded: {recorded}")
}

fn replay_line(
    rt: &impl Print,
    step: usize,
    line: Line,
    manager: &mut Replayed,
    tally: &mut Tally<7>,
) -> io::Result<()> {
    let called = Call::try_from(line.call);
    let seen = manager.make(called, line.argument);
    let agreed = seen == line.seen;
    tally.count(line.call, agreed);
    if !agreed {
        match called {
            Ok(call) => print_difference(rt, step, &call, line, seen)?,
            Err(unknown) => print_difference(rt, step, &unknown, line, seen)?,
        }
    }
    Ok(())
}

fn replay(rt: &impl Print, text: &[u8]) -> io::Result<Tally<7>> {
    let mut manager = Replayed::new();
    let mut tally = Tally::new();
    let mut at = 0;
    for step in 1..=count_lines(text) {
        let line = next_line(text, &mut at);
        replay_line(rt, step, line, &mut manager, &mut tally)?;
    }
    Ok(tally)
}

fn main(rt: HostRuntime) -> io::Result<()> {
    let text = fs::read(&rt, "manager_calls")?;
    let tally = replay(&rt, &text)?;
    tally.print(&rt, &CALLS)
}
