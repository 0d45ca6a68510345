// A line of the record: seven numbers.
use crate::made::Seen;
use recorded_text::next_number;

#[derive(Clone, Copy)]
pub struct Line {
    pub call: usize,
    pub argument: usize,
    pub seen: Seen,
}

// The line that starts at `at`, which then is where the next one starts.
pub fn next_line(text: &[u8], at: &mut usize) -> Line {
    Line {
        call: next_number(text, at),
        argument: next_number(text, at),
        seen: Seen {
            value: next_number(text, at),
            answer: next_number(text, at),
            in_use: next_number(text, at),
            start: next_number(text, at),
            end: next_number(text, at),
        },
    }
}
