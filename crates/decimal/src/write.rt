// Fields and lines written from the right into a lent text.
ghost use Rattle.std.specs.Prelude.{◌≡◌, ◌+◌, ◌≤◌, length};
ghost use Rattle.decimal.specs.Field.{field};
ghost use Rattle.decimal.specs.Lines.{line};
ghost use Rattle.decimal.specs.Segments.{put};

use crate::LINE_FEED;
use crate::columns::{column_of, last_digit};

// The number's field, as wide as the slice.
pub fn write_field(out: &mut [u8], number: usize)
    ensures { out.new ≡ field (length out.old) number }
{
    let width = out.len();
    if width == 0 {
        return;
    }
    out[width - 1] = last_digit(number);
    let mut rest = number / 10;
    for k in (0..width - 1).rev() {
        out[k] = column_of(rest);
        rest /= 10;
    }
}

// The number's field in a part of a text.
pub fn put_field(text: &mut [u8], at: usize, width: usize, number: usize)
    requires { at + width ≤ length text.old }
    ensures { text.new ≡ put at (field width number) text.old }
{
    let end = at + width;
    write_field(&mut text[at..end], number);
}

// The numbers' fields and a line feed in a part of a text.
pub fn put_line(text: &mut [u8], at: usize, width: usize, numbers: &[usize])
    requires { at + length (line width numbers.now) ≤ length text.old }
    ensures { text.new ≡ put at (line width numbers.now) text.old }
{
    let mut end = at;
    // Kept: `chunks_mut` of the text would give each number its field, but not of width 0, which is allowed.
    for number in numbers {
        put_field(text, end, width, *number);
        end += width;
    }
    text[end] = LINE_FEED;
}
