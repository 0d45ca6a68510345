// Fields and lines read from a lent text: by value, and accepted where writing makes the same bytes.
ghost use Rattle.std.specs.Prelude.{◌≡◌, ◌≤◌, length};
ghost use Rattle.decimal.specs.Field.{value, same_bytes, is_field, field_read};
ghost use Rattle.decimal.specs.Lines.{line};

use crate::LINE_FEED;
use crate::columns::{column_of, digit_of, last_digit};

// What the bytes of a field count for, whether or not it is accepted. A number of 19 digits fits.
pub fn field_value(text: &[u8]) -> usize
    requires { length text.now ≤ 19 }
    ensures { result ≡ value text.now }
{
    let mut value: usize = 0;
    for b in text {
        value = value * 10 + digit_of(*b);
    }
    value
}

// Whether the slice is the number's field.
pub fn is_field(text: &[u8], number: usize) -> bool
    ensures { result ≡ is_field text.now number }
{
    let Some((last, left)) = text.split_last() else {
        return true;
    };
    if *last != last_digit(number) {
        return false;
    }
    let mut rest = number / 10;
    for b in left.iter().rev() {
        if *b != column_of(rest) {
            return false;
        }
        rest /= 10;
    }
    true
}

// The number whose field the slice is.
#[tactic(auto, unfolding(crate::specs::Field::field_read))]
pub fn read_field(text: &[u8]) -> Option<usize>
    requires { length text.now ≤ 19 }
    ensures { result ≡ field_read text.now }
{
    let number = field_value(text);
    is_field(text, number).then_some(number)
}

// Whether the slice is the line of the numbers, as long as it is.
pub fn is_line(text: &[u8], width: usize, numbers: &[usize]) -> bool
    requires { length text.now ≡ length (line width numbers.now) }
    ensures { result ≡ same_bytes text.now (line width numbers.now) }
{
    let mut at = 0;
    // Kept: `chunks` of the text would give each number its field, but not of width 0, which is allowed.
    for number in numbers {
        let end = at + width;
        if !is_field(&text[at..end], *number) {
            return false;
        }
        at = end;
    }
    text[at] == LINE_FEED
}
