// One column of a field.
ghost use Rattle.std.specs.Prelude.{◌≡◌};
ghost use Rattle.decimal.specs.Field.{last_digit, column, digit};

// The digit that a number ends with.
pub fn last_digit(number: usize) -> u8
    ensures { result ≡ last_digit number }
{
    b'0' + (number % 10) as u8
}

// A column left of the last, of what is left of the number.
#[tactic(auto, unfolding(crate::specs::Field::column))]
pub fn column_of(rest: usize) -> u8
    ensures { result ≡ column rest }
{
    if rest == 0 { b' ' } else { last_digit(rest) }
}

// What a byte counts for.
#[tactic(auto, unfolding(crate::specs::Field::digit))]
pub fn digit_of(b: u8) -> usize
    ensures { result ≡ digit b }
{
    if b.is_ascii_digit() {
        (b - b'0') as usize
    } else {
        0
    }
}
