// A text of classes read: every line is compared with the one that its code and class make.
ghost use Rattle.std.specs.Prelude.{◌≡◌, [], ◌∷◌, ◌+◌, ◌≤◌, length, take, drop};
ghost use Rattle.decimal.specs.Field.{same_bytes};
ghost use Rattle.decimal.specs.Lines.{line};
ghost use Rattle.class_table.specs.Text.{line_class, table_read};

use crate::allowed::table_allowed;

// What columns 5 to 8 of the line count for.
fn class_in(text: &[u8], at: usize) -> usize
    requires { at + 9 ≤ length text.now }
    ensures { result ≡ line_class (drop at text.now) }
{
    let start = at + 4;
    let end = at + 8;
    decimal::field_value(&text[start..end])
}

// Whether the line is that of the code and the class.
fn is_class_line(text: &[u8], at: usize, code: usize, class: usize) -> bool
    requires { at + 9 ≤ length text.now }
    ensures { result ≡ same_bytes (take 9 (drop at text.now)) (line 4 (code ∷ class ∷ [])) }
{
    let row = [code, class];
    let end = at + 9;
    decimal::is_line(&text[at..end], 4, &row)
}

// The table whose text this is.
pub fn read_classes(text: &[u8]) -> Option<[u8; 24]>
    ensures { result ≡ table_read text.now }
{
    if text.len() != 216 {
        return None;
    }
    let mut classes = [0u8; 24];
    // Kept: tried with `chunks_exact(9)`; the proof did not close: the laws of a line speak of the text from a position on.
    for code in 0..24 {
        let at = code * 9;
        let class = class_in(text, at);
        if 9 < class {
            return None;
        }
        if !is_class_line(text, at, code, class) {
            return None;
        }
        classes[code] = class as u8;
    }
    table_allowed(classes).then_some(classes)
}
