// The lines of a page. Of a store they show the table length, counts and places, and no element.
ghost use Rattle.std.specs.Prelude.{[], ◌∷◌, ◌≡◌, ◌+◌, ◌≤◌, length};
ghost use Rattle.decimal.specs.Lines.{line};
ghost use Rattle.decimal.specs.Segments.{put};
ghost use Rattle.store_definitions.specs.Answers.{number_means, output};
ghost use Rattle.page.specs.Page.{page_text, page_written};
ghost use Rattle.page.specs.Writing.{Readable};

use terms::Refusal;

const COLUMNS: usize = 6;

const LINE_BYTES: usize = 19;

// The line of one index.
fn put_point(text: &mut [u8], at: usize, index: usize, count: usize, place: usize)
    requires { at + 19 ≤ length text.old }
    ensures { text.new ≡ put at (line 6 (index ∷ count ∷ place ∷ [])) text.old }
{
    let row = [index, count, place];
    decimal::put_line(text, at, COLUMNS, &row);
}

// Kept: no plainer: with the counts' part in place of the table's length a contract has one clause less, and its caller's proof a law of `take` more.
fn write_lines(table_length: usize, reference_count: &[u16], location: &[u16], text: &mut [u8])
    requires { ((table_length ≤ length reference_count.now) × (table_length ≤ length location.now)) × (length (page_text table_length reference_count.now location.now) ≤ length text.old) }
    ensures { text.new ≡ put 0 (page_text table_length reference_count.now location.now) text.old }
{
    let mut end = 0;
    // Kept: a line is for a live index alone, so its place follows from no index; the lines' chunks would have to be asked for one by one.
    for i in 0..table_length {
        let count = reference_count[i] as usize;
        if 0 < count {
            let place = location[i] as usize;
            put_point(text, end, i, count, place);
            end += LINE_BYTES;
        }
    }
}

// The page of a table whose live number is known.
pub fn page_unchecked(
    table_length: usize,
    live: usize,
    reference_count: &[u16],
    location: &[u16],
    text: &mut [u8],
) -> Result<usize, Refusal>
    requires { Readable table_length live reference_count.now location.now }
    ensures { output (number_means result) text.new ≡ page_written table_length reference_count.now location.now text.old }
{
    let length = live * LINE_BYTES;
    if text.len() < length {
        return Err(Refusal::TextLength);
    }
    write_lines(table_length, reference_count, location, text);
    Ok(length)
}
