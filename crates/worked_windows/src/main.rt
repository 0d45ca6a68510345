// Runs the worked windows A to H of docs/STORE.md, cases of growth and of the largest count, adjust and the other readings on the proved
// store, and prints what each call answers. Every case begins with a new store.
#![tactic(auto)]

mod adjust_cases;
mod cases;
mod preview_cases;
mod print;
mod reading_cases;

use std::io;

fn main(rt: HostRuntime) -> io::Result<()> {
    cases::without_rotation(&rt)?;
    cases::rotating(&rt)?;
    cases::refused_for_space(&rt)?;
    cases::small_starts(&rt)?;
    cases::largest_count(&rt)?;
    adjust_cases::pairs(&rt)?;
    reading_cases::rows_read(&rt)?;
    reading_cases::zeros_and_nans(&rt)?;
    reading_cases::joined_by_bits(&rt)?;
    preview_cases::previews(&rt)?;
    reading_cases::labels_read(&rt)?;
    reading_cases::loaded_classes(&rt)
}
