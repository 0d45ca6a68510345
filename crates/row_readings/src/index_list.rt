// Where the next values stand in the window.
ghost use Rattle.std.specs.Prelude.{[], map, ◌≡◌, length, get_or, ℕ, ◌+◌, ◌^◌, ◌<◌, ◌≤◌};
ghost use Rattle.store_definitions.specs.Answers.{done_means, output};
ghost use Rattle.store_definitions.specs.IndexLists.{value_limit, values_below, up_to, next_values, indices_written};
ghost use Rattle.row_readings.specs.Shingled.{Shingled};
ghost use Rattle.row_readings.specs.IndexReadings.{FirstIndex};

use store_definitions::Store;
use terms::Refusal;

const LARGEST_LOOK_AHEAD: usize = 65535;

// Kept: no plainer: base stands as a quotient in each definition of these lists, and an answer would tell by its contract what
// `Store::base` gives.
// Kept: no plainer: that a store is `Shingled` is one fact in each contract, and a record already.
#[tactic(auto, unfolding(store_definitions::specs::IndexLists::value_limit))]
fn value_limit(s: Store) -> usize
    requires { Shingled s }
    ensures { result ≡ value_limit s }
{
    if s.internal_shingling {
        return s.dimensions / s.shingle_size;
    }
    s.dimensions
}

fn values_below(values: &[usize], limit: usize) -> bool
    ensures { result ≡ values_below limit values.now }
{
    values.iter().all(|value| *value < limit)
}

// Where value 0 stands; any other stands as far after it. Rotating, that is a multiple of base, so that no value passes the
// end of the window: one remainder serves the whole list. The product is below 2^39.
fn first_index(s: Store, look_ahead: usize) -> usize
    requires { (Shingled s) × (look_ahead ≤ 65535) }
    ensures { FirstIndex s look_ahead result }
{
    if s.internal_shingling {
        let dimensions = s.dimensions;
        let base = dimensions / s.shingle_size;
        if s.internal_rotation {
            let sequence = s.next_sequence_index as usize;
            return (sequence + look_ahead) * base % dimensions;
        }
        return dimensions - base;
    }
    0
}

fn move_values(first: usize, values: &[usize], out: &mut [usize])
    requires { (length out.old ≡ length values.now) × ((i : ℕ) → i < length values.now → first + get_or values.now i 0 < 2 ^ 64) }
    ensures { out.new ≡ map (λ v. first + v) values.now }
{
    for (i, entry) in out.iter_mut().enumerate() {
        *entry = first + values[i];
    }
}

fn count_from(first: usize, out: &mut [usize])
    requires { first + length out.old < 2 ^ 64 }
    ensures { out.new ≡ map (λ v. first + v) (up_to (length out.old) []) }
{
    for (i, entry) in out.iter_mut().enumerate() {
        *entry = first + i;
    }
}

// Every value is looked at before the first is written.
pub fn missing_indices_unchecked(
    s: Store,
    look_ahead: usize,
    values: &[usize],
    out: &mut [usize],
) -> Result<(), Refusal>
    requires { Shingled s }
    ensures { output (done_means result) out.new ≡ indices_written s look_ahead values.now out.old }
{
    if out.len() != values.len() {
        return Err(Refusal::Length);
    }
    if LARGEST_LOOK_AHEAD < look_ahead {
        return Err(Refusal::ValueTooLarge);
    }
    if !values_below(values, value_limit(s)) {
        return Err(Refusal::ValueTooLarge);
    }
    move_values(first_index(s, look_ahead), values, out);
    Ok(())
}

pub fn next_indices_unchecked(s: Store, look_ahead: usize, out: &mut [usize]) -> Result<(), Refusal>
    requires { Shingled s }
    ensures { output (done_means result) out.new ≡ indices_written s look_ahead (next_values s) out.old }
{
    let base = s.dimensions / s.shingle_size;
    if out.len() != base {
        return Err(Refusal::Length);
    }
    if LARGEST_LOOK_AHEAD < look_ahead {
        return Err(Refusal::ValueTooLarge);
    }
    let first = first_index(s, look_ahead);
    count_from(first, out);
    Ok(())
}
