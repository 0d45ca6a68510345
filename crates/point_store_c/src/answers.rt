// Answers of the store's calls as return values and lent numbers.
ghost use Rattle.std.specs.Prelude.{◌≡◌, [], ◌∷◌};
ghost use Rattle.placement.specs.Laying.{place_of};
ghost use Rattle.store_definitions.specs.Answers.{added_means, adjusted_means, done_means, number_means};
ghost use Rattle.point_store_c.specs.ExportedStore.{joined_number, read, exported_reading};

use placement::Laid;
use store_definitions::{AdjustRefusal, Kept};
use terms::Refusal;

#[tactic(auto, unfolding(crate::specs::ExportedStore::exported_reading))]
pub fn done_number(answer: Result<(), Refusal>) -> u64
    ensures { read result [] ≡ exported_reading [] (done_means answer) }
{
    match answer {
        Ok(()) => 0,
        Err(why) => u64::from(why),
    }
}

#[tactic(auto, unfolding(crate::specs::ExportedStore::exported_reading))]
pub fn number_out(answer: Result<usize, Refusal>, number: &mut u64) -> u64
    ensures { read result (number.new ∷ []) ≡ exported_reading (number.old ∷ []) (number_means answer) }
{
    match answer {
        Err(why) => u64::from(why),
        Ok(n) => {
            *number = n as u64;
            0
        }
    }
}

#[tactic(auto, unfolding(crate::specs::ExportedStore::exported_reading))]
pub fn adjusted_out(answer: Result<(), AdjustRefusal>, pairs_before: &mut u64) -> u64
    ensures { read result (pairs_before.new ∷ []) ≡ exported_reading (pairs_before.old ∷ []) (adjusted_means answer) }
{
    match answer {
        Ok(()) => 0,
        Err(refusal) => {
            *pairs_before = refusal.pairs_before as u64;
            u64::from(refusal.why)
        }
    }
}

// Whether the row was joined, and its place.
fn laid_out(laid: Laid, joined: &mut u64, place: &mut u64)
    ensures { (joined.new ≡ joined_number laid) × (place.new ≡ place_of laid) }
{
    *joined = match laid {
        Laid::Whole(_) => 0,
        Laid::Joined(_) => 1,
    };
    *place = laid.place() as u64;
}

#[tactic(auto, unfolding(crate::specs::ExportedStore::exported_reading))]
pub fn added_out(
    answer: Result<Option<Kept>, Refusal>,
    kept: &mut u64,
    index: &mut u64,
    label_index: &mut u64,
    joined: &mut u64,
    place: &mut u64,
    free_indices: &mut u64,
) -> u64
    ensures { read result (kept.new ∷ index.new ∷ label_index.new ∷ joined.new ∷ place.new ∷ free_indices.new ∷ []) ≡ exported_reading (kept.old ∷ index.old ∷ label_index.old ∷ joined.old ∷ place.old ∷ free_indices.old ∷ []) (added_means answer) }
{
    match answer {
        Err(why) => u64::from(why),
        Ok(None) => {
            *kept = 0;
            0
        }
        Ok(Some(k)) => {
            *kept = 1;
            *index = k.index.0 as u64;
            *label_index = k.label.0 as u64;
            *free_indices = k.free_indices as u64;
            let laid = k.laid;
            laid_out(laid, joined, place);
            0
        }
    }
}
