// The tallies after an accepted set.
ghost use Rattle.std.specs.Prelude.{true, cond, ◌≡◌, ℕ, ◌<◌, length, get_or};
ghost use Rattle.probe_readings.specs.Kinds.{estimate_of, tallied_kinds};

use super::ESTIMATED;

fn estimate_of(kind: u8) -> u32
    ensures { result ≡ estimate_of kind }
{
    (kind == ESTIMATED) as u32
}

// An estimate more for each probe whose kind is Estimated.
#[tactic(auto, using(crate::specs::Entries::written_all, crate::specs::Entries::tallied_long))]
pub fn tallied(tallies: [u32; 8], kinds: &[u8; 8]) -> [u32; 8]
    requires { (k : ℕ) → k < 8 → get_or tallies k 0 < 4294967295 }
    ensures { result ≡ tallied_kinds kinds.now tallies }
{
    let mut counted = [0u32; 8];
    for k in 0..8 {
        counted[k] = tallies[k] + estimate_of(kinds[k]);
    }
    counted
}

pub fn tallies_after(accepted: bool, tallies: [u32; 8], kinds: &[u8]) -> [u32; 8]
    requires { (length kinds.now ≡ 8) × (accepted ≡ true → (k : ℕ) → k < 8 → get_or tallies k 0 < 4294967295) }
    ensures { result ≡ cond accepted (tallied_kinds kinds.now tallies) tallies }
{
    match kinds.first_chunk::<8>() {
        Some(eight) if accepted => tallied(tallies, eight),
        _ => tallies,
    }
}
