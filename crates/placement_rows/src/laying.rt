// A row is laid at the free start, whole or joined to the one before it.
ghost use Rattle.std.specs.Prelude.{◌≡◌, length};
ghost use Rattle.placement.specs.Laying.{laid_as, laid_free, laid_elements};
ghost use Rattle.placement_rows.specs.Layable.{Layable};

use super::words::copy_from;
use placement::Laid;
use terms::FloatBits;

// How and where a row was laid, and the free start after it.
#[derive(Clone, Copy)]
pub struct LaidRow {
    pub laid: Laid,
    pub start_free_region: usize,
}

// `joined` is what `row_joins` says: then only the row's last base words are written.
#[tactic(auto, using(crate::proofs::Runs::laid_whole, crate::proofs::Runs::laid_joined), unfolding(placement::specs::Laying::laid_as, placement::specs::Laying::laid_free, placement::specs::Laying::written_count))]
pub fn lay(
    store: &mut [FloatBits],
    row: &[FloatBits],
    dimensions: usize,
    base: usize,
    start_free_region: usize,
    joined: bool,
) -> LaidRow
    requires { Layable dimensions base joined start_free_region (length row.now) (length store.old) }
    ensures elements { store.new ≡ laid_elements dimensions base joined start_free_region store.old row.now }
    ensures answer { (result.laid ≡ laid_as dimensions base joined start_free_region) × (result.start_free_region ≡ laid_free dimensions base joined start_free_region) }
{
    let extra = dimensions - base;
    if joined {
        copy_from(store, start_free_region, &row[extra..]);
        return LaidRow {
            laid: Laid::Joined((start_free_region - extra) / base),
            start_free_region: start_free_region + base,
        };
    }
    copy_from(store, start_free_region, row);
    LaidRow {
        laid: Laid::Whole(start_free_region / base),
        start_free_region: start_free_region + dimensions,
    }
}
