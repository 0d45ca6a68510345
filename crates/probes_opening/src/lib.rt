// Opening a product in lent memory: its store, and no estimates yet.
#![tactic(auto)]

ghost use Rattle.std.specs.Prelude.{◌&&◌, ◌≡◌, leb};
ghost use Rattle.probes_definitions.specs.Opening.{no_probes, probes_opened, probes_open_spec};
ghost use Rattle.probes_definitions.specs.WellFormed.{eight_probes};
ghost use Rattle.labels.specs.Lent.{SameWriting};
ghost use Rattle.store_definitions.specs.Lent.{SamePoints, lent_writing};

use labels::LabelWriting;
use probes_check::eight_probes;
use probes_definitions::Probes;
use store_definitions::{PointTables, Shape};
use store_rows::{no_record, open};
use terms::{FloatBits, Refusal};

// A shingle size of 0 is outside the store's bounds, and nothing is divided by it.
fn for_eight_probes(dimensions: usize, shingle_size: usize, internal_shingling: bool) -> bool
    ensures { result ≡ leb 1 shingle_size && eight_probes dimensions shingle_size internal_shingling }
{
    if shingle_size < 1 {
        return false;
    }
    eight_probes(dimensions, shingle_size, internal_shingling)
}

// The record where an opening was refused: every call refuses it as ill-formed.
pub fn no_probes() -> Probes
    ensures { result ≡ no_probes }
{
    Probes {
        store: no_record(),
        tallies: [0u32; 8],
    }
}

// `class_text` is the table of reason classes as text.
pub fn open_probes(
    shape: Shape,
    store: &mut [FloatBits],
    last_known_shingle: &mut [FloatBits],
    points: &mut PointTables,
    labels: &mut LabelWriting,
    class_text: &[u8],
) -> Result<Probes, Refusal>
    ensures same { SamePoints points.old points.new × SameWriting labels.old labels.new }
    ensures opened { probes_opened result (lent_writing store.new last_known_shingle.new points.new labels.new) ≡ probes_open_spec 0 shape class_text.now (lent_writing store.old last_known_shingle.old points.old labels.old) }
{
    if !for_eight_probes(
        shape.dimensions,
        shape.shingle_size,
        shape.internal_shingling,
    ) {
        return Err(Refusal::Shape);
    }
    let opened = open(shape, store, last_known_shingle, points, labels, class_text)?;
    Ok(Probes {
        store: opened,
        tallies: [0u32; 8],
    })
}
