// Opening a hold in lent memory: its store, its width, and an empty list.
#![tactic(auto)]

ghost use Rattle.std.specs.Prelude.{◌≡◌};
ghost use Rattle.hold_definitions.specs.Lent.{hold_memory};
ghost use Rattle.hold_definitions.specs.Opening.{no_hold, hold_opened, hold_open_spec};
ghost use Rattle.interval_store_manager.specs.Calls.{decision_means};
ghost use Rattle.labels.specs.Lent.{SameWriting};
ghost use Rattle.store_definitions.specs.Lent.{SamePoints, lent_writing};
ghost use Rattle.hold_opening.specs.Openings.{width_asked, tables_asked, open_asked};

use hold_definitions::{Hold, width_allowed};
use labels::LabelWriting;
use store_definitions::{PointTables, Shape};
use store_rows::{no_record, open, shape_allowed};
use terms::{FloatBits, Refusal};

// With labels off the table of label indices is not looked at.
#[tactic(auto, unfolding(crate::specs::Openings::tables_asked))]
fn tables_decision(
    capacity: usize,
    store_labels: bool,
    indices: usize,
    labels: usize,
) -> Result<(), Refusal>
    ensures { decision_means result ≡ tables_asked capacity store_labels indices labels }
{
    if indices < capacity {
        return Err(Refusal::IllFormed);
    }
    if store_labels {
        if labels < capacity {
            return Err(Refusal::IllFormed);
        }
    }
    Ok(())
}

#[tactic(auto, unfolding(crate::specs::Openings::width_asked))]
fn width_decision(width: usize, capacity: usize) -> Result<(), Refusal>
    ensures { decision_means result ≡ width_asked width capacity }
{
    if width_allowed(width, capacity) {
        return Ok(());
    }
    Err(Refusal::HoldWidth)
}

// The shape, then the width, then the two tables; the rest of the memory is the store's.
#[tactic(auto, unfolding(crate::specs::Openings::open_asked, crate::specs::Openings::shape_asked))]
fn open_decision(shape: Shape, width: usize, indices: usize, labels: usize) -> Result<(), Refusal>
    ensures { decision_means result ≡ open_asked shape width indices labels }
{
    if !shape_allowed(shape) {
        return Err(Refusal::Shape);
    }
    width_decision(width, shape.capacity)?;
    tables_decision(shape.capacity, shape.store_labels, indices, labels)
}

// The record where an opening was refused: every call refuses it as ill-formed.
pub fn no_hold() -> Hold
    ensures { result ≡ no_hold }
{
    Hold {
        store: no_record(),
        width: 0,
        held: 0,
    }
}

// The two tables are only measured: nothing is held yet. `class_text` is the table of reason classes as text.
pub fn open_hold(
    shape: Shape,
    width: usize,
    store: &mut [FloatBits],
    last_known_shingle: &mut [FloatBits],
    points: &mut PointTables,
    labels: &mut LabelWriting,
    held_indices: &[u16],
    held_labels: &[u16],
    class_text: &[u8],
) -> Result<Hold, Refusal>
    ensures same { SamePoints points.old points.new × SameWriting labels.old labels.new }
    ensures opened { hold_opened result (hold_memory (lent_writing store.new last_known_shingle.new points.new labels.new) held_indices.now held_labels.now) ≡ hold_open_spec 0 shape width class_text.now (hold_memory (lent_writing store.old last_known_shingle.old points.old labels.old) held_indices.now held_labels.now) }
{
    open_decision(shape, width, held_indices.len(), held_labels.len())?;
    let opened = open(shape, store, last_known_shingle, points, labels, class_text)?;
    Ok(Hold {
        store: opened,
        width,
        held: 0,
    })
}
