// The readings of a label: its code, its class, and the ten floats that stand for its slot.
ghost use Rattle.std.specs.Prelude.{◌≡◌, ◌<◌, length, get_or, set, replicate};
ghost use Rattle.labels.specs.Readings.{label_read_means, vector_read_means, zero_float, one_float, label_spec, attribute_spec, vector_outcome, attribute_vec_spec};

use crate::decide::label_in_use;
use crate::entries::entry;
use terms::{LabelIndex, Refusal};

// Document 01: 'ten floats'.
const VECTOR_LENGTH: usize = 10;

#[tactic(auto, unfolding(crate::specs::Readings::label_spec))]
pub fn label(
    store_labels: bool,
    capacity: usize,
    labels: &[u8],
    label_count: &[u16],
    index: LabelIndex,
) -> Result<usize, Refusal>
    ensures { label_read_means result ≡ label_spec store_labels capacity labels.now label_count.now index.0 }
{
    if label_in_use(store_labels, capacity, label_count, index) {
        return Ok(entry(labels, index.0, 0) as usize);
    }
    Err(Refusal::LabelNotInUse)
}

// The slot of a label, and the class that the slot holds.
#[derive(Clone, Copy)]
struct HeldClass {
    slot: usize,
    class: usize,
}

fn attribute_at(label_attributes: &[u16], attributes: &[u8], index: LabelIndex) -> HeldClass
    ensures { (result.slot ≡ get_or label_attributes.now index.0 0) × (result.class ≡ get_or attributes.now (get_or label_attributes.now index.0 0) 0) }
{
    let slot = entry(label_attributes, index.0, 0) as usize;
    HeldClass {
        slot,
        class: entry(attributes, slot, 0) as usize,
    }
}

#[tactic(auto, unfolding(crate::specs::Readings::attribute_spec))]
pub fn attribute(
    store_labels: bool,
    capacity: usize,
    label_attributes: &[u16],
    label_count: &[u16],
    attributes: &[u8],
    index: LabelIndex,
) -> Result<usize, Refusal>
    ensures { label_read_means result ≡ attribute_spec store_labels capacity label_attributes.now label_count.now attributes.now index.0 }
{
    if label_in_use(store_labels, capacity, label_count, index) {
        let found = attribute_at(label_attributes, attributes, index);
        return Ok(found.class);
    }
    Err(Refusal::LabelNotInUse)
}

// 1.0 at one place, else 0.0.
fn one_hot(out: &mut [f32], at: usize)
    requires { at < length out.old }
    ensures { out.new ≡ set (replicate (length out.old) zero_float) at one_float }
{
    out.fill(0.0);
    out[at] = 1.0;
}

#[tactic(auto, unfolding(crate::specs::Readings::attribute_vec_spec, crate::specs::Readings::one_hot))]
pub fn attribute_vec(
    store_labels: bool,
    capacity: usize,
    label_attributes: &[u16],
    label_count: &[u16],
    attributes: &[u8],
    index: LabelIndex,
    out: &mut [f32],
) -> Result<(), Refusal>
    ensures { vector_outcome (vector_read_means result) out.new ≡ attribute_vec_spec store_labels capacity label_attributes.now label_count.now index.0 out.old }
{
    if label_in_use(store_labels, capacity, label_count, index) {
        if out.len() == VECTOR_LENGTH {
            let found = attribute_at(label_attributes, attributes, index);
            one_hot(out, found.slot % VECTOR_LENGTH);
            return Ok(());
        }
        return Err(Refusal::Length);
    }
    Err(Refusal::LabelNotInUse)
}
