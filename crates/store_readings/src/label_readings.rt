// The readings of a label: its code, its class, and the ten floats that stand for its slot.
ghost use Rattle.std.specs.Prelude.{◌≡◌};
ghost use Rattle.store_definitions.specs.Answers.{done_means, number_means, output};
ghost use Rattle.store_definitions.specs.LabelReadings.{label_spec, attribute_spec, attribute_vec_spec};
ghost use Rattle.store_definitions.specs.Lent.{lent};
ghost use Rattle.store_definitions.specs.Memory.{point_store};

use store_check::check;
use store_definitions::{Store, Tables};
use terms::{FloatBits, LabelIndex, Refusal};

#[tactic(auto, using(store_check::specs::Checked::check_failed, store_laws::specs::IllFormedLaws::label_ill))]
pub fn label(
    s: Store,
    store: &[FloatBits],
    last_known_shingle: &[FloatBits],
    tables: Tables,
    label: LabelIndex,
) -> Result<usize, Refusal>
    ensures { number_means result ≡ label_spec (point_store s (lent store.now last_known_shingle.now tables.entry)) label.0 }
{
    check(s, store.len(), last_known_shingle.len(), tables).ok_or(Refusal::IllFormed)?;
    let half = tables.label_tables;
    labels::label(
        s.store_labels,
        s.capacity,
        half.labels,
        half.label_count,
        label,
    )
}

#[tactic(auto, using(store_check::specs::Checked::check_failed, store_laws::specs::IllFormedLaws::attribute_ill))]
pub fn attribute(
    s: Store,
    store: &[FloatBits],
    last_known_shingle: &[FloatBits],
    tables: Tables,
    label: LabelIndex,
) -> Result<usize, Refusal>
    ensures { number_means result ≡ attribute_spec (point_store s (lent store.now last_known_shingle.now tables.entry)) label.0 }
{
    check(s, store.len(), last_known_shingle.len(), tables).ok_or(Refusal::IllFormed)?;
    let half = tables.label_tables;
    labels::attribute(
        s.store_labels,
        s.capacity,
        half.label_attributes,
        half.label_count,
        half.attributes,
        label,
    )
}

#[tactic(auto, using(store_check::specs::Checked::check_failed, store_laws::specs::IllFormedLaws::attribute_vec_ill))]
pub fn attribute_vec(
    s: Store,
    store: &[FloatBits],
    last_known_shingle: &[FloatBits],
    tables: Tables,
    label: LabelIndex,
    out: &mut [f32],
) -> Result<(), Refusal>
    ensures { output (done_means result) out.new ≡ attribute_vec_spec (point_store s (lent store.now last_known_shingle.now tables.entry)) label.0 out.old }
{
    check(s, store.len(), last_known_shingle.len(), tables).ok_or(Refusal::IllFormed)?;
    let half = tables.label_tables;
    labels::attribute_vec(
        s.store_labels,
        s.capacity,
        half.label_attributes,
        half.label_count,
        half.attributes,
        label,
        out,
    )
}
