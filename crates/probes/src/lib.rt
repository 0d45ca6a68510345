// A set of eight readings taken by a product: one add of the store, and the tallies. Opening stands in `probes_opening`, the reading of
// the tallies in `probes_check`.
#![tactic(auto)]

ghost use Rattle.std.specs.Prelude.{true, ◌≡◌, length};
ghost use Rattle.float_bits.specs.Words.{words_equal};
ghost use Rattle.probes_definitions.specs.Answers.{probes_outcome};
ghost use Rattle.probes_definitions.specs.Memory.{point_probes, last_floats};
ghost use Rattle.probes_definitions.specs.Readings.{filled, of_floats, of_kinds};
ghost use Rattle.probes_definitions.specs.Setting.{set_added, set_kinds_spec, set_spec};
ghost use Rattle.probes_definitions.specs.WellFormed.{probes_well_formed};
ghost use Rattle.store_check.specs.Figures.{FiguresOf};
ghost use Rattle.store_definitions.specs.Adding.{add_spec};
ghost use Rattle.store_definitions.specs.Answers.{added_means};
ghost use Rattle.labels.specs.Lent.{SameTaking};
ghost use Rattle.store_definitions.specs.Lent.{SamePoints, lent_taking};
ghost use Rattle.store_definitions.specs.Memory.{point_store};

use labels::LabelTaking;
use probe_readings::{filled_words, kinds_of, set_decision, tallied, words_of};
use probes_check::check_probes;
use probes_definitions::{Probes, Reading};
use store_add::add_unchecked;
use store_check::Figures;
use store_definitions::{Kept, PointTables};
use terms::{FloatBits, Refusal};

// Of a product that is well-formed.
fn set_filled(
    p: &mut Probes,
    store: &mut [FloatBits],
    last_known_shingle: &mut [FloatBits],
    points: &mut PointTables,
    labels: &mut LabelTaking,
    kinds: &[u8; 8],
    words: &[FloatBits; 8],
    label: usize,
    figures: Figures,
) -> Result<Option<Kept>, Refusal>
    requires { (probes_well_formed (point_probes p.old (lent_taking store.old last_known_shingle.old points.old labels.old)) ≡ true) × FiguresOf figures (point_store p.old.store (lent_taking store.old last_known_shingle.old points.old labels.old)) }
    ensures same { SamePoints points.old points.new × SameTaking labels.old labels.new }
    ensures set { probes_outcome (added_means result) (point_probes p.new (lent_taking store.new last_known_shingle.new points.new labels.new)) ≡ set_added (point_probes p.old (lent_taking store.old last_known_shingle.old points.old labels.old)) (of_kinds kinds.now words.now) (add_spec words_equal 0 (point_store p.old.store (lent_taking store.old last_known_shingle.old points.old labels.old)) (filled (of_kinds kinds.now words.now) (last_floats (point_store p.old.store (lent_taking store.old last_known_shingle.old points.old labels.old)))) label) }
{
    let filled = filled_words(p.store.dimensions, last_known_shingle, kinds, words);
    let kept = add_unchecked(
        &mut p.store,
        store,
        last_known_shingle,
        points,
        labels,
        &filled,
        label,
        figures,
    )?;
    p.tallies = tallied(p.tallies, kinds);
    Ok(kept)
}

// Readings as kinds (0 Measured, 1 Estimated, 2 Absent) and words: a NaN keeps its bits.
pub fn set_words(
    p: &mut Probes,
    store: &mut [FloatBits],
    last_known_shingle: &mut [FloatBits],
    points: &mut PointTables,
    labels: &mut LabelTaking,
    kinds: &[u8],
    words: &[FloatBits],
    label: usize,
) -> Result<Option<Kept>, Refusal>
    ensures same { SamePoints points.old points.new × SameTaking labels.old labels.new }
    ensures set { probes_outcome (added_means result) (point_probes p.new (lent_taking store.new last_known_shingle.new points.new labels.new)) ≡ set_kinds_spec words_equal 0 (point_probes p.old (lent_taking store.old last_known_shingle.old points.old labels.old)) kinds.now words.now label }
{
    let figures = check_probes(*p, store, last_known_shingle, points.read(labels.read())).ok_or(
        Refusal::IllFormed,
    )?;
    set_decision(p.store.next_sequence_index, kinds, words.len())?;
    let kinds = kinds.first_chunk::<8>().ok_or(Refusal::Length)?;
    let words = words.first_chunk::<8>().ok_or(Refusal::Length)?;
    set_filled(
        p,
        store,
        last_known_shingle,
        points,
        labels,
        kinds,
        words,
        label,
        figures,
    )
}

// The eight readings as floats.
pub fn set(
    p: &mut Probes,
    store: &mut [FloatBits],
    last_known_shingle: &mut [FloatBits],
    points: &mut PointTables,
    labels: &mut LabelTaking,
    readings: [Reading; 8],
    label: usize,
) -> Result<Option<Kept>, Refusal>
    ensures same { SamePoints points.old points.new × SameTaking labels.old labels.new }
    ensures set { probes_outcome (added_means result) (point_probes p.new (lent_taking store.new last_known_shingle.new points.new labels.new)) ≡ set_spec words_equal 0 (point_probes p.old (lent_taking store.old last_known_shingle.old points.old labels.old)) (of_floats readings) label }
{
    let kinds = kinds_of(readings);
    let words = words_of(readings);
    set_words(
        p,
        store,
        last_known_shingle,
        points,
        labels,
        &kinds,
        &words,
        label,
    )
}
