// An add that keeps its point, carried out.
ghost use Rattle.std.specs.Prelude.{true, ◌≡◌};
ghost use Rattle.float_bits.specs.Words.{words_equal};
ghost use Rattle.store_check.specs.Figures.{FiguresOf};
ghost use Rattle.store_definitions.specs.Adding.{keep, add_decided, keeps};
ghost use Rattle.store_definitions.specs.Answers.{outcome};
ghost use Rattle.labels.specs.Lent.{SameTaking};
ghost use Rattle.store_definitions.specs.Lent.{SamePoints, lent_taking};
ghost use Rattle.store_definitions.specs.Memory.{point_store};
ghost use Rattle.store_definitions.specs.WellFormed.{well_formed};
ghost use Rattle.store_add.specs.Deciding.{kept_means};

use crate::lay::lay_row;
use crate::room::find_room;
use crate::take::{label_for, take_index};
use labels::LabelTaking;
use store_check::Figures;
use store_definitions::{Kept, PointTables, Store};
use terms::{FloatBits, PointIndex, Refusal};

// Refused where there is no room for the row.
pub fn keep(
    s: &mut Store,
    store: &mut [FloatBits],
    last_known_shingle: &mut [FloatBits],
    points: &mut PointTables,
    labels: &mut LabelTaking,
    point: &[FloatBits],
    label: usize,
    figures: Figures,
) -> Result<Kept, Refusal>
    requires { (well_formed (point_store s.old (lent_taking store.old last_known_shingle.old points.old labels.old)) ≡ true) × ((add_decided (point_store s.old (lent_taking store.old last_known_shingle.old points.old labels.old)) point.now label ≡ keep) × FiguresOf figures (point_store s.old (lent_taking store.old last_known_shingle.old points.old labels.old))) }
    ensures same { SamePoints points.old points.new × SameTaking labels.old labels.new }
    ensures kept { outcome (kept_means result) (point_store s.new (lent_taking store.new last_known_shingle.new points.new labels.new)) ≡ keeps words_equal 0 (point_store s.old (lent_taking store.old last_known_shingle.old points.old labels.old)) point.now label }
{
    let joined = find_room(s, store, points.location, last_known_shingle, point)?;
    let label = label_for(s, labels, label, figures.free);
    let row = lay_row(
        *s,
        store,
        last_known_shingle,
        point,
        s.start_free_region,
        joined,
    );
    s.start_free_region = row.start_free_region;
    s.next_sequence_index += 1;
    let capacity = s.capacity;
    let given = take_index(
        &mut s.index_manager,
        points,
        capacity,
        row.laid.place(),
        figures.live,
    );
    Ok(Kept {
        index: PointIndex(given.index),
        label,
        laid: row.laid,
        free_indices: given.free,
    })
}
