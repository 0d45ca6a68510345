// The calls that change a store.
use crate::Block;
use labels::{LabelLowering, LabelRaising, LabelTaking};
use store_add::add;
use store_adjust_pairs::adjust_count;
use store_counts::{dec, inc};
use store_definitions::{AdjustRefusal, Change, Kept, Pair, PointRaising, PointTables};
use store_rows::compact;
use terms::{FloatBits, LabelIndex, PointIndex, Refusal};

impl Block {
    pub fn add(&mut self, point: &[FloatBits], label: usize) -> Result<Option<Kept>, Refusal> {
        let mut points = PointTables {
            reference_count: &mut self.reference_count,
            location: &mut self.location,
            index_starts: &mut self.index_starts,
            index_ends: &mut self.index_ends,
        };
        let mut labels = LabelTaking {
            labels: &mut self.labels,
            label_attributes: &mut self.label_attributes,
            label_count: &mut self.label_count,
            label_starts: &mut self.label_starts,
            label_ends: &self.label_ends,
            attributes: &mut self.attributes,
            attribute_count: &mut self.attribute_count,
            attribute_starts: &mut self.attribute_starts,
            attribute_ends: &self.attribute_ends,
        };
        add(
            &mut self.store,
            &mut self.floats,
            &mut self.window,
            &mut points,
            &mut labels,
            point,
            label,
        )
    }

    pub fn inc(&mut self, index: PointIndex, label: LabelIndex) -> Result<(), Refusal> {
        let mut points = PointRaising {
            reference_count: &mut self.reference_count,
            location: &self.location,
            index_starts: &self.index_starts,
            index_ends: &self.index_ends,
        };
        let mut labels = LabelRaising {
            labels: &self.labels,
            label_attributes: &self.label_attributes,
            label_count: &mut self.label_count,
            label_starts: &self.label_starts,
            label_ends: &self.label_ends,
            attributes: &self.attributes,
            attribute_count: &mut self.attribute_count,
            attribute_starts: &self.attribute_starts,
            attribute_ends: &self.attribute_ends,
        };
        inc(
            self.store,
            &self.floats,
            &self.window,
            &mut points,
            &mut labels,
            Change { index, label },
        )
    }

    pub fn dec(&mut self, index: PointIndex, label: LabelIndex) -> Result<(), Refusal> {
        let mut points = PointTables {
            reference_count: &mut self.reference_count,
            location: &mut self.location,
            index_starts: &mut self.index_starts,
            index_ends: &mut self.index_ends,
        };
        let mut labels = LabelLowering {
            labels: &self.labels,
            label_attributes: &self.label_attributes,
            label_count: &mut self.label_count,
            label_starts: &mut self.label_starts,
            label_ends: &mut self.label_ends,
            attributes: &self.attributes,
            attribute_count: &mut self.attribute_count,
            attribute_starts: &mut self.attribute_starts,
            attribute_ends: &mut self.attribute_ends,
        };
        dec(
            &mut self.store,
            &self.floats,
            &self.window,
            &mut points,
            &mut labels,
            Change { index, label },
        )
    }

    pub fn adjust_count(&mut self, pairs: &[Pair]) -> Result<(), AdjustRefusal> {
        let mut points = PointTables {
            reference_count: &mut self.reference_count,
            location: &mut self.location,
            index_starts: &mut self.index_starts,
            index_ends: &mut self.index_ends,
        };
        let mut labels = LabelLowering {
            labels: &self.labels,
            label_attributes: &self.label_attributes,
            label_count: &mut self.label_count,
            label_starts: &mut self.label_starts,
            label_ends: &mut self.label_ends,
            attributes: &self.attributes,
            attribute_count: &mut self.attribute_count,
            attribute_starts: &mut self.attribute_starts,
            attribute_ends: &mut self.attribute_ends,
        };
        adjust_count(
            &mut self.store,
            &self.floats,
            &self.window,
            &mut points,
            &mut labels,
            pairs,
        )
    }

    pub fn compact(&mut self) -> Result<(), Refusal> {
        compact(
            &mut self.store,
            &mut self.floats,
            &self.window,
            &self.reference_count,
            &mut self.location,
            &self.index_starts,
            &self.index_ends,
            &self.labels,
            &self.label_attributes,
            &self.label_count,
            &self.label_starts,
            &self.label_ends,
            &self.attributes,
            &self.attribute_count,
            &self.attribute_starts,
            &self.attribute_ends,
        )
    }
}
