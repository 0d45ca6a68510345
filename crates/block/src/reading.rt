// The calls that read a store.
use crate::Block;
use page::page;
use store_counts::{count, free_start, live_number};
use store_definitions::Item;
use store_readings::{
    attribute, attribute_vec, is_equal, label, missing_indices, next_indices, shingled_point,
};
use store_rows::copy;
use store_sum_items::point_sum;
use terms::{FloatBits, LabelIndex, PointIndex, Refusal};

impl Block {
    pub fn copy(&self, index: PointIndex, out: &mut [FloatBits]) -> Result<(), Refusal> {
        copy(
            self.store,
            &self.floats,
            &self.window,
            self.tables(),
            index,
            out,
        )
    }

    pub fn count(&self, index: PointIndex) -> Result<usize, Refusal> {
        count(self.store, &self.floats, &self.window, self.tables(), index)
    }

    pub fn live_number(&self) -> Result<usize, Refusal> {
        live_number(self.store, &self.floats, &self.window, self.tables())
    }

    pub fn free_start(&self) -> Result<usize, Refusal> {
        free_start(self.store, &self.floats, &self.window, self.tables())
    }

    pub fn is_equal(&self, index: PointIndex, point: &[FloatBits]) -> Result<bool, Refusal> {
        is_equal(
            self.store,
            &self.floats,
            &self.window,
            self.tables(),
            index,
            point,
        )
    }

    pub fn point_sum(&self, items: &[Item], out: &mut [f32]) -> Result<(), Refusal> {
        point_sum(
            self.store,
            &self.floats,
            &self.window,
            self.tables(),
            items,
            out,
        )
    }

    pub fn shingled_point(
        &self,
        point: &[FloatBits],
        out: &mut [FloatBits],
    ) -> Result<(), Refusal> {
        shingled_point(
            self.store,
            &self.floats,
            &self.window,
            self.tables(),
            point,
            out,
        )
    }

    pub fn missing_indices(
        &self,
        look_ahead: usize,
        values: &[usize],
        out: &mut [usize],
    ) -> Result<(), Refusal> {
        missing_indices(
            self.store,
            &self.floats,
            &self.window,
            self.tables(),
            look_ahead,
            values,
            out,
        )
    }

    pub fn next_indices(&self, look_ahead: usize, out: &mut [usize]) -> Result<(), Refusal> {
        next_indices(
            self.store,
            &self.floats,
            &self.window,
            self.tables(),
            look_ahead,
            out,
        )
    }

    pub fn label(&self, index: LabelIndex) -> Result<usize, Refusal> {
        label(self.store, &self.floats, &self.window, self.tables(), index)
    }

    pub fn attribute(&self, index: LabelIndex) -> Result<usize, Refusal> {
        attribute(self.store, &self.floats, &self.window, self.tables(), index)
    }

    pub fn attribute_vec(&self, index: LabelIndex, out: &mut [f32]) -> Result<(), Refusal> {
        attribute_vec(
            self.store,
            &self.floats,
            &self.window,
            self.tables(),
            index,
            out,
        )
    }

    pub fn page(&self, text: &mut [u8]) -> Result<usize, Refusal> {
        page(self.store, &self.floats, &self.window, self.tables(), text)
    }
}
