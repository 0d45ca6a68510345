// Opening, with document 01's table of classes or another.
use crate::Block;
use class_table::reason_classes_text;
use labels::LabelWriting;
use store_definitions::{PointTables, Shape};
use store_rows::open;
use terms::Refusal;

impl Block {
    pub fn open(shape: Shape) -> Result<Block, Refusal> {
        Block::open_with_classes(shape, &reason_classes_text())
    }

    pub fn open_with_classes(shape: Shape, class_text: &[u8]) -> Result<Block, Refusal> {
        let mut floats = [0; 512];
        let mut window = [0; 32];
        let mut reference_count = [0; 16];
        let mut location = [0; 16];
        let mut index_starts = [0; 16];
        let mut index_ends = [0; 16];
        let mut labels = [0; 16];
        let mut label_attributes = [0; 16];
        let mut label_count = [0; 16];
        let mut label_starts = [0; 16];
        let mut label_ends = [0; 16];
        let mut attributes = [0; 16];
        let mut attribute_count = [0; 16];
        let mut attribute_starts = [0; 16];
        let mut attribute_ends = [0; 16];
        let mut points = PointTables {
            reference_count: &mut reference_count,
            location: &mut location,
            index_starts: &mut index_starts,
            index_ends: &mut index_ends,
        };
        let mut label_tables = LabelWriting {
            labels: &mut labels,
            label_attributes: &mut label_attributes,
            label_count: &mut label_count,
            label_starts: &mut label_starts,
            label_ends: &mut label_ends,
            attributes: &mut attributes,
            attribute_count: &mut attribute_count,
            attribute_starts: &mut attribute_starts,
            attribute_ends: &mut attribute_ends,
        };
        let store = open(
            shape,
            &mut floats,
            &mut window,
            &mut points,
            &mut label_tables,
            class_text,
        )?;
        Ok(Block {
            store,
            floats,
            window,
            reference_count,
            location,
            index_starts,
            index_ends,
            labels,
            label_attributes,
            label_count,
            label_starts,
            label_ends,
            attributes,
            attribute_count,
            attribute_starts,
            attribute_ends,
        })
    }
}
