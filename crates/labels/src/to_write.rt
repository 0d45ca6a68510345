// The label half as a call gets it that takes and lowers, and an opening.
ghost use Rattle.std.specs.Prelude.{◌≡◌};
ghost use Rattle.labels.specs.Lent.{lists_lent, lists_writing};

use crate::tables::LabelTables;

#[derive(Drop)]
pub struct LabelWriting<'a> {
    pub labels: &'a mut [u8],
    pub label_attributes: &'a mut [u16],
    pub label_count: &'a mut [u16],
    pub label_starts: &'a mut [u16],
    pub label_ends: &'a mut [u16],
    pub attributes: &'a mut [u8],
    pub attribute_count: &'a mut [u32],
    pub attribute_starts: &'a mut [u16],
    pub attribute_ends: &'a mut [u16],
}

impl<'a> LabelWriting<'a> {
    pub fn read(&self) -> LabelTables<'_>
        ensures { lists_lent result ≡ lists_writing self.now }
    {
        LabelTables {
            labels: self.labels,
            label_attributes: self.label_attributes,
            label_count: self.label_count,
            label_starts: self.label_starts,
            label_ends: self.label_ends,
            attributes: self.attributes,
            attribute_count: self.attribute_count,
            attribute_starts: self.attribute_starts,
            attribute_ends: self.attribute_ends,
        }
    }
}
