// The nine slices that a caller lends for the label half, as the check reads them. A call that writes gets one of the forms beside this file:
// `to_take`, `to_raise`, `to_lower`, `to_write`.
// Kept: the C interface lends a call as `&mut` what it writes and not all else, and there is no parameter for `&` or `&mut`.
#[derive(Clone, Copy)]
pub struct LabelTables<'a> {
    pub labels: &'a [u8],
    pub label_attributes: &'a [u16],
    pub label_count: &'a [u16],
    pub label_starts: &'a [u16],
    pub label_ends: &'a [u16],
    pub attributes: &'a [u8],
    pub attribute_count: &'a [u32],
    pub attribute_starts: &'a [u16],
    pub attribute_ends: &'a [u16],
}
