// What handles refer to.

// The strings of the rule, the strings and the table of the record, and the cells of the heap.
#[derive(Clone, Copy)]
pub struct Areas<'a> {
    pub rule_strings: &'a [u8],
    pub record_strings: &'a [u8],
    pub record_table: &'a [u8],
    pub cells: &'a [u8],
}
