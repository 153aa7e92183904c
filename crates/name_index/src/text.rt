// A read text.
ghost use Rattle.name_index.specs.Table.{IndexedTable};

// The rows of a read text, behind which lies the index of its objects' names, and the bytes of its names and strings.
#[derive(Clone, Copy)]
pub struct IndexedText<'a> {
    pub table: &'a [u8],
    pub strings: &'a [u8],
    pub ghost indexed: { ∥ IndexedTable table.now strings.now ∥₁ },
}
