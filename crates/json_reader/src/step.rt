// How far a reading came.
ghost use Rattle.std.specs.Prelude.{◌≡◌};
ghost use Rattle.json_reader.specs.Inner.{cursor};

// Where a reading stands: the offset, the rows and bytes of strings so far, and how many items or members there were.
#[derive(Clone, Copy)]
pub struct Cursor {
    pub at: usize,
    pub row: usize,
    pub used: usize,
    pub count: usize,
}

// Where no items or members are counted.
pub fn place(at: usize, row: usize, used: usize) -> Cursor
    ensures { result ≡ cursor at row used 0 }
{
    Cursor {
        at,
        row,
        used,
        count: 0,
    }
}
