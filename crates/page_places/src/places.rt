// Where a table and its indexes stand.
ghost use Rattle.std.specs.Prelude.{◌≤◌};

/// An index: its root page, and the places of its columns in a row, where place 0 is the rowid.
#[derive(Clone, Copy, Debug)]
pub struct IndexPlace<'a> {
    pub root: u32,
    pub columns: &'a [usize],
}

/// A table: its root page, and its indexes.
#[derive(Clone, Copy, Debug)]
pub struct Place<'a> {
    pub root: u32,
    pub indexes: &'a [IndexPlace<'a>],
}

/// A table of a store, and its indexes, of which none has more than two.
#[derive(Clone, Copy, Debug)]
pub struct StoreTable {
    pub root: u32,
    pub indexes: [IndexPlace<'static>; 2],
    pub count: usize,
    ghost within: { count ≤ 2 },
}
