// What sums belong to, with names by number.

/// A place in the source: an object, a file and a function by their numbers, and the line. Calls are
/// made at places.
#[derive(Clone, Copy, PartialEq, Eq, PartialOrd, Ord)]
pub struct Place {
    pub object: u32,
    pub file: u32,
    pub function: u32,
    pub line: u64,
}

/// Where self costs belong: the key of a cell, and a type of its own, apart from where calls are made.
#[derive(Clone, Copy, PartialEq, Eq, PartialOrd, Ord)]
pub struct CellPlace {
    pub place: Place,
    pub thread: u64,
}

/// Calls from a place to a function.
#[derive(Clone, Copy, PartialEq, Eq, PartialOrd, Ord)]
pub struct Call {
    pub place: Place,
    pub object: u32,
    pub file: u32,
    pub function: u32,
}
