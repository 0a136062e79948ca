// The kinds of runs.

/// What the file of a run was.
#[derive(Clone, Copy, Debug, PartialEq, Eq)]
pub enum Kind {
    Callgrind,
    Folded,
}
