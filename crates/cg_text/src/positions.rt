// What a subposition can be.

/// A subposition of a cost line: a number, or how far it lies from the one on the line before.
#[derive(Clone, Copy, Debug, PartialEq, Eq)]
pub enum SubPos {
    /// A number.
    Abs(u64),
    /// `+` number.
    Plus(u64),
    /// `-` number.
    Minus(u64),
    /// `*`.
    Same,
}
