// The two sides of a difference.

/// One of the two sides of a difference.
#[derive(Clone, Copy)]
pub enum Side {
    First,
    Second,
}
