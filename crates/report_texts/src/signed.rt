// Whole numbers with a sign.

/// A whole number by its size, and whether it is below 0.
#[derive(Clone, Copy, PartialEq, Eq)]
pub struct Signed {
    pub size: u128,
    pub below: bool,
}
