// Two numbers side by side.

/// Two numbers: what calls cost and how many there were, or what is compared.
#[derive(Clone, Copy, PartialEq, Eq)]
pub struct Pair {
    pub first: u128,
    pub second: u128,
}
