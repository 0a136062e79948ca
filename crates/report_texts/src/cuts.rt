// How much of a report is shown.

/// How many rows are shown: the fewest that sum to `threshold` percent of the total, and of them at
/// most `limit`. Above 100 percent all are.
#[derive(Clone, Copy, Debug, PartialEq, Eq)]
pub struct Cut {
    pub limit: Option<u64>,
    pub threshold: u8,
}
