// Costs without the zeros at their end (specs/Trimmed.antt).
ghost use Rattle.std.specs.Prelude.{◌≡◌};
ghost use Rattle.cost_rows.specs.Trimmed.{trimmed};

/// Costs without the zeros at their end: these take no room among the sums.
pub(crate) fn trimmed(costs: &[u64]) -> &[u64]
    ensures { result.now ≡ trimmed costs.now }
{
    let mut rest = costs;
    while let Some((last, front)) = rest.split_last() {
        if *last > 0 {
            return rest;
        }
        rest = front;
    }
    rest
}
