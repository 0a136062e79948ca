// What rows of calls and stacks cost in the event that is asked, within the bound of sums.
ghost use Rattle.std.specs.Prelude.{◌≡◌, ◌+◌, ◌*◌, ◌<◌, IfSome, slice_index};
ghost use Rattle.cost_rows.specs.KeySums.{sum_end};
ghost use Rattle.cg_formulas.specs.Formulas.{weighed};

use selected_runs::cost_within;

/// The cost of a column: past the last one there is none.
fn cost_of(costs: &[u128], column: usize) -> u128
    ensures { result ≡ slice_index costs.now column }
{
    costs.get(column).copied().unwrap_or(0)
}

/// What the costs of columns sum to, each as often as it counts, where that stays within the bound.
pub(crate) fn weighed_within(counts: &[u64], costs: &[u128]) -> Option<u128>
    ensures { IfSome result (λ n. (n ≡ weighed counts.now costs.now) × (n < sum_end)) }
{
    let mut sum: u128 = 0;
    for column in 0..counts.len() {
        let cost = cost_within(sum, counts[column], cost_of(costs, column))?;
        sum += cost;
    }
    Some(sum)
}

/// The most that a stack can count, where it counts once for each of its functions: they are at most as
/// many as its frames have bytes, and one more.
pub(crate) fn most_of(bytes: usize, count: u128) -> Option<u128>
    ensures { IfSome result (λ most. most ≡ (bytes + 1) * count) }
{
    (bytes as u128 + 1).checked_mul(count)
}
