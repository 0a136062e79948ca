// Coefficients, one for each event.
ghost use Rattle.std.specs.Prelude.{◌≡◌, ℕ, ◌+◌, ◌*◌, ◌<◌, ◌≤◌, ◌^◌, All, length, slice_index, sum};
ghost use Rattle.cg_formulas.specs.Formulas.{weighed};
ghost use Rattle.cg_formulas.specs.Rows.{capped};

/// Adds a number of times some coefficients, up to the greatest number that there is.
pub(crate) fn add_times(row: &mut [u64], number: u64, counts: &[u64])
    requires { length counts.now ≡ length row.old }
    ensures wide { length row.new ≡ length row.old }
    ensures sums { (k : ℕ) → k < length row.old → slice_index row.new k ≡ capped (slice_index row.old k + number * slice_index counts.now k) }
{
    for k in 0..row.len() {
        row[k] = row[k].saturating_add(number.saturating_mul(counts[k]));
    }
}

/// The sum of coefficients, up to the greatest number that there is.
pub(crate) fn total(row: &[u64]) -> u64
    ensures { result ≡ capped (sum row.now) }
{
    let mut total: u64 = 0;
    for n in row {
        total = total.saturating_add(*n);
    }
    total
}

/// The costs, each as often as it counts.
pub(crate) fn weighed(counts: &[u64], costs: &[u64]) -> u128
    requires one_each { length counts.now ≡ length costs.now }
    requires few { sum counts.now ≤ 1000000 }
    requires small { All (λ c. c < 2 ^ 63) costs.now }
    ensures { result ≡ weighed counts.now costs.now }
{
    let mut total: u128 = 0;
    for k in 0..costs.len() {
        total += u128::from(counts[k]) * u128::from(costs[k]);
    }
    total
}
