// What rows cost in the event that is asked. Tables that another program filled may say anything, so each
// sum is compared with its bound.
ghost use Rattle.std.specs.Prelude.{◌≡◌, ◌+◌, ◌*◌, ◌<◌, ◌≤◌, false, None, IfSome, IsTrue, slice_index};
ghost use Rattle.cost_rows.specs.Plain.{plain_cell};
ghost use Rattle.cost_rows.specs.KeySums.{sum_end};
ghost use Rattle.report_texts.specs.Costs.{weighted};

use cost_rows::{CellRow, SUM_END};

/// Whether what is there and more of it stay within the bound.
pub fn is_within(before: u128, more: u128) -> bool
    ensures within { IsTrue result → before + more < sum_end }
    ensures past { result ≡ false → sum_end ≤ before + more }
{
    match before.checked_add(more) {
        Some(total) => total < SUM_END,
        None => false,
    }
}

/// What a row costs that counts so often, where that and the costs before it stay within the bound.
pub fn cost_within(before: u128, times: u64, cost: u128) -> Option<u128>
    ensures within { IfSome result (λ n. (n ≡ times * cost) × (before + n < sum_end)) }
    ensures past { result ≡ None → sum_end ≤ before + times * cost }
{
    let cost = u128::from(times).checked_mul(cost)?;
    let total = before.checked_add(cost)?;
    if total < SUM_END { Some(cost) } else { None }
}

/// How often a column counts: past the last one it does not.
pub fn times_of(counts: &[u64], column: usize) -> u64
    ensures { result ≡ slice_index counts.now column }
{
    counts.get(column).copied().unwrap_or(0)
}

/// A row as it counts in the event, its cost as often as its column counts, where that and the costs before it
/// stay within the bound.
pub fn weighted_within<'a>(
    before: u128,
    counts: &[u64],
    row: &CellRow<&'a [u8]>,
) -> Option<CellRow<&'a [u8]>>
    ensures row { IfSome result (λ cell. plain_cell cell ≡ weighted counts.now (plain_cell row.now)) }
    ensures within { IfSome result (λ cell. before + cell.cost < sum_end) }
    ensures past { result ≡ None → sum_end ≤ before + (weighted counts.now (plain_cell row.now)).cost }
{
    let cost = cost_within(before, times_of(counts, row.event), row.cost)?;
    Some(CellRow {
        object: row.object,
        file: row.file,
        function: row.function,
        line: row.line,
        thread: row.thread,
        event: 0,
        cost,
    })
}
