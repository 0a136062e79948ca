// Sums in the order of a report, cut.
ghost use Rattle.std.specs.Prelude.{◌≡◌, ◌*◌, ◌≤◌, ◌<◌, IfOk, take};
ghost use Rattle.cost_rows.specs.KeySums.{total_of, sum_end};
ghost use Rattle.report_texts.specs.KeyReports.{rank_cmp, reaching, limited};
ghost use Rattle.report_texts.specs.Ranking.{ranked};
ghost use Rattle.cost_rows.specs.Plain.{plain_cell};
ghost use Rattle.cost_reports.specs.Rows.{given_sums, plain_row, plain_rows, shown_of, sum_of_row};

use crate::lent_sums::LentSums;
use crate::places::place_of_row;
use crate::rows::Row;
use cost_rows::CellRow;
use report_texts::Cut;
use std::alloc::{AllocError, Global};
use std::cmp::Reverse;

/// A sum as a row.
fn row_of<'a>(row: &CellRow<&'a [u8]>) -> Row<'a>
    ensures { plain_row result ≡ sum_of_row (plain_cell row.now) }
{
    Row {
        cost: Reverse(row.cost),
        place: place_of_row(row),
    }
}

/// Sums as rows, as they come.
fn rows_of<'a>(alloc: Global, sums: &[CellRow<&'a [u8]>]) -> Result<Vec<Row<'a>>, AllocError>
    ensures { IfOk result (λ rows. plain_rows rows.items ≡ given_sums sums.now) }
{
    let mut rows = Vec::with_capacity(alloc, sums.len())?;
    for sum in sums {
        rows.push(row_of(sum))?;
    }
    Ok(rows)
}

/// Sums by key as rows, in their order.
fn key_rows<'n>(alloc: Global, sums: &LentSums<'n>) -> Result<Vec<Row<'n>>, AllocError>
    ensures { IfOk result (λ rows. plain_rows rows.items ≡ sums.now.sums) }
{
    let mut rows = Vec::with_capacity(alloc, sums.len())?;
    for (place, cost) in sums.iter() {
        rows.push(Row {
            cost: Reverse(*cost),
            place: *place,
        })?;
    }
    Ok(rows)
}

/// The greatest cost first, and equal costs in the order of their parts.
fn rank(rows: &mut Vec<Row<'_>>)
    ensures { plain_rows rows.new.items ≡ ranked rank_cmp (plain_rows rows.old.items) }
{
    rows.sort_unstable();
}

/// Sums by key as rows, the greatest cost first, and equal costs in the order of their parts.
pub(crate) fn ranked_rows<'n>(
    alloc: Global,
    sums: &LentSums<'n>,
) -> Result<Vec<Row<'n>>, AllocError>
    ensures order { IfOk result (λ rows. plain_rows rows.items ≡ ranked rank_cmp sums.now.sums) }
    ensures total { IfOk result (λ rows. total_of (plain_rows rows.items) ≡ total_of sums.now.sums) }
{
    let mut rows = key_rows(alloc, sums)?;
    rank(&mut rows);
    Ok(rows)
}

/// How many rows it takes until they sum to a hundredth of what is needed.
fn count_reaching(rows: &[Row<'_>], need: u128) -> usize
    requires { total_of (plain_rows rows.now) < sum_end }
    ensures { plain_rows (take result rows.now) ≡ reaching need 0 (plain_rows rows.now) }
{
    let mut before = 0;
    for (k, row) in rows.iter().enumerate() {
        if before * 100 >= need {
            return k;
        }
        before += row.cost.0;
    }
    rows.len()
}

/// Keeps rows until they sum to a hundredth of what is needed.
fn keep_enough(rows: &mut Vec<Row<'_>>, need: u128)
    requires { total_of (plain_rows rows.old.items) < sum_end }
    ensures { plain_rows rows.new.items ≡ reaching need 0 (plain_rows rows.old.items) }
{
    let count = count_reaching(rows, need);
    rows.truncate(count);
}

/// Keeps at most so many rows.
fn keep_first(rows: &mut Vec<Row<'_>>, limit: Option<u64>)
    ensures { plain_rows rows.new.items ≡ limited limit (plain_rows rows.old.items) }
{
    if let Some(limit) = limit {
        rows.truncate(limit as usize);
    }
}

/// The rows of some sums that a report of so great a total shows.
pub(crate) fn shown_rows<'a>(
    alloc: Global,
    sums: &[CellRow<&'a [u8]>],
    total: u128,
    cut: Cut,
) -> Result<Vec<Row<'a>>, AllocError>
    requires small { total < sum_end }
    requires within { total_of (given_sums sums.now) ≤ total }
    ensures shown { IfOk result (λ rows. plain_rows rows.items ≡ shown_of cut total (given_sums sums.now)) }
    ensures within { IfOk result (λ rows. total_of (plain_rows rows.items) ≤ total) }
{
    let mut rows = rows_of(alloc, sums)?;
    rank(&mut rows);
    keep_enough(&mut rows, u128::from(cut.threshold) * total);
    keep_first(&mut rows, cut.limit);
    Ok(rows)
}

/// What rows sum to.
pub(crate) fn cost_of(rows: &[Row<'_>]) -> u128
    requires { total_of (plain_rows rows.now) < sum_end }
    ensures { result ≡ total_of (plain_rows rows.now) }
{
    let mut sum = 0;
    for row in rows {
        sum += row.cost.0;
    }
    sum
}
