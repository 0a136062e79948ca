// Reports by key, and differences.
ghost use Rattle.std.specs.Prelude.{◌≡◌, ◌+◌, ◌∷◌, ◌<◌, [], fold, OnOk, IfOk};
ghost use Rattle.cost_rows.specs.KeySums.{sums_by, total_of, with_row, sum_end};
ghost use Rattle.cost_rows.specs.Plain.{plain_cell};
ghost use Rattle.cost_rows.specs.Keys.{lent_place};
ghost use Rattle.report_texts.specs.Differences.{difference_of};
ghost use Rattle.report_texts.specs.KeyReports.{report_of};
ghost use Rattle.cost_reports.specs.Rows.{given_sums};
ghost use Rattle.prof_library.specs.Given.{cost_of, plain_cells};

use cost_reports::{Cut, Difference, LentPlace, LentSums, Report};
use cost_rows::{CellRow, Key};
use std::alloc::{AllocError, Global};

/// Adds rows to sums.
pub(crate) fn add_cells<'n>(
    sums: &mut LentSums<'n>,
    rows: &[CellRow<&'n [u8]>],
) -> Result<(), AllocError>
    requires small { total_of sums.old.sums + cost_of (plain_cells rows.now) < sum_end }
    ensures sums { OnOk result (sums.new ≡ fold with_row sums.old (plain_cells rows.now)) }
    ensures total { OnOk result (total_of sums.new.sums ≡ total_of sums.old.sums + cost_of (plain_cells rows.now)) }
{
    for row in rows {
        sums.add(row)?;
    }
    Ok(())
}

/// The sums of rows by a key.
fn sums_of<'n>(
    alloc: Global,
    key: Key,
    rows: &[CellRow<&'n [u8]>],
) -> Result<LentSums<'n>, AllocError>
    requires small { cost_of (plain_cells rows.now) < sum_end }
    ensures key { IfOk result (λ sums. sums.key ≡ key) }
    ensures sums { IfOk result (λ sums. sums.sums ≡ sums_by key (plain_cells rows.now)) }
{
    let mut sums = LentSums::new(alloc, key);
    add_cells(&mut sums, rows)?;
    Ok(sums)
}

/// A sum as a row of event 0.
fn row_of<'n>(place: &LentPlace<'n>, cost: u128) -> CellRow<&'n [u8]>
    ensures { given_sums (result ∷ []) ≡ (lent_place place.now, cost) ∷ [] }
{
    CellRow {
        object: place.object,
        file: place.file,
        function: place.function,
        line: place.line,
        thread: place.thread,
        event: 0,
        cost,
    }
}

/// Sums as rows, in their order.
fn rows_of<'n>(alloc: Global, sums: &LentSums<'n>) -> Result<Vec<CellRow<&'n [u8]>>, AllocError>
    ensures { IfOk result (λ rows. given_sums rows.items ≡ sums.now.sums) }
{
    let mut rows = Vec::with_capacity(alloc, sums.len())?;
    for (place, cost) in sums.iter() {
        rows.push(row_of(place, *cost))?;
    }
    Ok(rows)
}

/// The report of rows by a key.
pub fn by<'n>(
    alloc: Global,
    key: Key,
    rows: &[CellRow<&'n [u8]>],
    cut: Cut,
) -> Result<Report<'n>, AllocError>
    requires small { cost_of (plain_cells rows.now) < sum_end }
    ensures { IfOk result (λ report. report ≡ report_of key cut (sums_by key (plain_cells rows.now))) }
{
    let sums = sums_of(alloc, key, rows)?;
    let parts = rows_of(alloc, &sums)?;
    cost_reports::by(alloc, key, &parts, sums.total(), cut)
}

/// What the first rows cost less what the second do, by a key.
pub fn subtract<'n>(
    alloc: Global,
    key: Key,
    first: &[CellRow<&'n [u8]>],
    second: &[CellRow<&'n [u8]>],
) -> Result<Difference<'n>, AllocError>
    requires first { cost_of (plain_cells first.now) < sum_end }
    requires second { cost_of (plain_cells second.now) < sum_end }
    ensures { IfOk result (λ difference. difference ≡ difference_of key (sums_by key (plain_cells first.now)) (sums_by key (plain_cells second.now))) }
{
    let first = sums_of(alloc, key, first)?;
    let second = sums_of(alloc, key, second)?;
    cost_reports::subtract(alloc, &first, &second)
}
