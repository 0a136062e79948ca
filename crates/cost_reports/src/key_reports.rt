// Reports by key.
ghost use Rattle.std.specs.Prelude.{◌≡◌, ℕ, ◌+◌, ◌≤◌, ◌<◌, List, IfOk};
ghost use Rattle.cost_rows.specs.KeySums.{total_of, sum_end};
ghost use Rattle.cost_rows.specs.Sums.{Spot};
ghost use Rattle.report_texts.specs.KeyReports.{report_of};
ghost use Rattle.cost_reports.specs.Enough.{AreEnough};
ghost use Rattle.cost_reports.specs.Rows.{given_sums, plain_rows};

use crate::ranks::{cost_of, shown_rows};
use crate::rows::Row;
use cost_rows::{CellRow, Key};
use report_texts::Cut;
use std::alloc::{AllocError, Global};
use std::marker::Model;

/// A report by key: rows, what is not shown of the total, and the total. The names of its rows are
/// those of the sums that it is of.
#[derive(Drop)]
pub struct Report<'a> {
    pub(crate) key: Key,
    pub(crate) rows: Vec<Row<'a>>,
    pub(crate) rest: u128,
    pub(crate) total: u128,
    ghost whole: { total_of (plain_rows rows.items) + rest ≡ total },
    ghost small: { total < sum_end },
}

impl<'a> Model for Report<'a> {
    ghost use Rattle.report_texts.specs.KeyReports.{ReportByKey};
    ghost use Rattle.cost_reports.specs.Rows.{plain_rows};

    ghost Value = { ReportByKey };

    ghost view = { λ r. record { key = r.key; rows = plain_rows r.rows.items; rest = r.rest; total = r.total } };
}

impl<'a> Report<'a> {
    /// What it is by.
    pub fn key(&self) -> Key
        ensures { result ≡ self.now.key }
    {
        self.key
    }

    /// The rows that are shown, the greatest cost first.
    pub fn rows(&self) -> &[Row<'a>]
        ensures { plain_rows result.now ≡ self.now.rows }
    {
        &self.rows
    }

    /// What the rows that are not shown cost.
    pub fn rest(&self) -> u128
        ensures { result ≡ self.now.rest }
    {
        self.rest
    }

    /// What all rows cost, those that are not shown included.
    pub fn total(&self) -> u128
        ensures value { result ≡ self.now.total }
        ensures small { result < sum_end }
    {
        self.total
    }
}

/// The report of sums that add up to `total`, of which `sums` are enough for the cut: each part of a
/// place once, in any order. Memory is the only refusal.
pub fn by<'a>(
    alloc: Global,
    key: Key,
    sums: &[CellRow<&'a [u8]>],
    total: u128,
    cut: Cut,
) -> Result<Report<'a>, AllocError>
    requires small { total < sum_end }
    requires within { total_of (given_sums sums.now) ≤ total }
    ensures { IfOk result (λ report. (all : List (Spot × ℕ)) → total_of all ≡ total → AreEnough (λ e. e.1) cut all (given_sums sums.now)
        → report ≡ report_of key cut all) }
{
    let rows = shown_rows(alloc, sums, total, cut)?;
    let rest = total - cost_of(&rows);
    Ok(Report {
        key,
        rows,
        rest,
        total,
    })
}
