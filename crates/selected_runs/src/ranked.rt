// Sums by number, the greatest cost first: all, or those that a cut can show.
ghost use Rattle.std.specs.Prelude.{◌≡◌, ◌≤◌, ◌<◌, [], ◌∷◌, ◌++◌, length, map, IfOk, OnOk, MatchResult, IsPermutation};
ghost use Rattle.std.specs.List.{AllByRecursion};
ghost use Rattle.cost_reports.specs.Enough.{AreEnough};
ghost use Rattle.cost_reports.specs.Rows.{sum_of_row};
ghost use Rattle.cost_rows.specs.Plain.{plain_cell};
ghost use Rattle.cost_rows.specs.KeySums.{sum_end};
ghost use Rattle.plain_tables.specs.declared.errors.StoreError.TheVariants.{Store};
ghost use Rattle.run_stores.specs.Book.{IsHeld};
ghost use Rattle.selected_runs.specs.Named.{named_sum};
ghost use Rattle.selected_runs.specs.Ranked.{sums_of, CostsFall, IsApart, Reached};
ghost use Rattle.selected_runs.specs.Sums.{numbers_told, numbers_total};

use crate::naming::named_row;
use crate::numbers::push_told;
use crate::parts::PartSum;
use crate::sums::NumberSums;
use cost_rows::{CellRow, Key};
use report_texts::Cut;
use run_stores::{NameTable, StoreError};
use std::alloc::{AllocError, Global};
use std::marker::Model;

/// The greatest cost first.
fn rank(rows: &mut Vec<PartSum>)
    ensures order { CostsFall (sums_of rows.new.items) }
    ensures same { IsPermutation (sums_of rows.new.items) (sums_of rows.old.items) }
{
    rows.sort_unstable();
}

/// How many rows it takes until there are as many as a limit, or they sum to a hundredth of what is needed.
fn count_reaching(rows: &[PartSum], need: u128, limit: Option<u64>) -> usize
    requires { numbers_total (sums_of rows.now) < sum_end }
    ensures { Reached need limit (sums_of rows.now) result }
{
    let mut before = 0;
    for (k, row) in rows.iter().enumerate() {
        if before * 100 >= need || limit == Some(k as u64) {
            return k;
        }
        before += row.cost.0;
    }
    rows.len()
}

/// How many rows there are up to the last that costs as much as the last of these.
fn count_tied(rows: &[PartSum], count: usize) -> usize
    requires { count ≤ length rows.now }
    ensures least { count ≤ result }
    ensures within { result ≤ length rows.now }
    ensures apart { IsApart (sums_of rows.now) result }
{
    let mut end = count;
    while 0 < end && end < rows.len() && rows[end].cost == rows[end - 1].cost {
        end += 1;
    }
    end
}

/// One cell more.
fn push_cell<'n>(
    cells: &mut Vec<CellRow<&'n [u8]>>,
    cell: CellRow<&'n [u8]>,
) -> Result<(), AllocError>
    ensures { OnOk result (cells.new.items ≡ cells.old.items ++ cell.entry ∷ []) }
{
    cells.push(cell)?;
    Ok(())
}

/// Adds rows as cells, with their names, where there are none.
fn push_cells<'n, N: NameTable>(
    names: &'n N,
    key: Key,
    rows: &[PartSum],
    cells: &mut Vec<CellRow<&'n [u8]>>,
) -> Result<(), StoreError>
    requires { cells.old.items ≡ [] }
    ensures sums { OnOk result (map (λ r. sum_of_row (plain_cell r)) cells.new.items
        ≡ map (named_sum (N.name_rows names.now) key) (sums_of rows.now)) }
    ensures held { MatchResult result (λ _. AllByRecursion (IsHeld (N.name_rows names.now)) (numbers_told key (sums_of rows.now)))
        (λ error. error ≡ Store → ¬ (AllByRecursion (IsHeld (N.name_rows names.now)) (numbers_told key (sums_of rows.now)))) }
{
    for row in rows {
        let cell = named_row(names, key, &row.part, row.cost.0)?;
        push_cell(cells, cell)?;
    }
    Ok(())
}

/// Rows as cells, with their names.
fn cells_of<'n, N: NameTable>(
    alloc: Global,
    names: &'n N,
    key: Key,
    rows: &[PartSum],
) -> Result<Vec<CellRow<&'n [u8]>>, StoreError>
    ensures sums { IfOk result (λ cells. map (λ r. sum_of_row (plain_cell r)) cells.items
        ≡ map (named_sum (N.name_rows names.now) key) (sums_of rows.now)) }
    ensures held { MatchResult result (λ _. AllByRecursion (IsHeld (N.name_rows names.now)) (numbers_told key (sums_of rows.now)))
        (λ error. error ≡ Store → ¬ (AllByRecursion (IsHeld (N.name_rows names.now)) (numbers_told key (sums_of rows.now)))) }
{
    let mut cells = Vec::with_capacity(alloc, rows.len())?;
    match push_cells(names, key, rows, &mut cells) {
        Ok(()) => Ok(cells),
        Err(error) => {
            // What is dropped at each way out is slow to prove.
            drop(cells);
            Err(error)
        }
    }
}

/// The numbers that rows tell.
fn numbers_of(alloc: Global, key: Key, rows: &[PartSum]) -> Result<Vec<u32>, AllocError>
    ensures { IfOk result (λ numbers. numbers.items ≡ numbers_told key (sums_of rows.now)) }
{
    let mut numbers = Vec::new(alloc);
    for row in rows {
        push_told(&mut numbers, key, &row.part)?;
    }
    Ok(numbers)
}

/// Sums by number, the greatest cost first: contracts see what rows were added up by, the sums, and the total of
/// all sums, also of those that were dropped.
#[derive(Drop)]
pub struct RankedSums {
    key: Key,
    rows: Vec<PartSum>,
    total: u128,
    ghost falling: { CostsFall (sums_of rows.items) },
    ghost within: { numbers_total (sums_of rows.items) ≤ total },
    ghost small: { total < sum_end },
}

impl Model for RankedSums {
    ghost use Rattle.selected_runs.specs.Ranked.{SumsByCost, sums_of};

    ghost Value = { SumsByCost };

    ghost view = { λ a. record { key = a.key; sums = sums_of a.rows.items; total = a.total } };
}

impl NumberSums {
    /// The sums, the greatest cost first. Takes no memory.
    pub fn ranked(self) -> RankedSums
        ensures key { result.key ≡ self.key }
        ensures total { result.total ≡ numbers_total self.sums }
        ensures sums { IsPermutation result.sums self.sums }
    {
        let NumberSums { key, sums, total } = self;
        let mut rows = sums.into_slots();
        rank(&mut rows);
        RankedSums { key, rows, total }
    }
}

impl RankedSums {
    /// What rows were added up by.
    pub fn key(&self) -> Key
        ensures { result ≡ self.now.key }
    {
        self.key
    }

    /// The sum of all costs that were added, also of sums that were dropped.
    pub fn total(&self) -> u128
        ensures value { result ≡ self.now.total }
        ensures within { numbers_total self.now.sums ≤ result }
        ensures small { result < sum_end }
    {
        self.total
    }

    /// How many sums there are.
    pub fn len(&self) -> usize
        ensures { result ≡ length self.now.sums }
    {
        self.rows.len()
    }

    /// Drops the sums that a cut cannot show, whatever their names. Sums that cost the same are kept or dropped
    /// together, as a report has these in the order of their names. Takes no memory.
    pub fn keep_shown(&mut self, cut: Cut)
        ensures key { self.new.key ≡ self.old.key }
        ensures total { self.new.total ≡ self.old.total }
        ensures enough { numbers_total self.old.sums ≡ self.old.total → AreEnough (λ e. e.1) cut self.old.sums self.new.sums }
    {
        let need = u128::from(cut.threshold) * self.total;
        let count = count_reaching(&self.rows, need, cut.limit);
        let count = count_tied(&self.rows, count);
        self.rows.truncate(count);
    }

    /// The numbers of the names that the key tells, of each sum, one after another: a number may come more than
    /// once. Memory is the only refusal.
    pub fn numbers(&self, alloc: Global) -> Result<Vec<u32>, AllocError>
        ensures { IfOk result (λ numbers. numbers.items ≡ numbers_told self.now.key self.now.sums) }
    {
        numbers_of(alloc, self.key, &self.rows)
    }

    /// Each sum as a row of event 0, in their order, with what the key tells of its part; other names are `???`.
    /// Errors: `Memory`; and `Store` where a name is not held.
    pub fn named<'n, N: NameTable>(
        &self,
        alloc: Global,
        names: &'n N,
    ) -> Result<Vec<CellRow<&'n [u8]>>, StoreError>
        ensures sums { IfOk result (λ cells. map (λ r. sum_of_row (plain_cell r)) cells.items
            ≡ map (named_sum (N.name_rows names.now) self.now.key) self.now.sums) }
        ensures held { MatchResult result (λ _. AllByRecursion (IsHeld (N.name_rows names.now)) (numbers_told self.now.key self.now.sums))
            (λ error. error ≡ Store → ¬ (AllByRecursion (IsHeld (N.name_rows names.now)) (numbers_told self.now.key self.now.sums))) }
    {
        cells_of(alloc, names, self.key, &self.rows)
    }
}
