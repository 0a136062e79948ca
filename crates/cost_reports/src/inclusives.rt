// What functions cost with all that they call.
ghost use Rattle.std.specs.Prelude.{◌≡◌, ◌+◌, ◌*◌, ◌<◌, [], fold, length, OnOk, IfOk};
ghost use Rattle.cost_rows.specs.KeySums.{total_of, with_row, rows_of, sum_end};
ghost use Rattle.cost_rows.specs.Plain.{plain_stack};
ghost use Rattle.cost_rows.specs.declared.keys.Key.TheVariants.{Function};
ghost use Rattle.report_texts.specs.Inclusive.{inclusive_report, names_in, names_costs, with_stack};
ghost use Rattle.report_texts.specs.Pairs.{AreBelow};
ghost use Rattle.cost_reports.specs.Rows.{plain_rows};

use crate::frames::functions_in;
use crate::lent_sums::LentSums;
use crate::ranks::ranked_rows;
use crate::rows::Row;
use cg_text::UNKNOWN;
use cost_rows::{CellRow, Key, Merged, StackRow};
use std::alloc::{AllocError, Global};
use std::collections::BTreeSet;
use std::marker::Model;

/// What functions cost in stacks, with all that they call: contracts see a cost above 0 for each function, in order,
/// and what all cost by themselves. The names of the functions are held, each once.
#[derive(Drop)]
pub struct FrameSums {
    alloc: Global,
    merged: Merged,
    total: u128,
    ghost by_function: { merged.key ≡ Function },
    ghost small: { total < sum_end },
}

impl Model for FrameSums {
    ghost use Rattle.report_texts.specs.Inclusive.{InclusiveCosts};

    ghost Value = { InclusiveCosts };

    ghost view = { λ a. record { sums = a.merged.sums; total = a.total } };
}

/// Adds a count at each of some functions, which are of no known object.
fn add_functions(
    merged: &mut Merged,
    functions: &BTreeSet<&[u8]>,
    count: u128,
) -> Result<(), AllocError>
    requires small { total_of merged.old.sums + total_of (names_costs count (names_in functions.now.keys)) < sum_end }
    ensures sums { OnOk result (merged.new ≡ fold with_row merged.old (rows_of (names_costs count (names_in functions.now.keys)))) }
    ensures key { merged.new.key ≡ merged.old.key }
{
    for function in functions.iter() {
        merged.add(&CellRow {
            object: UNKNOWN,
            file: UNKNOWN,
            function: *function,
            line: 0,
            thread: 0,
            event: 0,
            cost: count,
        })?;
    }
    Ok(())
}

/// Adds the sums of others to those of some rows.
fn add_sums<'n>(sums: &mut LentSums<'n>, others: &'n Merged) -> Result<(), AllocError>
    requires small { total_of sums.old.sums + total_of others.now.sums < sum_end }
    ensures sums { OnOk result (sums.new ≡ fold with_row sums.old (rows_of others.now.sums)) }
    ensures key { sums.new.key ≡ sums.old.key }
{
    for row in others.rows() {
        sums.add(&row)?;
    }
    Ok(())
}

impl FrameSums {
    /// No row was added. Takes no memory.
    pub fn new(alloc: Global) -> FrameSums
        ensures sums { result.sums ≡ [] }
        ensures total { result.total ≡ 0 }
    {
        FrameSums {
            alloc,
            merged: Merged::new(alloc, Key::Function),
            total: 0,
        }
    }

    /// What all functions cost by themselves.
    pub fn total(&self) -> u128
        ensures value { result ≡ self.now.total }
        ensures small { result < sum_end }
    {
        self.total
    }

    /// What is held of all functions: a cost counts once for each function that it is told of.
    pub fn sum(&self) -> u128
        ensures value { result ≡ total_of self.now.sums }
        ensures small { result < sum_end }
    {
        self.merged.total()
    }

    /// Adds a row of stacks of a folded run: its count once for each function that has a frame in it.
    /// They are at most as many as the frames have bytes, and one more: so much room is asked for.
    pub fn add_stack(&mut self, row: &StackRow<&[u8]>) -> Result<(), AllocError>
        requires sum { total_of self.old.sums + (length row.now.stack.now + 1) * row.now.count < sum_end }
        requires total { self.old.total + row.now.count < sum_end }
        ensures { OnOk result (self.new ≡ with_stack self.old (plain_stack row.now)) }
    {
        let functions = functions_in(self.alloc, row.stack)?;
        let added = add_functions(&mut self.merged, &functions, row.count);
        drop(functions);
        added?;
        self.total += row.count;
        Ok(())
    }

    /// These sums with others, by function, of which so much is self cost.
    pub fn with_costs<'n>(
        &'n self,
        costs: LentSums<'n>,
        self_cost: u128,
    ) -> Result<InclusiveSums<'n>, AllocError>
        requires key { costs.key ≡ Function }
        requires small { AreBelow (total_of costs.sums + total_of self.now.sums) (self_cost + self.now.total) }
        ensures sums { IfOk result (λ all. all.sums ≡ (fold with_row costs.entry (rows_of self.now.sums)).sums) }
        ensures total { IfOk result (λ all. all.total ≡ self_cost + self.now.total) }
    {
        let mut sums = costs;
        add_sums(&mut sums, &self.merged)?;
        Ok(InclusiveSums {
            sums,
            total: self_cost + self.total,
        })
    }
}

/// What functions cost with all that they call, their names lent: contracts see what they see of `FrameSums`.
#[derive(Drop)]
pub struct InclusiveSums<'n> {
    sums: LentSums<'n>,
    total: u128,
    ghost by_function: { sums.key ≡ Function },
    ghost small: { total < sum_end },
}

impl<'n> Model for InclusiveSums<'n> {
    ghost use Rattle.report_texts.specs.Inclusive.{InclusiveCosts};

    ghost Value = { InclusiveCosts };

    ghost view = { λ a. record { sums = a.sums.sums; total = a.total } };
}

impl<'n> InclusiveSums<'n> {
    /// Of inclusive costs by function, and what all functions cost by themselves.
    pub fn new(sums: LentSums<'n>, total: u128) -> InclusiveSums<'n>
        requires key { sums.key ≡ Function }
        requires small { total < sum_end }
        ensures sums { result.sums ≡ sums.entry.sums }
        ensures total { result.total ≡ total }
    {
        InclusiveSums { sums, total }
    }
}

/// What functions cost with all that they call, the greatest cost first, and what all cost by
/// themselves. The names of its rows are those of the sums that it is of.
#[derive(Drop)]
pub struct InclusiveReport<'a> {
    pub(crate) rows: Vec<Row<'a>>,
    pub(crate) total: u128,
    ghost small_rows: { total_of (plain_rows rows.items) < sum_end },
    ghost small_total: { total < sum_end },
}

impl<'a> Model for InclusiveReport<'a> {
    ghost use Rattle.report_texts.specs.Inclusive.{RankedCosts};
    ghost use Rattle.cost_reports.specs.Rows.{plain_rows};

    ghost Value = { RankedCosts };

    ghost view = { λ r. record { rows = plain_rows r.rows.items; total = r.total } };
}

impl<'a> InclusiveReport<'a> {
    /// The functions with their inclusive costs, the greatest first.
    pub fn rows(&self) -> &[Row<'a>]
        ensures { plain_rows result.now ≡ self.now.rows }
    {
        &self.rows
    }

    /// What all functions cost by themselves.
    pub fn total(&self) -> u128
        ensures value { result ≡ self.now.total }
        ensures small { result < sum_end }
    {
        self.total
    }
}

/// The inclusive costs of functions. Memory is the only refusal.
pub fn inclusive<'n>(
    alloc: Global,
    sums: &InclusiveSums<'n>,
) -> Result<InclusiveReport<'n>, AllocError>
    ensures { IfOk result (λ report. report ≡ inclusive_report sums.now) }
{
    let rows = ranked_rows(alloc, &sums.sums)?;
    let _small = sums.sums.total();
    Ok(InclusiveReport {
        rows,
        total: sums.total,
    })
}
