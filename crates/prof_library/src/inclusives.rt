// What functions cost with all that they call.
ghost use Rattle.std.specs.Prelude.{◌≡◌, ◌+◌, ◌∷◌, [], ◌<◌, fold, OnOk, IfOk};
ghost use Rattle.cost_rows.specs.KeySums.{rows_of, total_of, with_row, sum_end};
ghost use Rattle.cost_rows.specs.declared.keys.Key.TheVariants.{Function};
ghost use Rattle.report_texts.specs.Calls.{calls_of_row};
ghost use Rattle.report_texts.specs.Functions.{function_spot, is_one_function};
ghost use Rattle.report_texts.specs.Inclusive.{inclusive_report, inclusive_rows, names_costs, names_in, outward_costs, row_costs, rows_count};
ghost use Rattle.report_texts.specs.Pairs.{AreBelow};
ghost use Rattle.cost_rows.specs.Plain.{plain_cell};
ghost use Rattle.prof_library.specs.Given.{calls_in, cost_of, plain_cells, plain_stacks};

use crate::keys::add_cells;
use cg_text::UNKNOWN;
use cost_reports::{InclusiveReport, InclusiveSums, LentSums, functions_in};
use cost_rows::{ArcRow, CellRow, Key, StackRow};
use std::alloc::{AllocError, Global};
use std::collections::BTreeSet;

/// A cost at a function.
fn cost_at<'n>(object: &'n [u8], function: &'n [u8], cost: u128) -> CellRow<&'n [u8]>
    ensures { plain_cell result ∷ [] ≡ rows_of ((function_spot object.now function.now, cost) ∷ []) }
{
    CellRow {
        object,
        file: UNKNOWN,
        function,
        line: 0,
        thread: 0,
        event: 0,
        cost,
    }
}

/// Whether a function calls itself.
fn is_recursive(row: &ArcRow<&[u8], u128>) -> bool
    ensures { result ≡ is_one_function (calls_of_row row.now).caller (calls_of_row row.now).callee }
{
    row.object == row.called_object && row.function == row.called_function
}

/// Adds what calls cost, if they are to another function.
fn add_arc<'n>(sums: &mut LentSums<'n>, row: &ArcRow<&'n [u8], u128>) -> Result<(), AllocError>
    requires small { total_of sums.old.sums + total_of (outward_costs (calls_of_row row.now ∷ [])) < sum_end }
    ensures sums { OnOk result (sums.new ≡ fold with_row sums.old (rows_of (outward_costs (calls_of_row row.now ∷ [])))) }
    ensures total { OnOk result (total_of sums.new.sums ≡ total_of sums.old.sums + total_of (outward_costs (calls_of_row row.now ∷ []))) }
{
    if is_recursive(row) {
        return Ok(());
    }
    sums.add(&cost_at(row.object, row.function, row.costs))
}

/// Adds what calls to other functions cost.
fn add_arcs<'n>(sums: &mut LentSums<'n>, rows: &[ArcRow<&'n [u8], u128>]) -> Result<(), AllocError>
    requires small { total_of sums.old.sums + total_of (outward_costs (calls_in rows.now)) < sum_end }
    ensures sums { OnOk result (sums.new ≡ fold with_row sums.old (rows_of (outward_costs (calls_in rows.now)))) }
    ensures total { OnOk result (total_of sums.new.sums ≡ total_of sums.old.sums + total_of (outward_costs (calls_in rows.now))) }
{
    for row in rows {
        add_arc(sums, row)?;
    }
    Ok(())
}

/// Adds a count at each of some functions, which are of no known object.
fn add_functions<'n>(
    sums: &mut LentSums<'n>,
    functions: &BTreeSet<&'n [u8]>,
    count: u128,
) -> Result<(), AllocError>
    requires small { total_of sums.old.sums + total_of (names_costs count (names_in functions.now.keys)) < sum_end }
    ensures sums { OnOk result (sums.new ≡ fold with_row sums.old (rows_of (names_costs count (names_in functions.now.keys)))) }
    ensures total { OnOk result (total_of sums.new.sums ≡ total_of sums.old.sums + total_of (names_costs count (names_in functions.now.keys))) }
{
    for function in functions.iter() {
        sums.add(&cost_at(UNKNOWN, *function, count))?;
    }
    Ok(())
}

/// Adds stacks, each once for each function that has a frame in it.
fn add_stacks<'n>(
    alloc: Global,
    sums: &mut LentSums<'n>,
    rows: &[StackRow<&'n [u8]>],
) -> Result<(), AllocError>
    requires small { total_of sums.old.sums + total_of (row_costs (plain_stacks rows.now)) < sum_end }
    ensures sums { OnOk result (sums.new ≡ fold with_row sums.old (rows_of (row_costs (plain_stacks rows.now)))) }
    ensures total { OnOk result (total_of sums.new.sums ≡ total_of sums.old.sums + total_of (row_costs (plain_stacks rows.now))) }
{
    for row in rows {
        let functions = functions_in(alloc, row.stack)?;
        add_functions(sums, &functions, row.count)?;
    }
    Ok(())
}

/// What stacks count.
fn count_of(rows: &[StackRow<&[u8]>]) -> u128
    requires { rows_count (plain_stacks rows.now) < sum_end }
    ensures { result ≡ rows_count (plain_stacks rows.now) }
{
    let mut count = 0;
    for row in rows {
        count += row.count;
    }
    count
}

/// What functions cost with all that they call: self costs and calls of Callgrind runs, and the stacks of folded ones. What is
/// asked to stay below 2^112 is what all functions cost so together.
pub fn inclusive<'n>(
    alloc: Global,
    cells: &[CellRow<&'n [u8]>],
    arcs: &[ArcRow<&'n [u8], u128>],
    stacks: &[StackRow<&'n [u8]>],
) -> Result<InclusiveReport<'n>, AllocError>
    requires small { AreBelow (cost_of (plain_cells cells.now) + total_of (outward_costs (calls_in arcs.now)) + total_of (row_costs (plain_stacks stacks.now)))
        (cost_of (plain_cells cells.now) + rows_count (plain_stacks stacks.now)) }
    ensures { IfOk result (λ report. report ≡ inclusive_report (inclusive_rows (plain_cells cells.now) (calls_in arcs.now) (plain_stacks stacks.now))) }
{
    let mut sums = LentSums::new(alloc, Key::Function);
    add_cells(&mut sums, cells)?;
    let self_cost = sums.total();
    add_arcs(&mut sums, arcs)?;
    add_stacks(alloc, &mut sums, stacks)?;
    let sums = InclusiveSums::new(sums, self_cost + count_of(stacks));
    cost_reports::inclusive(alloc, &sums)
}
