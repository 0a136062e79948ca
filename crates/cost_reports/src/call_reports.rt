// Who calls a function, and whom it calls.
ghost use Rattle.std.specs.Prelude.{◌≡◌, ◌+◌, ◌<◌, [], OnOk, OnErr, IfOk};
ghost use Rattle.cost_rows.specs.Keys.{lent_place};
ghost use Rattle.cost_rows.specs.KeySums.{sum_end};
ghost use Rattle.report_texts.specs.Calls.{call_cmp, call_report_of, calls_of_row, with_calls};
ghost use Rattle.report_texts.specs.Functions.{function_spot, is_one_function};
ghost use Rattle.report_texts.specs.Pairs.{firsts_of, seconds_of, AreBelow};
ghost use Rattle.report_texts.specs.Ranking.{ranked};
ghost use Rattle.cost_reports.specs.Rows.{plain_calls};

use crate::pair_sums::PairSums;
use crate::places::function_place;
use crate::rows::CallRow;
use cost_rows::{ArcRow, LentPlace};
use report_texts::{CallSide, Pair};
use std::alloc::{AllocError, Global};
use std::cmp::Reverse;
use std::marker::Model;

/// The calls of one function, added up by the function on the other side: what they cost, and how
/// many there were. The names are lent, so a sum takes the same memory whatever its names.
#[derive(Drop)]
pub struct CallSums<'n> {
    side: CallSide,
    function: LentPlace<'n>,
    sums: PairSums<'n>,
}

impl<'n> Model for CallSums<'n> {
    ghost use Rattle.cost_rows.specs.Keys.{lent_place};
    ghost use Rattle.report_texts.specs.Calls.{CallsOfFunction};

    ghost Value = { CallsOfFunction };

    ghost view = { λ a. record { side = a.side; function = lent_place a.function; sums = a.sums } };
}

/// Whether a function is one of an object and a name.
fn is_function(place: &LentPlace<'_>, object: &[u8], function: &[u8]) -> bool
    ensures { result ≡ is_one_function (lent_place place.now) (function_spot object.now function.now) }
{
    place.object == object && place.function == function
}

impl<'n> CallSums<'n> {
    /// Of the calls to a function, or from it; no row was added. Takes no memory.
    pub fn new(alloc: Global, side: CallSide, object: &'n [u8], function: &'n [u8]) -> CallSums<'n>
        ensures { result ≡ record { side = side; function = function_spot object.now function.now; sums = [] } }
    {
        CallSums {
            side,
            function: function_place(object, function),
            sums: PairSums::new(alloc),
        }
    }

    /// What the calls cost.
    pub fn cost(&self) -> u128
        ensures value { result ≡ firsts_of self.now.sums }
        ensures small { result < sum_end }
    {
        self.sums.total().first
    }

    /// How many calls there were.
    pub fn count(&self) -> u128
        ensures value { result ≡ seconds_of self.now.sums }
        ensures small { result < sum_end }
    {
        self.sums.total().second
    }

    /// Adds a row of calls, if they are to the function, or from it. A refusal leaves the sums as
    /// they were.
    pub fn add(&mut self, row: &ArcRow<&'n [u8], u128>) -> Result<(), AllocError>
        requires small { AreBelow (firsts_of self.old.sums + row.now.costs) (seconds_of self.old.sums + row.now.count) }
        ensures ok { OnOk result (self.new ≡ with_calls self.old (calls_of_row row.now)) }
        ensures err { OnErr result (self.new ≡ self.old) }
    {
        let (is_asked, other) = match self.side {
            CallSide::Callers => (
                is_function(&self.function, row.called_object, row.called_function),
                function_place(row.object, row.function),
            ),
            CallSide::Callees => (
                is_function(&self.function, row.object, row.function),
                function_place(row.called_object, row.called_function),
            ),
        };
        if !is_asked {
            return Ok(());
        }
        let calls = Pair {
            first: row.costs,
            second: row.count,
        };
        self.sums.add(other, calls)
    }
}

/// The callers of a function, or those that it calls, the greatest cost first. The names of its rows
/// are those of the sums that it is of.
#[derive(Drop)]
pub struct CallReport<'a> {
    pub(crate) side: CallSide,
    pub(crate) function: LentPlace<'a>,
    pub(crate) rows: Vec<CallRow<'a>>,
    pub(crate) total: Pair,
}

impl<'a> Model for CallReport<'a> {
    ghost use Rattle.cost_rows.specs.Keys.{lent_place};
    ghost use Rattle.report_texts.specs.Calls.{RankedCalls};
    ghost use Rattle.cost_reports.specs.Rows.{plain_calls};

    ghost Value = { RankedCalls };

    ghost view = { λ r. record { side = r.side; function = lent_place r.function; rows = plain_calls r.rows.items; total = r.total } };
}

impl<'a> CallReport<'a> {
    /// Whether it is of the callers of the function, or of those that it calls.
    pub fn side(&self) -> CallSide
        ensures { result ≡ self.now.side }
    {
        self.side
    }

    /// The function whose calls they are.
    pub fn function(&self) -> LentPlace<'a>
        ensures { lent_place result ≡ self.now.function }
    {
        self.function
    }

    /// The functions on the other side of the calls, the greatest cost first.
    pub fn rows(&self) -> &[CallRow<'a>]
        ensures { plain_calls result.now ≡ self.now.rows }
    {
        &self.rows
    }

    /// What all these calls cost, and how many there were.
    pub fn total(&self) -> Pair
        ensures { result ≡ self.now.total }
    {
        self.total
    }
}

/// The functions on the other side with their sums, in order.
fn call_rows<'n>(alloc: Global, sums: &PairSums<'n>) -> Result<Vec<CallRow<'n>>, AllocError>
    ensures { IfOk result (λ rows. plain_calls rows.items ≡ sums.now) }
{
    let mut rows = Vec::with_capacity(alloc, sums.len())?;
    for (place, pair) in sums.iter() {
        rows.push(CallRow {
            cost: Reverse(pair.first),
            place: *place,
            count: pair.second,
        })?;
    }
    Ok(rows)
}

/// The greatest cost first, and equal costs in the order of their functions.
fn rank(rows: &mut Vec<CallRow<'_>>)
    ensures { plain_calls rows.new.items ≡ ranked call_cmp (plain_calls rows.old.items) }
{
    rows.sort_unstable();
}

/// The callers or callees of a function. Memory is the only refusal.
pub fn calls<'n>(alloc: Global, sums: &CallSums<'n>) -> Result<CallReport<'n>, AllocError>
    ensures { IfOk result (λ report. report ≡ call_report_of sums.now) }
{
    let mut rows = call_rows(alloc, &sums.sums)?;
    rank(&mut rows);
    Ok(CallReport {
        side: sums.side,
        function: sums.function,
        rows,
        total: sums.sums.total(),
    })
}
