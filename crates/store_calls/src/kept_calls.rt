// The calls of a function, kept row by row with the numbers of names.
ghost use Rattle.std.specs.Prelude.{◌≡◌, ◌++◌, ◌∷◌, [], false, OnOk};
ghost use Rattle.store_calls.specs.KeptCalls.{is_kept, kept_call, number_touches};

use crate::asked_functions::FunctionNumbers;
use crate::kept_rows::{KeptCall, KeptCalls};
use crate::weights::weighed_within;
use cg_text::ListVec;
use cost_rows::ArcRow;
use report_texts::{CallSide, Pair};
use run_stores::{CallSink, StoreError};
use selected_runs::is_within;
use std::alloc::Global;

/// Whether calls are from the function or to it.
fn touches(numbers: &FunctionNumbers, row: &ArcRow<u32, ListVec<u128>>) -> bool
    ensures { result ≡ number_touches numbers.now row.now }
{
    numbers.are(row.object, row.function) || numbers.are(row.called_object, row.called_function)
}

/// Whether calls are those on the side that is asked.
fn is_kept(side: CallSide, numbers: &FunctionNumbers, row: &ArcRow<u32, ListVec<u128>>) -> bool
    ensures { result ≡ is_kept side numbers.now row.now }
{
    match side {
        CallSide::Callers => numbers.are(row.called_object, row.called_function),
        CallSide::Callees => numbers.are(row.object, row.function),
    }
}

/// What is kept of calls that cost so much in the event.
fn kept_call(side: CallSide, row: &ArcRow<u32, ListVec<u128>>, cost: u128) -> KeptCall
    ensures { result ≡ kept_call side cost row.now }
{
    let (object, function) = match side {
        CallSide::Callers => (row.object, row.function),
        CallSide::Callees => (row.called_object, row.called_function),
    };
    let sum = Pair {
        first: cost,
        second: row.count,
    };
    KeptCall {
        object,
        function,
        sum,
    }
}

impl KeptCalls {
    /// No row was read. Takes no memory.
    pub fn new(alloc: Global, side: CallSide) -> KeptCalls
        ensures side { result.side ≡ side }
        ensures known { result.known ≡ false }
        ensures rows { result.rows.items ≡ [] }
    {
        KeptCalls {
            side,
            known: false,
            rows: Vec::new(alloc),
            total: Pair {
                first: 0,
                second: 0,
            },
        }
    }

    /// Keeps calls. Errors: `Memory`; and `Store` where all together pass the bound of sums.
    fn keep(&mut self, call: KeptCall) -> Result<(), StoreError>
        ensures side { OnOk result (self.new.side ≡ self.old.side) }
        ensures known { OnOk result (self.new.known ≡ self.old.known) }
        ensures rows { OnOk result (self.new.rows.items ≡ self.old.rows.items ++ call ∷ []) }
    {
        if !is_within(self.total.first, call.sum.first)
            || !is_within(self.total.second, call.sum.second)
        {
            return Err(StoreError::Store);
        }
        if self.rows.push(call).is_err() {
            return Err(StoreError::Memory);
        }
        self.total = Pair {
            first: self.total.first + call.sum.first,
            second: self.total.second + call.sum.second,
        };
        Ok(())
    }
}

/// Keeps the calls of a run, whose columns count so often in the event.
#[derive(Drop)]
pub(crate) struct KeepsCalls<'a> {
    pub numbers: FunctionNumbers,
    pub counts: &'a [u64],
    pub calls: KeptCalls,
}

impl CallSink for KeepsCalls<'_> {
    ghost use Rattle.store_calls.specs.KeptCalls.{Keeping, keeps_row, kept_of};

    ghost Meaning = { Keeping };

    ghost meaning = { λ s. record { numbers = s.numbers; counts = s.counts.now; kept = kept_of s.calls } };

    ghost step = { keeps_row };

    fn take(&mut self, row: ArcRow<u32, ListVec<u128>>) -> Result<(), StoreError> {
        self.calls.known = self.calls.known || touches(&self.numbers, &row);
        if !is_kept(self.calls.side, &self.numbers, &row) {
            return Ok(());
        }
        let Some(cost) = weighed_within(self.counts, row.costs.as_slice()) else {
            return Err(StoreError::Store);
        };
        let call = kept_call(self.calls.side, &row, cost);
        self.calls.keep(call)
    }
}
