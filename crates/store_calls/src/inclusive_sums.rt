// The rows of runs, added up to what functions cost with all that they call.
ghost use Rattle.std.specs.Prelude.{◌≡◌};
ghost use Rattle.store_calls.specs.InclusiveParts.{is_of_itself};

use crate::inclusive_parts::InclusiveParts;
use crate::weights::{most_of, weighed_within};
use cg_text::ListVec;
use cost_rows::{ArcRow, CellRow, StackRow};
use run_stores::{CallSink, CellSink, StackRowSink, StoreError};
use selected_runs::{cost_within, is_within, times_of};

/// Inclusive costs, and how often each column of the run that is read counts in the event. No name is looked at:
/// what was added means what it costs by the numbers of names.
#[derive(Drop)]
pub(crate) struct InclusiveRows<'a> {
    pub counts: &'a [u64],
    pub parts: InclusiveParts,
}

impl CellSink for InclusiveRows<'_> {
    ghost use Rattle.store_calls.specs.InclusiveParts.{Counting, sums_in, with_self_row};

    ghost Meaning = { Counting };

    ghost meaning = { λ s. record { counts = s.counts.now; sums = sums_in s.parts } };

    ghost step = { with_self_row };

    fn take(&mut self, row: &CellRow<u32>) -> Result<(), StoreError> {
        let times = times_of(self.counts, row.event);
        let Some(cost) = cost_within(self.parts.numbers.total(), times, row.cost) else {
            return Err(StoreError::Store);
        };
        if !is_within(self.parts.self_cost, cost) {
            return Err(StoreError::Store);
        }
        self.parts.add_self(&CellRow {
            object: row.object,
            file: row.file,
            function: row.function,
            line: row.line,
            thread: row.thread,
            event: 0,
            cost,
        })?;
        Ok(())
    }
}

/// Whether calls are of the caller itself. Of the names that a store holds each has one number, so none is looked
/// at: that those of calls are held is asked when all rows were added.
fn is_of_itself(row: &ArcRow<u32, ListVec<u128>>) -> bool
    ensures { result ≡ is_of_itself row.now }
{
    row.object == row.called_object && row.function == row.called_function
}

impl CallSink for InclusiveRows<'_> {
    ghost use Rattle.store_calls.specs.InclusiveParts.{Counting, sums_in, with_call_row};

    ghost Meaning = { Counting };

    ghost meaning = { λ s. record { counts = s.counts.now; sums = sums_in s.parts } };

    ghost step = { with_call_row };

    fn take(&mut self, row: ArcRow<u32, ListVec<u128>>) -> Result<(), StoreError> {
        if is_of_itself(&row) {
            return Ok(());
        }
        let Some(cost) = weighed_within(self.counts, row.costs.as_slice()) else {
            return Err(StoreError::Store);
        };
        if !is_within(self.parts.numbers.total(), cost) {
            return Err(StoreError::Store);
        }
        self.parts.add_outward(&row, cost)?;
        Ok(())
    }
}

impl StackRowSink for InclusiveRows<'_> {
    ghost use Rattle.store_calls.specs.InclusiveParts.{Counting, sums_in, with_stack_row};

    ghost Meaning = { Counting };

    ghost meaning = { λ s. record { counts = s.counts.now; sums = sums_in s.parts } };

    ghost step = { with_stack_row };

    fn take(&mut self, row: &StackRow<&[u8]>) -> Result<(), StoreError> {
        let Some(most) = most_of(row.stack.len(), row.count) else {
            return Err(StoreError::Store);
        };
        if !is_within(self.parts.stacks.sum(), most)
            || !is_within(self.parts.stacks.total(), row.count)
        {
            return Err(StoreError::Store);
        }
        self.parts.add_stack(row)?;
        Ok(())
    }
}
