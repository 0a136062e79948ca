// The cells of runs, added up by key in the event that is asked.
use cost_rows::CellRow;
use run_stores::{CellSink, StoreError};
use selected_runs::{NumberSums, cost_within, times_of};

/// Sums by key, and how often each column of the run that is read counts in the event.
#[derive(Drop)]
pub(crate) struct EventSums<'a> {
    pub counts: &'a [u64],
    pub sums: NumberSums,
}

impl CellSink for EventSums<'_> {
    ghost use Rattle.std.specs.Prelude.{List, ℕ};
    ghost use Rattle.selected_runs.specs.Sums.{SumsByNumber, with_number};
    ghost use Rattle.store_reports.specs.Reported.{weighted_numbers};

    ghost Meaning = { List ℕ × SumsByNumber };

    ghost meaning = { λ s. (s.counts.now, s.sums) };

    ghost step = { λ m row. (m.0, with_number m.1 (weighted_numbers m.0 row)) };

    fn take(&mut self, row: &CellRow<u32>) -> Result<(), StoreError> {
        let times = times_of(self.counts, row.event);
        let Some(cost) = cost_within(self.sums.total(), times, row.cost) else {
            return Err(StoreError::Store);
        };
        self.sums.add(&CellRow {
            object: row.object,
            file: row.file,
            function: row.function,
            line: row.line,
            thread: row.thread,
            event: 0,
            cost,
        })?;
        Ok(())
    }
}
