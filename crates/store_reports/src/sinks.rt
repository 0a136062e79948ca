// The rows of runs, added up for annotated sources and exports. Tables that another program filled may say
// anything, so each sum is compared with its bound.
ghost use Rattle.std.specs.Prelude.{◌≡◌};
ghost use Rattle.cost_rows.specs.Plain.{plain_cell};
ghost use Rattle.run_stores.specs.Names.{is_number};
ghost use Rattle.store_reports.specs.Annotated.{file_cell};

use cg_text::ListVec;
use cost_exports::{CellSums, LineSums, StackSums};
use cost_rows::{CellRow, StackRow};
use run_stores::{CellSink, StackRowSink, StoreError};
use selected_runs::{NamedCellSink, is_within, weighted_within};

/// Whether a number is that of a name, if the name has one.
fn is_number(number: Option<u32>, other: u32) -> bool
    ensures { result ≡ is_number number other }
{
    match number {
        Some(held) => other == held,
        None => false,
    }
}

/// A cell of the file of this name. Nothing looks at its other names.
fn file_cell<'a>(name: &'a [u8], row: &CellRow<u32>) -> CellRow<&'a [u8]>
    ensures { plain_cell result ≡ file_cell name.now row.now }
{
    CellRow {
        object: &[],
        file: name,
        function: &[],
        line: row.line,
        thread: row.thread,
        event: row.event,
        cost: row.cost,
    }
}

/// What the lines of a file cost, and how often each column of the run that is read counts in the event.
#[derive(Drop)]
pub(crate) struct LineRows<'a> {
    pub name: &'a [u8],
    /// The number of this name: without one no cell is of the file.
    pub number: Option<u32>,
    pub counts: &'a [u64],
    pub sums: LineSums,
}

impl CellSink for LineRows<'_> {
    ghost use Rattle.std.specs.Prelude.{List, Option, ℕ};
    ghost use Rattle.report_texts.specs.Annotations.{FileCosts};
    ghost use Rattle.store_reports.specs.Annotated.{with_numbered};

    ghost Meaning = { Option ℕ × List ℕ × List ℕ × FileCosts };

    ghost meaning = { λ s. (s.number, s.name.now, s.counts.now, s.sums) };

    ghost step = { λ m row. (m.0, m.1, m.2, with_numbered m.0 m.1 m.2 m.3 row) };

    fn take(&mut self, row: &CellRow<u32>) -> Result<(), StoreError> {
        if !is_number(self.number, row.file) {
            return Ok(());
        }
        let named = file_cell(self.name, row);
        let Some(cell) = weighted_within(self.sums.total(), self.counts, &named) else {
            return Err(StoreError::Store);
        };
        self.sums.add(&cell)?;
        Ok(())
    }
}

/// What places cost by the names of events, and the events of the run that is read, by column.
#[derive(Drop)]
pub(crate) struct NamedRows<'a> {
    pub events: &'a [ListVec<u8>],
    pub sums: CellSums,
}

impl NamedCellSink for NamedRows<'_> {
    ghost use Rattle.std.specs.Prelude.{List, ℕ};
    ghost use Rattle.report_texts.specs.Csv.{EventSpot, with_cell_in};

    ghost Meaning = { List (List ℕ) × List (EventSpot × ℕ) };

    ghost meaning = { λ s. (s.events.now, s.sums) };

    ghost step = { λ m row. (m.0, with_cell_in m.0 m.1 row) };

    fn take(&mut self, row: &CellRow<&[u8]>) -> Result<(), StoreError> {
        let Some(event) = self.events.get(row.event) else {
            return Ok(());
        };
        if !is_within(self.sums.total(), row.cost) {
            return Err(StoreError::Store);
        }
        self.sums.add(row, event.as_slice())?;
        Ok(())
    }
}

/// Stacks with their counts.
#[derive(Drop)]
pub(crate) struct StackRows {
    pub sums: StackSums,
}

impl StackRowSink for StackRows {
    ghost use Rattle.std.specs.Prelude.{List, ℕ};
    ghost use Rattle.report_texts.specs.Folded.{with_stack};

    ghost Meaning = { List (List ℕ × ℕ) };

    ghost meaning = { λ s. s.sums };

    ghost step = { with_stack };

    fn take(&mut self, row: &StackRow<&[u8]>) -> Result<(), StoreError> {
        if !is_within(self.sums.total(), row.count) {
            return Err(StoreError::Store);
        }
        self.sums.add(row)?;
        Ok(())
    }
}
