// The cells of a run, handed on one at a time, with the numbers of their names.
ghost use Rattle.std.specs.Prelude.{◌≡◌, ◌<◌, ◌++◌, ◌∷◌, [], ℕ, List, IfOk, OnOk};
ghost use Rattle.plain_tables.specs.Tables.{StoredCell as TableCell};
ghost use Rattle.prof_store.specs.Lines.{cell_row};
ghost use Rattle.run_stores.specs.Walks.{CellsFoldTo, cell_numbers};
ghost use Rattle.run_lists.specs.HeldCells.{HasTakenCellLines};

use cost_rows::CellRow;
use prof_store::{OutOfForm, StoreError, StoredCell};
use run_stores::CellSink;

/// The cell of a line, of one of so many events.
fn cell_row(line: &StoredCell, events: usize) -> Result<CellRow<u32>, OutOfForm>
    ensures row { IfOk result (λ row. row ≡ cell_numbers (cell_row line.now)) }
    ensures counted { IfOk result (λ row. row.event < events) }
{
    let event = line.event as usize;
    if event >= events {
        return Err(OutOfForm);
    }
    Ok(CellRow {
        object: line.object,
        file: line.file,
        function: line.function,
        line: line.line.get(),
        thread: line.thread.get(),
        event,
        cost: u128::from(line.cost.get()),
    })
}

/// Takes the lines of cells, and hands on their rows, with the numbers of their names.
#[derive(Drop)]
pub struct CellLines<T> {
    events: usize,
    sink: T,
}

impl<T: CellSink> CellLines<T> {
    /// Nothing is taken yet. The lines are to be of so many events.
    pub fn new(events: usize, sink: T) -> CellLines<T>
        ensures { HasTakenCellLines events T.meaning T.step (T.meaning sink) [] result }
    {
        CellLines { events, sink }
    }

    /// Takes a line. Errors: `Store` for a cell of none of the events; and those of the taker.
    pub fn take_line(&mut self, line: StoredCell) -> Result<(), StoreError>
        ensures { OnOk result ((events : ℕ) (start : T.Meaning) (lines : List TableCell)
            → HasTakenCellLines events T.meaning T.step start lines self.old
            → HasTakenCellLines events T.meaning T.step start (lines ++ cell_row line ∷ []) self.new) }
    {
        let row = cell_row(&line, self.events)?;
        self.sink.take(&row)
    }

    /// Gives back what took the cells of all lines.
    pub fn finish(self) -> T
        ensures { (events : ℕ) (start : T.Meaning) (lines : List TableCell)
            → HasTakenCellLines events T.meaning T.step start lines self
            → CellsFoldTo events T.step start (T.meaning result) lines }
    {
        let CellLines { events: _, sink } = self;
        sink
    }
}
