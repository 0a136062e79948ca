// What takes the cells, the calls and the stacks of a run from its rows: cells and calls with the numbers of their names.
ghost use Rattle.std.specs.Prelude.{◌≡◌, ◌∷◌, List, map, IfOk};
ghost use Rattle.sqlite_record.specs.Fields.{fields_left};
ghost use Rattle.plain_tables.specs.Tables.{StoredCell as Cell};
ghost use Rattle.run_stores.specs.Walks.{CellsFoldTo, cell_numbers};
ghost use Rattle.prof_store.specs.Lines.{call_row, cell_row, held_stack};
ghost use Rattle.prof_store.specs.Tables.{number, cell_columns, arc_columns, stack_columns};

use crate::kept::Gathered;
use crate::run_rows::{Added, LineSink};
use cost_rows::CellRow;
use page_lists::{copied_in, end_of, number_in, whole_in};
use plain_tables::StoreError;
use prof_store::{HeldStack, OutOfForm, StoredCall, StoredCell};
use run_lists::{CallLines, CellLines, StackLines};
use run_stores::{CallSink, CellSink, StackRowSink};
use sqlite_record::fields::Fields;
use std::alloc::Global;

/// The cell of a run that a record says behind the run.
fn read_cell(run: u32, mut fields: Fields<'_>) -> Result<StoredCell, OutOfForm>
    ensures { IfOk result (λ line. cell_columns (cell_row line) ≡ number run ∷ fields_left fields.entry) }
{
    let thread = whole_in(&mut fields)?;
    let object = number_in(&mut fields)?;
    let file = number_in(&mut fields)?;
    let function = number_in(&mut fields)?;
    let line = whole_in(&mut fields)?;
    let event = number_in(&mut fields)?;
    let cost = whole_in(&mut fields)?;
    end_of(&mut fields)?;
    Ok(StoredCell {
        run,
        object,
        file,
        function,
        line,
        thread,
        event,
        cost,
    })
}

/// The part of calls of a run that a record says behind the run.
fn read_call(run: u32, mut fields: Fields<'_>) -> Result<StoredCall, OutOfForm>
    ensures { IfOk result (λ line. arc_columns (call_row line) ≡ number run ∷ fields_left fields.entry) }
{
    let object = number_in(&mut fields)?;
    let file = number_in(&mut fields)?;
    let function = number_in(&mut fields)?;
    let line = whole_in(&mut fields)?;
    let called_object = number_in(&mut fields)?;
    let called_file = number_in(&mut fields)?;
    let called_function = number_in(&mut fields)?;
    let part = number_in(&mut fields)?;
    let sum = whole_in(&mut fields)?;
    end_of(&mut fields)?;
    Ok(StoredCall {
        run,
        object,
        file,
        function,
        line,
        called_object,
        called_file,
        called_function,
        part,
        sum,
    })
}

/// The stack of a run that a record says behind the run.
fn read_stack(alloc: Global, run: u32, mut fields: Fields<'_>) -> Result<HeldStack, StoreError>
    ensures { IfOk result (λ line. stack_columns (held_stack line) ≡ number run ∷ fields_left fields.entry) }
{
    let frames = copied_in(alloc, &mut fields)?;
    let count = whole_in(&mut fields)?;
    end_of(&mut fields)?;
    Ok(HeldStack { run, frames, count })
}

/// Takes the cells of a run, and gathers them on the way.
#[derive(Drop)]
pub(crate) struct GatheredLines<T> {
    pub lines: CellLines<T>,
    pub gathered: Gathered,
}

impl<T: CellSink + Drop> LineSink for GatheredLines<T> {
    ghost use Rattle.std.specs.Prelude.{ℕ};
    ghost use Rattle.plain_tables.specs.Tables.{StoredCell as Cell};
    ghost use Rattle.prof_store.specs.Tables.{cell_columns};
    ghost use Rattle.run_lists.specs.HeldCells.{HasTakenCellLines};
    ghost use Rattle.page_runs.specs.Kept.{HasGathered};

    ghost Line = { Cell };

    ghost part = { λ line. line.event };

    ghost amount = { λ line. line.cost };

    ghost columns = { cell_columns };

    ghost Start = { ℕ × T.Meaning };

    ghost Has = { λ start lines s. HasTakenCellLines start.0 T.meaning T.step start.1 lines s.lines × HasGathered lines s.gathered };

    fn take(&mut self, run: u32, fields: Fields<'_>) -> Result<Added, StoreError> {
        let line = read_cell(run, fields)?;
        let added = Added {
            part: line.event,
            amount: line.cost.get(),
        };
        self.gathered.add(&line);
        self.lines.take_line(line)?;
        Ok(added)
    }
}

impl<T: CallSink + Drop> LineSink for CallLines<T> {
    ghost use Rattle.std.specs.Prelude.{ℕ};
    ghost use Rattle.plain_tables.specs.Tables.{StoredCall as Call};
    ghost use Rattle.prof_store.specs.Tables.{arc_columns};
    ghost use Rattle.run_lists.specs.HeldCalls.{HasTakenCallLines};

    ghost Line = { Call };

    ghost part = { λ line. line.part };

    ghost amount = { λ line. line.sum };

    ghost columns = { arc_columns };

    ghost Start = { ℕ × T.Meaning };

    ghost Has = { λ start lines s. HasTakenCallLines start.0 T.meaning T.step start.1 lines s };

    fn take(&mut self, run: u32, fields: Fields<'_>) -> Result<Added, StoreError> {
        let line = read_call(run, fields)?;
        let added = Added {
            part: line.part,
            amount: line.sum.get(),
        };
        self.take_line(line)?;
        Ok(added)
    }
}

/// Takes the stacks of a run, each copied.
#[derive(Drop)]
pub(crate) struct CopiedStacks<T> {
    pub alloc: Global,
    pub lines: StackLines<T>,
}

impl<T: StackRowSink + Drop> LineSink for CopiedStacks<T> {
    ghost use Rattle.plain_tables.specs.Tables.{StoredStack as Stack};
    ghost use Rattle.prof_store.specs.Tables.{stack_columns};
    ghost use Rattle.run_lists.specs.HeldStacks.{HasTakenStackLines};

    ghost Line = { Stack };

    ghost part = { λ _. 0 };

    ghost amount = { λ line. line.count };

    ghost columns = { stack_columns };

    ghost Start = { T.Meaning };

    ghost Has = { λ start lines s. HasTakenStackLines T.meaning T.step start lines s.lines };

    fn take(&mut self, run: u32, fields: Fields<'_>) -> Result<Added, StoreError> {
        let line = read_stack(self.alloc, run, fields)?;
        let added = Added {
            part: 0,
            amount: line.count.get(),
        };
        self.lines.take_line(line)?;
        Ok(added)
    }
}

/// Hands on cells that are kept, as `RunStore::each_cell`.
pub(crate) fn each_kept<T: CellSink + Drop>(
    cells: &[CellRow<u32>],
    events: usize,
    mut sink: T,
) -> Result<T, StoreError>
    ensures { (lines : List Cell) → cells.now ≡ map cell_numbers lines
        → IfOk result (λ taken. CellsFoldTo events T.step (T.meaning sink) (T.meaning taken) lines) }
{
    for cell in cells {
        if cell.event >= events {
            return Err(StoreError::Store);
        }
        sink.take(cell)?;
    }
    Ok(sink)
}
