// Every cell of a run, handed on with names in place.
ghost use Rattle.std.specs.Result.{is_ok};
ghost use Rattle.plain_tables.specs.RunRows.{cells_in};
ghost use Rattle.run_stores.specs.Calls.{Told, AsksIfOpen};
ghost use Rattle.selected_runs.specs.NamedRows.{NamedCellsFoldTo};

use crate::held::held_name;
use crate::sinks::NamedCellSink;
use cost_rows::CellRow;
use run_stores::{CellSink, NameTable, RunStore, StoreError};

/// Looks up the names of cells, and hands these on.
#[derive(Drop)]
struct NamedCells<'n, N, T> {
    names: &'n N,
    sink: T,
}

impl<N: NameTable, T: NamedCellSink> CellSink for NamedCells<'_, N, T> {
    ghost use Rattle.std.specs.Prelude.{true};
    ghost use Rattle.selected_runs.specs.NamedRows.{Naming, with_cell};

    ghost Meaning = { Naming T.Meaning };

    ghost meaning = { λ s. record { names = N.name_rows s.names.now; all_held = true; taken = T.meaning s.sink } };

    ghost step = { with_cell T.step };

    fn take(&mut self, row: &CellRow<u32>) -> Result<(), StoreError> {
        let object = held_name(self.names, row.object)?;
        let file = held_name(self.names, row.file)?;
        let function = held_name(self.names, row.function)?;
        self.sink.take(&CellRow {
            object,
            file,
            function,
            line: row.line,
            thread: row.thread,
            event: row.event,
            cost: row.cost,
        })
    }
}

/// Hands on the cells of a run, as `RunStore::each_cell`, by the names that `names` has: those of this store.
/// `Store` also for a name that is not held.
pub fn each_named_cell<S: RunStore, T: NamedCellSink + Drop>(
    store: &mut S,
    run: u32,
    names: &S::Names,
    events: usize,
    sink: T,
) -> Result<T, StoreError>
    ensures told { Told S.StoreState result store.old store.new (λ t taken.
        NamedCellsFoldTo (S.Names.name_rows names.now) events T.step (T.meaning sink) (T.meaning taken) (cells_in run t)) }
    ensures asks { AsksIfOpen S.StoreState (is_ok result) store.old store.new }
{
    let none = NamedCells { names, sink };
    let all = store.each_cell(run, events, none)?;
    let NamedCells { names: _, sink } = all;
    Ok(sink)
}
