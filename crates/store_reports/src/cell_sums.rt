// The cells of a run, added up by event.
ghost use Rattle.std.specs.Prelude.{◌≡◌};
ghost use Rattle.std.specs.List.{AllByRecursion};
ghost use Rattle.std.specs.Result.{is_ok};
ghost use Rattle.plain_tables.specs.RunRows.{cells_in};
ghost use Rattle.run_stores.specs.Book.{CellIsNamed};
ghost use Rattle.run_stores.specs.Calls.{Told, AsksIfOpen};
ghost use Rattle.store_reports.specs.CellSums.{AreOfCells};

use cost_rows::CellRow;
use run_stores::{RunStore, StoreError};
use selected_runs::{NamedCellSink, each_named_cell};
use std::alloc::Global;

/// What cells cost, by the column of their event.
#[derive(Drop)]
struct ByColumn {
    sums: Vec<u128>,
}

impl NamedCellSink for ByColumn {
    ghost use Rattle.std.specs.Prelude.{List, ℕ};
    ghost use Rattle.store_reports.specs.CellSums.{with_cost};

    ghost Meaning = { List ℕ };

    ghost meaning = { λ s. s.sums.items };

    ghost step = { λ sums cell. with_cost sums cell.event cell.cost };

    fn take(&mut self, row: &CellRow<&[u8]>) -> Result<(), StoreError> {
        let at = row.event;
        if at >= self.sums.len() {
            return Err(StoreError::Store);
        }
        match self.sums[at].checked_add(row.cost) {
            Some(sum) => self.sums[at] = sum,
            None => return Err(StoreError::Store),
        }
        Ok(())
    }
}

/// Looks whether the cells of a run sum to these sums, column by column. `Store` where they do not, where a store
/// keeps other cells than its small tables say, and for a name that is not held.
pub(crate) fn check_cells<S: RunStore>(
    store: &mut S,
    alloc: Global,
    names: &S::Names,
    number: u32,
    sums: &[u128],
) -> Result<(), StoreError>
    ensures told { Told S.StoreState result store.old store.new (λ t _. AreOfCells (cells_in number t) sums.now) }
    ensures named { Told S.StoreState result store.old store.new (λ t _. AllByRecursion (CellIsNamed (S.Names.name_rows names.now)) (cells_in number t)) }
    ensures asks { AsksIfOpen S.StoreState (is_ok result) store.old store.new }
{
    let none = ByColumn {
        sums: vec![in alloc; 0; sums.len()]?,
    };
    let found = each_named_cell(store, number, names, sums.len(), none)?;
    if found.sums.as_slice() != sums {
        return Err(StoreError::Store);
    }
    Ok(())
}
