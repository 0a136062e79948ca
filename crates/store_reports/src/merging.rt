// The sums of runs by key.
ghost use Rattle.std.specs.Prelude.{◌≡◌, ℕ, Some, [], List, fold, length, IfOk};
ghost use Rattle.std.specs.List.{AllByRecursion};
ghost use Rattle.std.specs.Result.{is_ok};
ghost use Rattle.plain_tables.specs.RunRows.{cells_in};
ghost use Rattle.run_stores.specs.Calls.{Told, AsksIfOpen};
ghost use Rattle.run_stores.specs.Walks.{IsOfAnEvent};
ghost use Rattle.store_reports.specs.Reported.{numbers_from};

use crate::event_sums::EventSums;
use cost_rows::Key;
use run_stores::{RunStore, StoreError};
use selected_runs::{Counted, NumberSums};
use std::alloc::Global;

/// Adds the cells of a run, each as often as its column counts. One without the event costs nothing.
fn add_cells<S: RunStore>(
    store: &mut S,
    run: &Counted,
    sums: NumberSums,
) -> Result<NumberSums, StoreError>
    ensures told { Told S.StoreState result store.old store.new (λ t all. all ≡ numbers_from t sums run.now) }
    ensures of_events { Told S.StoreState result store.old store.new (λ t _. (counts : List ℕ) → run.now.counts ≡ Some counts
        → AllByRecursion (IsOfAnEvent (length counts)) (cells_in run.now.number t)) }
    ensures asks { AsksIfOpen S.StoreState (is_ok result) store.old store.new }
{
    match &run.counts {
        Some(counts) => {
            let counts = counts.as_slice();
            let cells = EventSums { counts, sums };
            let all = store.each_cell(run.number, counts.len(), cells)?;
            let EventSums { counts: _, sums } = all;
            Ok(sums)
        }
        None => Ok(sums),
    }
}

/// The sums of runs by key, one run after another, with the numbers of names. It has a loop of its own: `fold_runs` and
/// what that calls would be two calls more between a report and its rows.
pub(crate) fn number_runs<S: RunStore>(
    store: &mut S,
    alloc: Global,
    runs: &[Counted],
    key: Key,
) -> Result<NumberSums, StoreError>
    ensures told { Told S.StoreState result store.old store.new (λ t sums. sums ≡ fold (numbers_from t) (record { key = key; sums = [] }) runs.now) }
    ensures asks { AsksIfOpen S.StoreState (is_ok result) store.old store.new }
{
    let mut sums = NumberSums::new(alloc, key);
    for run in runs {
        sums = add_cells(store, run, sums)?;
    }
    Ok(sums)
}
