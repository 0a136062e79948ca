// Looks for a function in the rows of runs.
ghost use Rattle.std.specs.Prelude.{◌≡◌};
ghost use Rattle.std.specs.List.{list_any, AllByRecursion};
ghost use Rattle.std.specs.Result.{is_ok};
ghost use Rattle.plain_tables.specs.RunRows.{cells_in};
ghost use Rattle.run_stores.specs.Calls.{Told, AsksIfOpen};
ghost use Rattle.run_stores.specs.Walks.{IsOfAnEvent};
ghost use Rattle.store_calls.specs.FunctionCalls.{is_in_rows};
ghost use Rattle.store_calls.specs.KeptCalls.{spot_asked, IsAsked};

use crate::asked_functions::AskedFunction;
use cost_reports::is_frame;
use cost_rows::{CellRow, StackRow};
use run_stores::{CellSink, RunStore, StackRowSink, StoreError};
use selected_runs::{Counted, RunFold, fold_runs};

/// A function, and whether it was found: in cells by the numbers of its names, in stacks by their bytes.
#[derive(Drop)]
struct Sought<'a> {
    asked: &'a AskedFunction<'a>,
    found: bool,
}

impl CellSink for Sought<'_> {
    ghost use Rattle.std.specs.Prelude.{Bool};
    ghost use Rattle.store_calls.specs.KeptCalls.{with_cell_sought};
    ghost use Rattle.store_calls.specs.declared.asked_functions.AskedFunction.{AskedFunction};

    ghost Meaning = { AskedFunction × Bool };

    ghost meaning = { λ s. (s.asked.now, s.found) };

    ghost step = { with_cell_sought };

    fn take(&mut self, row: &CellRow<u32>) -> Result<(), StoreError> {
        self.found = self.found || self.asked.numbers.are(row.object, row.function);
        Ok(())
    }
}

impl StackRowSink for Sought<'_> {
    ghost use Rattle.std.specs.Prelude.{Bool};
    ghost use Rattle.store_calls.specs.KeptCalls.{with_stack_sought};
    ghost use Rattle.store_calls.specs.declared.asked_functions.AskedFunction.{AskedFunction};

    ghost Meaning = { AskedFunction × Bool };

    ghost meaning = { λ s. (s.asked.now, s.found) };

    ghost step = { with_stack_sought };

    fn take(&mut self, row: &StackRow<&[u8]>) -> Result<(), StoreError> {
        self.found = self.found || is_frame(row.stack, self.asked.object, self.asked.name);
        Ok(())
    }
}

/// Whether a function has self costs in a run, or a frame in its stacks.
fn is_in_run<S: RunStore>(
    store: &mut S,
    run: &Counted,
    asked: &AskedFunction<'_>,
) -> Result<bool, StoreError>
    ensures told { Told S.StoreState result store.old store.new (λ t found. IsAsked t.names asked.now → found ≡ is_in_rows t (spot_asked asked.now) run.now) }
    ensures of_events { Told S.StoreState result store.old store.new (λ t _. AllByRecursion (IsOfAnEvent run.now.events) (cells_in run.now.number t)) }
    ensures asks { AsksIfOpen S.StoreState (is_ok result) store.old store.new }
{
    let sought = Sought {
        asked,
        found: false,
    };
    let cells = store.each_cell(run.number, run.events, sought)?;
    let all = store.each_stack(run.number, cells)?;
    Ok(all.found)
}

/// Looks for a function in runs. Once it is found no more rows are read.
#[derive(Drop)]
struct SeeksFunction<'a> {
    asked: &'a AskedFunction<'a>,
}

impl<S: RunStore> RunFold<S> for SeeksFunction<'_> {
    ghost use Rattle.std.specs.Prelude.{◌≡◌, ◌||◌};
    ghost use Rattle.store_calls.specs.FunctionCalls.{is_in_rows};
    ghost use Rattle.store_calls.specs.KeptCalls.{spot_asked, IsAsked};

    type Run = Counted;

    type Sums = bool;

    ghost Step = { λ s t run old new. IsAsked t.names s.asked.now → new ≡ old || is_in_rows t (spot_asked s.asked.now) run };

    fn add(&self, store: &mut S, run: &Counted, found: bool) -> Result<bool, StoreError> {
        if found {
            return Ok(true);
        }
        is_in_run(store, run, self.asked)
    }
}

/// Whether a function has self costs in one of some runs, or a frame in a stack.
pub(crate) fn is_in_runs<S: RunStore>(
    store: &mut S,
    runs: &[Counted],
    asked: &AskedFunction<'_>,
) -> Result<bool, StoreError>
    ensures told { Told S.StoreState result store.old store.new (λ t found. IsAsked t.names asked.now
        → found ≡ list_any (is_in_rows t (spot_asked asked.now)) runs.now) }
    ensures asks { AsksIfOpen S.StoreState (is_ok result) store.old store.new }
{
    let seeker = SeeksFunction { asked };
    fold_runs(store, &seeker, runs, false)
}
