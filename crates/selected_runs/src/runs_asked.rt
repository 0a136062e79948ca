// The runs of a selection that an event is asked of.
ghost use Rattle.std.specs.Prelude.{◌≡◌};
ghost use Rattle.std.specs.List.{list_any};
ghost use Rattle.std.specs.Result.{is_ok};
ghost use Rattle.run_stores.specs.Calls.{Asks, Told};
ghost use Rattle.requests.specs.Plain.{plain_selection};
ghost use Rattle.selected_runs.specs.Counted.{has_counts};
ghost use Rattle.selected_runs.specs.EventRuns.{AreEventRunsIn};

use crate::counting::{Counted, count_runs};
use crate::selecting::select_runs;
use cg_text::ListVec;
use histories::Refusal;
use requests::Selection;
use run_stores::{RunStore, StoreError};
use std::alloc::Global;

/// Runs, of which one has the event that is asked, or why there are none.
pub type EventRuns = Result<ListVec<Counted>, Refusal>;

/// Whether one of some runs has the event.
pub fn have_event(runs: &[Counted]) -> bool
    ensures { result ≡ list_any has_counts runs.now }
{
    runs.iter().any(|run| run.counts.is_some())
}

/// The runs of a selection, with how often their events count in the one that is asked.
pub fn event_runs<S: RunStore>(
    store: &mut S,
    alloc: Global,
    selection: &Selection<&[u8]>,
    event: &[u8],
) -> Result<EventRuns, StoreError>
    ensures told { Told S.StoreState result store.old store.new (λ t found. AreEventRunsIn t (plain_selection selection.now) event.now found) }
    ensures asks { Asks S.StoreState (is_ok result) store.old store.new }
{
    let numbers = match select_runs(store, alloc, selection)? {
        Ok(numbers) => numbers,
        Err(refusal) => return Ok(Err(refusal)),
    };
    let runs = count_runs(store, alloc, numbers.as_slice(), event)?;
    if !have_event(&runs) {
        return Ok(Err(Refusal::NoSuchEvent));
    }
    Ok(Ok(ListVec::from_vec(runs)))
}
