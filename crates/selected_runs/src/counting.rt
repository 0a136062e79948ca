// How often the events of runs count in the event that is asked.
ghost use Rattle.std.specs.Prelude.{◌≡◌, ◌∷◌, [], map, take, unwrap_or, IfOk};
ghost use Rattle.std.specs.Result.{is_ok};
ghost use Rattle.run_stores.specs.Calls.{Told, Asks, AsksIfOpen};
ghost use Rattle.selected_runs.specs.Counted.{IsCounted, AreCounted};

use crate::adding::{RunFold, fold_runs};
use cg_text::ListVec;
use run_stores::{RunStore, StoreError};
use std::alloc::Global;

/// A run, and how often each of its events counts in the one that is asked, if it has that.
#[derive(Drop)]
pub struct Counted {
    pub number: u32,
    /// How many events it has.
    pub events: usize,
    pub counts: Option<ListVec<u64>>,
}

impl Counted {
    /// How often its columns count in the event: none, where it does not have it.
    pub fn event_counts(&self) -> &[u64]
        ensures { result.now ≡ unwrap_or self.now.counts [] }
    {
        match &self.counts {
            Some(counts) => counts.as_slice(),
            None => &[],
        }
    }
}

/// A run of this number, by its head.
fn count_run<S: RunStore>(
    store: &mut S,
    alloc: Global,
    number: u32,
    event: &[u8],
) -> Result<Counted, StoreError>
    ensures told { Told S.StoreState result store.old store.new (λ t run. IsCounted t event.now number run) }
    ensures asks { Asks S.StoreState (is_ok result) store.old store.new }
{
    let head = store.head_of(alloc, number)?;
    let counts = head.derived.row(alloc, event);
    let events = head.events.len();
    // A head that is alive at a way out costs the prover much.
    drop(head);
    Ok(Counted {
        number,
        events,
        counts: counts?,
    })
}

/// Counts runs in the event that is asked.
#[derive(Drop)]
struct EventCounts<'a> {
    alloc: Global,
    event: &'a [u8],
}

impl<S: RunStore> RunFold<S> for EventCounts<'_> {
    ghost use Rattle.selected_runs.specs.Counted.{AddsCounted};

    type Run = u32;

    type Sums = Vec<Counted>;

    ghost Step = { λ s t number old new. AddsCounted t s.event.now number old.items new.items };

    fn add(
        &self,
        store: &mut S,
        number: &u32,
        runs: Vec<Counted>,
    ) -> Result<Vec<Counted>, StoreError> {
        // Runs that are alive at a way out cost the prover much.
        let run = match count_run(store, self.alloc, *number, self.event) {
            Ok(run) => run,
            Err(end) => {
                drop(runs);
                return Err(end);
            }
        };
        let mut runs = runs;
        if runs.push(run).is_err() {
            drop(runs);
            return Err(StoreError::Memory);
        }
        Ok(runs)
    }
}

/// The runs of these numbers.
pub fn count_runs<S: RunStore>(
    store: &mut S,
    alloc: Global,
    numbers: &[u32],
    event: &[u8],
) -> Result<Vec<Counted>, StoreError>
    ensures told { Told S.StoreState result store.old store.new (λ t runs. AreCounted t event.now numbers.now runs.items) }
    ensures asks { AsksIfOpen S.StoreState (is_ok result) store.old store.new }
{
    let counts = EventCounts { alloc, event };
    fold_runs(store, &counts, numbers, Vec::new(alloc))
}
