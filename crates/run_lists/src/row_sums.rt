// What the small tables say that the rows of a run sum to, part by part.
ghost use Rattle.std.specs.Prelude.{◌≡◌, ◌==◌, ◌+◌, ℕ, suc, if◌then◌else◌, length, slice_index, IfOk, OnOk};
ghost use Rattle.plain_tables.specs.Tables.{Tables};
ghost use Rattle.profile_records.specs.declared.kinds.Kind.{Kind as RunKind};
ghost use Rattle.run_stores.specs.Lookups.{IsKindOf};
ghost use Rattle.run_lists.specs.Listed.{AreListed};
ghost use Rattle.run_lists.specs.RowSums.{calls_of_run, cells_of_run, costs_of_calls, counts_of_calls, self_costs, stacks_of_run};

use crate::listed::{ListedEvent, ListedRun, RunLists};
use plain_tables::StoreError;
use profile_records::Kind;
use std::alloc::Global;

/// Sums of a run's events, by their places.
#[derive(Drop)]
struct PlacedSums {
    self_costs: Vec<u64>,
    call_costs: Vec<u64>,
}

/// Adds an amount to the sum at a place. `Store` where there is no such place, or the sum is 2^64 or more.
fn add_at(sums: &mut [u64], place: usize, amount: u64) -> Result<(), StoreError>
    ensures added { OnOk result ((k : ℕ) → slice_index sums.new k ≡ slice_index sums.old k + (if place == k then amount else 0)) }
    ensures len { length sums.new ≡ length sums.old }
{
    if place >= sums.len() {
        return Err(StoreError::Store);
    }
    match sums[place].checked_add(amount) {
        Some(sum) => sums[place] = sum,
        None => return Err(StoreError::Store),
    }
    Ok(())
}

/// The sums of a run's events. `Store` for a place that is not below the number of lines, and for 2^64 or more.
fn event_sums(alloc: Global, events: &[ListedEvent], run: u32) -> Result<PlacedSums, StoreError>
    ensures cells { IfOk result (λ sums. (k : ℕ) → slice_index sums.self_costs.items k ≡ self_costs run events.now k) }
    ensures calls { IfOk result (λ sums. (k : ℕ) → slice_index sums.call_costs.items k ≡ costs_of_calls run events.now k) }
{
    let mut self_costs = vec![in alloc; 0; events.len()]?;
    let mut call_costs = vec![in alloc; 0; events.len()]?;
    for event in events {
        if event.run == run {
            let place = event.place as usize;
            add_at(&mut self_costs, place, event.self_cost)?;
            add_at(&mut call_costs, place, event.call_cost)?;
        }
    }
    Ok(PlacedSums {
        self_costs,
        call_costs,
    })
}

/// How many calls a run has. `Store` for 2^64 or more.
fn call_count(runs: &[ListedRun], number: u32) -> Result<u64, StoreError>
    ensures { IfOk result (λ count. count ≡ counts_of_calls number runs.now) }
{
    let mut count: u64 = 0;
    for run in runs {
        if run.entry.number != number {
            continue;
        }
        match count.checked_add(run.call_count) {
            Some(sum) => count = sum,
            None => return Err(StoreError::Store),
        }
    }
    Ok(count)
}

impl RunLists {
    /// What the cells of a run sum to, event by event: the self costs of its events. `Store` where a place of an event
    /// is not below the number of events, or a sum is 2^64 or more.
    pub fn cell_sums_of(&self, alloc: Global, run: u32) -> Result<Vec<u64>, StoreError>
        ensures told { (t : Tables) → AreListed t self.now → IfOk result (λ sums. (k : ℕ) → slice_index sums.items k ≡ cells_of_run run t k) }
    {
        let sums = event_sums(alloc, self.events.of_run(run), run)?;
        Ok(sums.self_costs)
    }

    /// What the parts of a run's calls sum to: how many calls there are, and behind that what they cost, event by event.
    /// `Store` as for its cells.
    pub fn call_sums_of(&self, alloc: Global, run: u32) -> Result<Vec<u64>, StoreError>
        ensures told { (t : Tables) → AreListed t self.now → IfOk result (λ sums. (k : ℕ) → slice_index sums.items k ≡ calls_of_run run t k) }
    {
        let count = call_count(&self.runs, run)?;
        let mut sums = event_sums(alloc, self.events.of_run(run), run)?;
        if sums.call_costs.insert(0, count).is_err() {
            return Err(StoreError::Memory);
        }
        Ok(sums.call_costs)
    }

    /// What the stacks of a run sum to: in a folded run they are its samples, and another run has none. `Store` where
    /// no such run is held, and as for its cells.
    pub fn stack_sums_of(&self, alloc: Global, run: u32) -> Result<Vec<u64>, StoreError>
        ensures told { (t : Tables) → AreListed t self.now
            → IfOk result (λ sums. (kind : RunKind) × IsKindOf run t kind × ((k : ℕ) → slice_index sums.items k ≡ stacks_of_run kind run t k)) }
    {
        match self.kind_of(run)? {
            Kind::Callgrind => Ok(Vec::new(alloc)),
            Kind::Folded => self.cell_sums_of(alloc, run),
        }
    }
}
