// The sums of events: of those of a run, and over all runs.
ghost use Rattle.std.specs.Prelude.{◌≡◌, ◌≢◌, ◌<◌, ◌≤◌, ◌⊎◌, ◌==◌, map, filter, length, sum_by, IfErr, IfOk};
ghost use Rattle.cost_rows.specs.KeySums.{sum_end};
ghost use Rattle.plain_tables.specs.Tables.{Tables};
ghost use Rattle.plain_tables.specs.declared.errors.StoreError.TheVariants.{Memory};
ghost use Rattle.run_stores.specs.Calls.{AnswersOrMemory};
ghost use Rattle.run_stores.specs.Totals.{IsHeldIn, TotalsFit};
ghost use Rattle.run_stores.specs.SelfSums.{AreSelfSums, HaveSelfSums, events_of_run, sums_from};
ghost use Rattle.run_lists.specs.Listed.{AreListed};
ghost use Rattle.run_lists.specs.Sums.{calls_sum, placed_sum, self_sum};

use crate::listed::{ListedEvent, ListedRun, RunLists};
use cg_text::ListVec;
use cost_rows::{FileTotals, SUM_END};
use plain_tables::StoreError;
use std::alloc::{AllocError, Global};

/// Sums of events: of self costs, and of the costs of calls.
#[derive(Clone, Copy)]
struct EventSums {
    own: u128,
    calls: u128,
}

/// The places of a run's events, each with its self cost.
fn placed_sums(
    alloc: Global,
    events: &[ListedEvent],
    run: u32,
) -> Result<Vec<(u32, u64)>, AllocError>
    ensures read { IfOk result (λ placed. placed.items ≡ map (λ e. (e.place, e.self_cost)) (filter (λ e. e.run == run) events.now)) }
{
    events
        .iter()
        .filter(|event| event.run == run)
        .map(|event| (event.place, event.self_cost))
        .collect(alloc)
}

/// The sums at places that go up from 0 by one.
fn sums_in_order(alloc: Global, placed: &[(u32, u64)]) -> Result<ListVec<u128>, StoreError>
    ensures read { IfOk result (λ sums. sums_from 0 sums ≡ map placed_sum placed.now) }
    ensures refused { IfErr result (λ e. (e ≡ Memory) ⊎ ((sums : _) → sums_from 0 sums ≢ map placed_sum placed.now)) }
{
    let mut sums = ListVec::new(alloc);
    for (place, sum) in placed {
        if *place as usize != sums.len() {
            return Err(StoreError::Store);
        }
        if sums.push(u128::from(*sum)).is_err() {
            return Err(StoreError::Memory);
        }
    }
    Ok(sums)
}

/// The sums of an event, in all runs that have it.
fn sums_named(events: &[ListedEvent], name: &[u8]) -> Result<EventSums, StoreError>
    ensures own { IfOk result (λ sums. sums.own ≡ self_sum events.now name.now) }
    ensures calls { IfOk result (λ sums. sums.calls ≡ calls_sum events.now name.now) }
    ensures refused { IfErr result (λ _. self_sum events.now name.now < sum_end → sum_end ≤ calls_sum events.now name.now) }
{
    let mut own: u128 = 0;
    let mut calls: u128 = 0;
    for event in events {
        if event.name.as_slice() != name {
            continue;
        }
        let (self_cost, call_cost) = (event.self_cost, event.call_cost);
        own += u128::from(self_cost);
        calls += u128::from(call_cost);
        if own >= SUM_END || calls >= SUM_END {
            return Err(StoreError::Store);
        }
    }
    Ok(EventSums { own, calls })
}

/// The calls of all runs.
fn calls_of_all(runs: &[ListedRun]) -> Result<u128, StoreError>
    ensures read { IfOk result (λ count. count ≡ sum_by (λ r. r.call_count) runs.now) }
    ensures refused { IfErr result (λ _. sum_end ≤ sum_by (λ r. r.call_count) runs.now) }
{
    let mut count: u128 = 0;
    for run in runs {
        count += u128::from(run.call_count);
        if count >= SUM_END {
            return Err(StoreError::Store);
        }
    }
    Ok(count)
}

impl RunLists {
    /// The sums of a run's self costs, one for each event, in the order of their places: none where no
    /// such run is held. `Store` where a place is left out or comes twice.
    pub fn sums_of(&self, alloc: Global, run: u32) -> Result<ListVec<u128>, StoreError>
        ensures told { (t : Tables) → AreListed t self.now → IfOk result (λ sums. AreSelfSums (events_of_run run t) sums) }
        ensures serves { (t : Tables) → AreListed t self.now → HaveSelfSums (events_of_run run t) → AnswersOrMemory result }
    {
        let mut placed = placed_sums(alloc, self.events.of_run(run), run)?;
        placed.sort_unstable();
        sums_in_order(alloc, &placed)
    }

    /// For each of these event names the sum of its self costs and of the costs of its calls, over all
    /// runs that are held and have it, and the number of calls of all runs. `Store` where a sum is
    /// 2^112 or more.
    pub fn totals_of(&self, alloc: Global, events: &[ListVec<u8>]) -> Result<FileTotals, StoreError>
        ensures told { (t : Tables) → AreListed t self.now → IfOk result (λ totals. IsHeldIn t events.now totals) }
        ensures serves { (t : Tables) → AreListed t self.now → TotalsFit t events.now → AnswersOrMemory result }
        ensures columns { IfOk result (λ totals. (length totals.self_cost ≡ length events.now) × (length totals.call_cost ≡ length events.now)) }
    {
        let call_count = calls_of_all(&self.runs)?;
        let mut self_cost = ListVec::new(alloc);
        let mut call_cost = ListVec::new(alloc);
        for event in events {
            let sums = sums_named(self.events.all(), event.as_slice())?;
            if self_cost.push(sums.own).is_err() || call_cost.push(sums.calls).is_err() {
                return Err(StoreError::Memory);
            }
        }
        Ok(FileTotals {
            self_cost,
            call_cost,
            call_count,
        })
    }
}
