// The head of a run, from the rows of the small tables.
ghost use Rattle.std.specs.Prelude.{◌≡◌, ◌==◌, map, filter, option_map, string_bytes, IfOk, IsPermutation};
ghost use Rattle.std.specs.List.{list_any};
ghost use Rattle.std.specs.List.Sorted.{IsSortedByKey};
ghost use Rattle.std.specs.Ordering.{nat_cmp};
ghost use Rattle.cg_formulas.specs.declared.heads.FileHead.{FileHead};
ghost use Rattle.plain_tables.specs.Tables.{Tables, EventRow, DerivedRow, CoefRow};
ghost use Rattle.run_stores.specs.Calls.{AnswersOrMemory};
ghost use Rattle.run_stores.specs.HeldHeads.{IsHeadIn, StatesNumbers, coef_of_line, event_of_line, name_of_line};
ghost use Rattle.run_lists.specs.HeadLines.{derived_place, entry_of_coef, entry_of_event};
ghost use Rattle.run_lists.specs.Listed.{AreListed, coef_row, derived_row, event_row};
ghost use Rattle.page_lists.specs.Heads.{AreInPlaces};

use cg_formulas::FileHead;
use plain_tables::StoreError;
use run_lists::{
    HeadCoef, HeadDerived, HeadEvent, ListedCoef, ListedDerived, ListedEvent, ListedRun, RunLists,
    head_in,
};
use std::alloc::Global;

/// Whether a run of this number is listed.
fn is_listed(runs: &[ListedRun], run: u32) -> bool
    ensures { result ≡ list_any (λ listed. listed.entry.number == run) runs.now }
{
    runs.iter().any(|listed| listed.entry.number == run)
}

/// A copy of bytes.
fn copied(alloc: Global, bytes: &[u8]) -> Result<Vec<u8>, StoreError>
    ensures read { IfOk result (λ copy. copy.items ≡ bytes.now) }
    ensures memory { AnswersOrMemory result }
{
    bytes.to_vec(alloc).map_err(|_| StoreError::Memory)
}

/// A copy of a total that may be stated.
fn copied_total(stated: &Option<String>) -> Result<Option<String>, StoreError>
    ensures read { IfOk result (λ copy. option_map string_bytes copy ≡ option_map string_bytes stated.now) }
    ensures memory { AnswersOrMemory result }
{
    let Some(text) = stated else {
        return Ok(None);
    };
    match text.clone() {
        Ok(copy) => Ok(Some(copy)),
        Err(_) => Err(StoreError::Memory),
    }
}

/// What is read of an event.
fn event_line(alloc: Global, event: &ListedEvent) -> Result<HeadEvent, StoreError>
    ensures read { IfOk result (λ line. entry_of_event line ≡ event_of_line (event_row event.now)) }
    ensures memory { AnswersOrMemory result }
{
    let name = copied(alloc, &event.name)?;
    let stated = copied_total(&event.stated)?;
    Ok(HeadEvent {
        place: event.place,
        name,
        stated,
    })
}

/// The events of a run, in the order of their places.
fn events_of(alloc: Global, events: &[ListedEvent], run: u32) -> Result<Vec<HeadEvent>, StoreError>
    ensures read { IfOk result (λ lines. IsPermutation
        (map event_of_line (filter (λ (e : EventRow). e.run == run) (map event_row events.now))) (map entry_of_event lines.items)) }
    ensures sorted { IfOk result (λ lines. IsSortedByKey (λ line. line.place) nat_cmp lines.items) }
    ensures memory { AnswersOrMemory result }
{
    let mut lines = Vec::new(alloc);
    'events: for event in events {
        if event.run == run {
            let line = event_line(alloc, event)?;
            if lines.push(line).is_err() {
                return Err(StoreError::Memory);
            }
        }
    }
    lines.sort_unstable_by_key(|line| line.place);
    Ok(lines)
}

/// The derived events of a run, in the order of their places.
fn derived_of(
    alloc: Global,
    derived: &[ListedDerived],
    run: u32,
) -> Result<Vec<HeadDerived>, StoreError>
    ensures read { IfOk result (λ lines. IsPermutation
        (map name_of_line (filter (λ (d : DerivedRow). d.run == run) (map derived_row derived.now))) (map derived_place lines.items)) }
    ensures sorted { IfOk result (λ lines. IsSortedByKey (λ line. line.place) nat_cmp lines.items) }
    ensures memory { AnswersOrMemory result }
{
    let mut lines = Vec::new(alloc);
    'derived: for event in derived {
        if event.run == run {
            let name = copied(alloc, &event.name)?;
            let place = event.place;
            if lines.push(HeadDerived { place, name }).is_err() {
                return Err(StoreError::Memory);
            }
        }
    }
    lines.sort_unstable_by_key(|line| line.place);
    Ok(lines)
}

/// The coefficients of a run, in the order of their places and, of one place, of their events.
fn coefs_of(alloc: Global, coefs: &[ListedCoef], run: u32) -> Result<Vec<HeadCoef>, StoreError>
    ensures read { IfOk result (λ lines. IsPermutation
        (map coef_of_line (filter (λ (c : CoefRow). c.run == run) (map coef_row coefs.now))) (map entry_of_coef lines.items)) }
    ensures sorted { IfOk result (λ lines. AreInPlaces lines.items) }
    ensures memory { AnswersOrMemory result }
{
    let mut lines = Vec::new(alloc);
    'coefs: for coef in coefs {
        if coef.run == run {
            let line = HeadCoef {
                place: coef.place,
                event: coef.event,
                times: coef.times,
            };
            if lines.push(line).is_err() {
                return Err(StoreError::Memory);
            }
        }
    }
    lines.sort_unstable_by_key(|line| (line.place, line.event));
    Ok(lines)
}

/// What the file of a run says of itself: its events, its derived events with their coefficients, and the
/// totals that it states. `Store` where no such run is listed, or where its rows are no head, or state a total above
/// 128 bits; `Memory`.
pub fn head_of(alloc: Global, lists: &RunLists, run: u32) -> Result<FileHead, StoreError>
    ensures told { (t : Tables) → AreListed t lists.now → IfOk result (IsHeadIn run t) }
    ensures serves { (t : Tables) → AreListed t lists.now → (head : FileHead) → IsHeadIn run t head → StatesNumbers head
        → AnswersOrMemory result }
{
    if !is_listed(&lists.runs, run) {
        return Err(StoreError::Store);
    }
    let events = events_of(alloc, lists.events.of_run(run), run)?;
    let derived = derived_of(alloc, lists.derived.of_run(run), run)?;
    let coefs = coefs_of(alloc, lists.coefs.of_run(run), run)?;
    head_in(alloc, &events, &derived, &coefs)
}
