// The head of a run, from its lines.
ghost use Rattle.std.specs.Prelude.{◌≡◌, ◌<◌, ◌≤◌, ◌^◌, ◌++◌, ℕ, suc, List, [], ◌∷◌, map, take, length, All, Option, Some, None, IfOk, IfSome, MatchResult};
ghost use Rattle.std.specs.Fmt.{decimal};
ghost use Rattle.cg_formulas.specs.declared.heads.FileHead.{FileHead};
ghost use Rattle.run_stores.specs.Calls.{AnswersOrMemory};
ghost use Rattle.run_stores.specs.HeldHeads.{StatesNumbers, coefs_at, coefs_from, placed};
ghost use Rattle.run_lists.specs.HeadLines.{event_place, event_total, States, derived_place, entry_of_coef, IsReadFrom};

use crate::head_lines::{HeadCoef, HeadDerived, HeadEvent};
use cg_formulas::{FileHead, Flat};
use cg_text::{ListVec, are_distinct};
use prof_store::StoreError;
use std::alloc::Global;

/// A copy of a name whose place is the next.
fn name_at(alloc: Global, place: u32, next: usize, name: &[u8]) -> Result<ListVec<u8>, StoreError>
    ensures read { IfOk result (λ copy. (place ≡ next) × (copy ≡ name.now)) }
    ensures serves { place ≡ next → AnswersOrMemory result }
{
    if place as usize != next {
        return Err(StoreError::Store);
    }
    match name.to_vec(alloc) {
        Ok(copy) => Ok(ListVec::from_vec(copy)),
        Err(_) => Err(StoreError::Memory),
    }
}

/// The names of events whose places go up from 0 by one.
fn event_names(alloc: Global, lines: &[HeadEvent]) -> Result<ListVec<ListVec<u8>>, StoreError>
    ensures read { IfOk result (λ names. map event_place lines.now ≡ placed 0 names) }
    ensures serves { (names : List (List ℕ)) → map event_place lines.now ≡ placed 0 names → AnswersOrMemory result }
{
    let mut names = ListVec::new(alloc);
    'lines: for line in lines {
        let name = name_at(alloc, line.place, names.len(), &line.name)?;
        if names.push(name).is_err() {
            return Err(StoreError::Memory);
        }
    }
    Ok(names)
}

/// The number that a text is in decimal, without a leading zero.
fn decimal_in(alloc: Global, text: &str) -> Result<u128, StoreError>
    ensures read { IfOk result (λ number. decimal number ≡ text.now) }
    ensures serves { (number : ℕ) → number < 2 ^ 128 → decimal number ≡ text.now → AnswersOrMemory result }
{
    let Ok(number) = text.parse::<u128>() else {
        return Err(StoreError::Store);
    };
    let Ok(again) = format!(in alloc; "{number}") else {
        return Err(StoreError::Memory);
    };
    if again.as_str() == text {
        Ok(number)
    } else {
        Err(StoreError::Store)
    }
}

/// The totals that are stated, where each event has one.
fn all_stated(alloc: Global, lines: &[HeadEvent]) -> Result<ListVec<u128>, StoreError>
    ensures read { IfOk result (λ sums. map event_total lines.now ≡ map (λ n. Some (decimal n)) sums) }
    ensures serves { (sums : List ℕ) → All (λ n. n < 2 ^ 128) sums → map event_total lines.now ≡ map (λ n. Some (decimal n)) sums
        → AnswersOrMemory result }
{
    let mut sums = ListVec::new(alloc);
    'lines: for line in lines {
        let Some(text) = &line.stated else {
            return Err(StoreError::Store);
        };
        let sum = decimal_in(alloc, text.as_str())?;
        if sums.push(sum).is_err() {
            return Err(StoreError::Memory);
        }
    }
    Ok(sums)
}

/// The totals that are stated, if each event has one, or none has.
fn stated_in(alloc: Global, lines: &[HeadEvent]) -> Result<Option<ListVec<u128>>, StoreError>
    ensures read { IfOk result (States lines.now) }
    ensures serves { (stated : Option (List ℕ)) → IfSome stated (All (λ n. n < 2 ^ 128)) → States lines.now stated
        → AnswersOrMemory result }
{
    if lines.iter().all(|line| line.stated.is_none()) {
        return Ok(None);
    }
    Ok(Some(all_stated(alloc, lines)?))
}

/// How often an event counts in a derived one, and how many lines at the front say it: 0 and none
/// where the first line is not of them.
fn first_times(place: usize, event: usize, coefs: &[HeadCoef]) -> (u64, usize)
    ensures within { result.1 ≤ length coefs.now }
    ensures said { map entry_of_coef (take result.1 coefs.now) ≡ coefs_at place event (result.0 ∷ []) }
    ensures all { (times : ℕ) (row : List ℕ) (rows : List (List ℕ))
        → map entry_of_coef coefs.now ≡ coefs_at place event (times ∷ row) ++ coefs_from (suc place) rows → result.0 ≡ times }
{
    match coefs.first() {
        Some(coef)
            if coef.place as usize == place && coef.event as usize == event && coef.times > 0 => {
            (coef.times, 1)
        }
        _ => (0, 0),
    }
}

/// A derived event's coefficients, one for each event, and how many lines at the front say them.
fn row_in(
    alloc: Global,
    place: usize,
    events: usize,
    coefs: &[HeadCoef],
) -> Result<(ListVec<u64>, usize), StoreError>
    ensures within { IfOk result (λ r. r.1 ≤ length coefs.now) }
    ensures said { IfOk result (λ r. map entry_of_coef (take r.1 coefs.now) ≡ coefs_at place 0 r.0) }
    ensures all { (row : List ℕ) (rows : List (List ℕ)) → length row ≡ events → map entry_of_coef coefs.now ≡ coefs_from place (row ∷ rows)
        → IfOk result (λ r. r.0 ≡ row) }
    ensures memory { AnswersOrMemory result }
{
    let mut row = ListVec::new(alloc);
    let mut used = 0;
    'events: for event in 0..events {
        let (times, more) = first_times(place, event, &coefs[used..]);
        used += more;
        if row.push(times).is_err() {
            return Err(StoreError::Memory);
        }
    }
    Ok((row, used))
}

/// The derived events with their coefficients, where every line is used in turn.
fn derived_in(
    alloc: Global,
    events: usize,
    lines: &[HeadDerived],
    coefs: &[HeadCoef],
) -> Result<ListVec<(ListVec<u8>, ListVec<u64>)>, StoreError>
    ensures names { IfOk result (λ derived. map derived_place lines.now ≡ placed 0 (map (λ d. d.0) derived)) }
    ensures rows { IfOk result (λ derived. map entry_of_coef coefs.now ≡ coefs_from 0 (map (λ d. d.1) derived)) }
    ensures serves { (derived : List (List ℕ × List ℕ)) → map derived_place lines.now ≡ placed 0 (map (λ d. d.0) derived)
        → map entry_of_coef coefs.now ≡ coefs_from 0 (map (λ d. d.1) derived) → All (λ d. length d.1 ≡ events) derived
        → MatchResult result (λ all. all ≡ derived) (λ e. e ≡ StoreError.Memory) }
{
    let mut derived = ListVec::new(alloc);
    let mut used = 0;
    'lines: for line in lines {
        let place = derived.len();
        let name = name_at(alloc, line.place, place, &line.name)?;
        let (row, more) = row_in(alloc, place, events, &coefs[used..])?;
        used += more;
        if derived.push((name, row)).is_err() {
            return Err(StoreError::Memory);
        }
    }
    if used == coefs.len() {
        Ok(derived)
    } else {
        Err(StoreError::Store)
    }
}

/// The names of events, and behind them those of derived events.
fn all_names(
    alloc: Global,
    events: &[HeadEvent],
    derived: &[HeadDerived],
) -> Result<ListVec<ListVec<u8>>, StoreError>
    ensures read { IfOk result (λ names. names ≡ map (λ e. e.name.items) events.now ++ map (λ d. d.name.items) derived.now) }
    ensures serves { (names : List (List ℕ)) → map event_place events.now ≡ placed 0 names → AnswersOrMemory result }
{
    let mut names = event_names(alloc, events)?;
    'derived: for line in derived {
        let name = name_at(alloc, line.place, line.place as usize, &line.name)?;
        if names.push(name).is_err() {
            return Err(StoreError::Memory);
        }
    }
    Ok(names)
}

/// The head that lines say. `Store` where they say none, or a total above 128 bits; `Memory`.
pub fn head_in(
    alloc: Global,
    events: &[HeadEvent],
    derived: &[HeadDerived],
    coefs: &[HeadCoef],
) -> Result<FileHead, StoreError>
    ensures read { IfOk result (λ head. IsReadFrom head events.now derived.now coefs.now) }
    ensures serves { (head : FileHead) → IsReadFrom head events.now derived.now coefs.now → StatesNumbers head → AnswersOrMemory result }
{
    let all = all_names(alloc, events, derived)?;
    let is_distinct = are_distinct(all.as_slice());
    drop(all);
    if !is_distinct {
        return Err(StoreError::Store);
    }
    let names = event_names(alloc, events)?;
    let stated = stated_in(alloc, events)?;
    let rows = derived_in(alloc, names.len(), derived, coefs)?;
    match Flat::of(event_names(alloc, events)?, rows) {
        Some(derived) => Ok(FileHead {
            events: names,
            derived,
            stated,
        }),
        None => Err(StoreError::Store),
    }
}
