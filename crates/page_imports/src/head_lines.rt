// The lines that the head of a file becomes.
ghost use Rattle.std.specs.Prelude.{◌≡◌, ◌<◌, ◌≤◌, ◌^◌, ◌++◌, ◌∷◌, [], ◌↔◌, map, option_map, string_bytes, slice_index, length, All, IfErr, IfOk, OnOk, IsTrue};
ghost use Rattle.run_stores.specs.Heads as specs;
ghost use Rattle.run_stores.specs.Heads.{stated_at, event_row_of, coef_rows_at, derived_rows_from, coef_rows_from, AreStated, IsComplete, ColumnFits};
ghost use Rattle.page_imports.specs.RowFits.{CoefsFit, DerivedFit, HeadFits, RefusesUnless};
ghost use Rattle.page_imports.specs.Sums.{OfContent, OfColumn, AllFit};
ghost use Rattle.prof_store.specs.Lines.{event_row, derived_row, coef_row};

use cg_formulas::FileHead;
use cg_text::ListVec;
use cost_rows::FileTotals;
use prof_store::{
    CoefRow, ColumnInt, DerivedRow, EventRow, HeadRows, StoreError, column_int_of, small_of,
};
use std::alloc::{AllocError, Global};

/// Adds a line at the end.
pub(crate) fn add<T: Drop>(lines: &mut Vec<T>, line: T) -> Result<(), AllocError>
    ensures { OnOk result (lines.new.items ≡ lines.old.items ++ line ∷ []) }
{
    lines.push(line)?;
    Ok(())
}

/// A place that fits its column.
fn place_of(place: usize) -> Result<u32, StoreError>
    ensures value { IfOk result (λ n. n ≡ place) }
    ensures refused { IfErr result (λ e. (e ≡ StoreError.Store) × (2 ^ 32 ≤ place)) }
{
    match small_of(place) {
        Some(small) => Ok(small),
        None => Err(StoreError::Store),
    }
}

/// The sum of a column, if it fits.
fn sum_at(sums: &[u128], place: usize) -> Result<ColumnInt, StoreError>
    ensures value { IfOk result (λ w. w ≡ slice_index sums.now place) }
    ensures fits { OnOk result (slice_index sums.now place < 2 ^ 63) }
    ensures refused { IfErr result (λ e. (e ≡ StoreError.Store) × (place < length sums.now → 2 ^ 63 ≤ slice_index sums.now place)) }
{
    let Some(sum) = sums.get(place) else {
        return Err(StoreError::Store);
    };
    match column_int_of(*sum) {
        Some(column_int) => Ok(column_int),
        None => Err(StoreError::Store),
    }
}

/// The total that a file states of a column, in decimal.
fn total_text(
    alloc: Global,
    stated: &Option<ListVec<u128>>,
    place: usize,
) -> Result<Option<String>, StoreError>
    ensures value { IfOk result (λ text. option_map string_bytes text ≡ stated_at stated.now place) }
    ensures memory { IfErr result (λ e. e ≡ StoreError.Memory) }
{
    let Some(totals) = stated else {
        return Ok(None);
    };
    match totals.as_slice().get(place) {
        Some(total) => Ok(Some(format!(in alloc; "{total}")?)),
        None => Ok(None),
    }
}

/// The line of an event, unless a sum is too great for its column.
fn event_of<'a>(
    alloc: Global,
    run: u32,
    head: &FileHead,
    totals: &FileTotals,
    place: usize,
    name: &'a [u8],
) -> Result<EventRow<'a>, StoreError>
    ensures value { OfColumn head.now totals.now place (λ c. IfOk result (λ e. event_row e ≡ event_row_of run head.now c place name.now)) }
    ensures fits { OfColumn head.now totals.now place (λ c. OnOk result (ColumnFits c place)) }
    ensures refused { OfColumn head.now totals.now place (λ c. IfErr result (RefusesUnless (ColumnFits c place × (place < 2 ^ 32)))) }
{
    Ok(EventRow {
        run,
        place: place_of(place)?,
        name,
        self_cost: sum_at(totals.self_cost.as_slice(), place)?,
        call_cost: sum_at(totals.call_cost.as_slice(), place)?,
        stated: total_text(alloc, &head.stated, place)?,
    })
}

/// The lines of the events of a file, with the sums of its rows.
fn event_rows<'a>(
    alloc: Global,
    run: u32,
    head: &'a FileHead,
    totals: &FileTotals,
) -> Result<Vec<EventRow<'a>>, StoreError>
    ensures value { OfContent head.now totals.now (λ c. IfOk result (λ lines. map event_row lines.items ≡ specs.event_rows run head.now c)) }
    ensures fits { OfContent head.now totals.now (λ c. OnOk result (AllFit head.now c)) }
    ensures refused { OfContent head.now totals.now (λ c. IfErr result (RefusesUnless (AllFit head.now c × (length head.now.events ≤ 2 ^ 32)))) }
{
    let events = head.events.as_slice();
    let mut lines = Vec::new(alloc);
    'events: for place in 0..events.len() {
        let line = event_of(alloc, run, head, totals, place, events[place].as_slice())?;
        add(&mut lines, line)?;
    }
    Ok(lines)
}

/// The lines of derived events.
fn derived_rows(
    alloc: Global,
    run: u32,
    derived: &[(ListVec<u8>, ListVec<u64>)],
) -> Result<Vec<DerivedRow<'_>>, StoreError>
    ensures value { IfOk result (λ lines. map derived_row lines.items ≡ derived_rows_from run 0 derived.now) }
    ensures refused { IfErr result (RefusesUnless (DerivedFit derived.now)) }
{
    let mut lines = Vec::new(alloc);
    'derived: for at in 0..derived.len() {
        let line = DerivedRow {
            run,
            place: place_of(at)?,
            name: derived[at].0.as_slice(),
        };
        add(&mut lines, line)?;
    }
    Ok(lines)
}

/// Adds the lines of the coefficients above 0 of one derived event.
fn push_coefs(
    lines: &mut Vec<CoefRow>,
    run: u32,
    place: u32,
    coefficients: &[u64],
) -> Result<(), StoreError>
    ensures added { OnOk result (map coef_row lines.new.items ≡ map coef_row lines.old.items ++ coef_rows_at run place 0 coefficients.now) }
    ensures refused { IfErr result (RefusesUnless (CoefsFit coefficients.now)) }
{
    'events: for event in 0..coefficients.len() {
        if coefficients[event] > 0 {
            let Some(times) = ColumnInt::of(coefficients[event]) else {
                return Err(StoreError::Store);
            };
            let line = CoefRow {
                run,
                place,
                event: place_of(event)?,
                times,
            };
            add(lines, line)?;
        }
    }
    Ok(())
}

/// The lines of the coefficients above 0 of derived events.
fn coef_rows(
    alloc: Global,
    run: u32,
    derived: &[(ListVec<u8>, ListVec<u64>)],
) -> Result<Vec<CoefRow>, StoreError>
    ensures value { IfOk result (λ lines. map coef_row lines.items ≡ coef_rows_from run 0 derived.now) }
    ensures refused { IfErr result (RefusesUnless (DerivedFit derived.now × All (λ d. CoefsFit d.1) derived.now)) }
{
    let mut lines = Vec::new(alloc);
    'derived: for at in 0..derived.len() {
        push_coefs(&mut lines, run, place_of(at)?, derived[at].1.as_slice())?;
    }
    Ok(lines)
}

/// Whether a file states one total for each of so many events, or none.
fn are_stated(stated: &Option<ListVec<u128>>, events: usize) -> bool
    ensures { IsTrue result ↔ AreStated stated.now events }
{
    match stated {
        Some(totals) => totals.len() == events,
        None => true,
    }
}

/// Whether a head is whole.
fn is_complete(head: &FileHead) -> bool
    ensures { IsTrue result ↔ IsComplete head.now }
{
    let events = head.events.len();
    head.derived.events.len() == events && are_stated(&head.stated, events)
}

/// The lines of the head of a file, with the sums of its rows. `Store` where a head is not whole, where a sum or a
/// coefficient is above 2^63-1, or where places have more than 32 bits; `Memory`.
pub fn head_rows<'a>(
    alloc: Global,
    run: u32,
    head: &'a FileHead,
    totals: &FileTotals,
) -> Result<HeadRows<'a>, StoreError>
    ensures column_int { IfOk result (λ _. IsComplete head.now) }
    ensures events { OfContent head.now totals.now (λ c. IfOk result (λ lines. map event_row lines.events.items ≡ specs.event_rows run head.now c)) }
    ensures fits { OfContent head.now totals.now (λ c. OnOk result (AllFit head.now c)) }
    ensures derived { IfOk result (λ lines. map derived_row lines.derived.items ≡ specs.derived_rows run head.now) }
    ensures coefs { IfOk result (λ lines. map coef_row lines.coefs.items ≡ specs.coef_rows run head.now) }
    ensures refused { OfContent head.now totals.now (λ c. IfErr result (RefusesUnless (HeadFits head.now c))) }
{
    if !is_complete(head) {
        return Err(StoreError::Store);
    }
    let derived = head.derived.derived.as_slice();
    Ok(HeadRows {
        events: event_rows(alloc, run, head, totals)?,
        derived: derived_rows(alloc, run, derived)?,
        coefs: coef_rows(alloc, run, derived)?,
    })
}
