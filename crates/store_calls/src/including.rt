// The answers to questions of what functions cost with all that they call.
ghost use Rattle.std.specs.Prelude.{◌≡◌, IfOk};
ghost use Rattle.std.specs.List.{AllByRecursion};
ghost use Rattle.std.specs.Result.{is_ok};
ghost use Rattle.report_texts.specs.Inclusive.{inclusive_report, inclusive_text};
ghost use Rattle.profile_records.specs.declared.kinds.Kind.TheVariants.{Callgrind, Folded};
ghost use Rattle.plain_tables.specs.RunRows.{cells_in};
ghost use Rattle.run_stores.specs.Calls.{Asks, AsksIfOpen, Told};
ghost use Rattle.run_stores.specs.Walks.{IsOfAnEvent};
ghost use Rattle.requests.specs.Plain.{plain_selection};
ghost use Rattle.requests.specs.declared.queries.Query.TheVariants.{Inclusive};
ghost use Rattle.histories.specs.Answered.{AnswersAsked};
ghost use Rattle.store_calls.specs.InclusiveParts.{AreNamesFor, sums_in};
ghost use Rattle.store_calls.specs.InclusiveRuns.{AddsHeld, AreRowsCounted, AreRowsOfKind, IsInclusive, IsInclusiveText, IsTextNamed};

use crate::inclusive_parts::InclusiveParts;
use crate::inclusive_sums::InclusiveRows;
use byte_io::SharedText;
use cost_reports::{InclusiveSums, inclusive};
use histories::Answer;
use profile_records::Kind;
use requests::Selection;
use run_stores::{NameTable, RunStore, StoreError};
use selected_runs::{Counted, RunFold, event_runs, fold_runs};
use std::alloc::{AllocError, Global};

/// Adds the self costs and the calls of a Callgrind run.
fn add_callgrind<S: RunStore>(
    store: &mut S,
    alloc: Global,
    run: &Counted,
    counts: &[u64],
    parts: InclusiveParts,
) -> Result<InclusiveParts, StoreError>
    ensures told { Told S.StoreState result store.old store.new
        (λ t all. AddsHeld t (AreRowsOfKind Callgrind t run.now.number counts.now) (sums_in parts) (sums_in all)) }
    ensures of_events { Told S.StoreState result store.old store.new (λ t _. AllByRecursion (IsOfAnEvent run.now.events) (cells_in run.now.number t)) }
    ensures asks { AsksIfOpen S.StoreState (is_ok result) store.old store.new }
{
    let rows = InclusiveRows { counts, parts };
    let own = store.each_cell(run.number, run.events, rows)?;
    let all = store.each_call(alloc, run.number, run.events, own)?;
    Ok(all.parts)
}

/// Adds the stacks of a folded run.
fn add_folded<S: RunStore>(
    store: &mut S,
    run: &Counted,
    counts: &[u64],
    parts: InclusiveParts,
) -> Result<InclusiveParts, StoreError>
    ensures told { Told S.StoreState result store.old store.new
        (λ t all. AddsHeld t (AreRowsOfKind Folded t run.now.number counts.now) (sums_in parts) (sums_in all)) }
    ensures asks { AsksIfOpen S.StoreState (is_ok result) store.old store.new }
{
    let rows = InclusiveRows { counts, parts };
    let all = store.each_stack(run.number, rows)?;
    Ok(all.parts)
}

/// Adds the rows of a run of its kind.
fn add_rows<S: RunStore>(
    store: &mut S,
    alloc: Global,
    run: &Counted,
    counts: &[u64],
    parts: InclusiveParts,
) -> Result<InclusiveParts, StoreError>
    ensures told { Told S.StoreState result store.old store.new
        (λ t all. AddsHeld t (AreRowsCounted t run.now.number counts.now) (sums_in parts) (sums_in all)) }
    ensures asks { AsksIfOpen S.StoreState (is_ok result) store.old store.new }
{
    match store.kind_of(run.number) {
        Ok(Kind::Callgrind) => add_callgrind(store, alloc, run, counts, parts),
        Ok(Kind::Folded) => add_folded(store, run, counts, parts),
        Err(end) => {
            // Parts that are alive at a way out cost the prover much.
            drop(parts);
            Err(end)
        }
    }
}

/// Adds runs to inclusive costs. One without the event costs nothing.
#[derive(Drop)]
struct InclusiveOfRuns {
    alloc: Global,
}

impl<S: RunStore> RunFold<S> for InclusiveOfRuns {
    ghost use Rattle.store_calls.specs.InclusiveParts.{sums_in};
    ghost use Rattle.store_calls.specs.InclusiveRuns.{AddsHeld, AreRowsOf};

    type Run = Counted;

    type Sums = InclusiveParts;

    ghost Step = { λ s t run old new. AddsHeld t (AreRowsOf t run) (sums_in old) (sums_in new) };

    fn add(
        &self,
        store: &mut S,
        run: &Counted,
        parts: InclusiveParts,
    ) -> Result<InclusiveParts, StoreError> {
        match &run.counts {
            Some(counts) => add_rows(store, self.alloc, run, counts.as_slice(), parts),
            None => Ok(parts),
        }
    }
}

/// The names of the functions that sums tell. `Store` where a called function has a name that is not held: those
/// of the others are missed when the sums are named.
fn names_of_parts<S: RunStore>(
    store: &mut S,
    alloc: Global,
    parts: &InclusiveParts,
) -> Result<S::Names, StoreError>
    ensures told { Told S.StoreState result store.old store.new (λ t names. AreNamesFor t (sums_in parts.now) (S.Names.name_rows names)) }
    ensures asks { Asks S.StoreState (is_ok result) store.old store.new }
{
    let called = parts.called.numbers(alloc)?;
    if !store.holds_names(alloc, &called)? {
        return Err(StoreError::Store);
    }
    let numbers = parts.numbers.numbers(alloc)?;
    store.names_among(alloc, &numbers)
}

/// The text of some inclusive costs.
fn text_of_sums(
    alloc: Global,
    sums: &InclusiveSums<'_>,
    event: &[u8],
    most: usize,
) -> Result<SharedText, AllocError>
    ensures { IfOk result (λ text. text ≡ inclusive_text event.now (inclusive_report sums.now)) }
{
    let report = inclusive(alloc, sums)?;
    report.text(alloc, most, event)
}

/// The text of what runs add up to, of which the names are given.
fn text_of_parts<N: NameTable>(
    alloc: Global,
    parts: &InclusiveParts,
    names: &N,
    event: &[u8],
    most: usize,
) -> Result<SharedText, StoreError>
    ensures { IfOk result (λ text. IsTextNamed (N.name_rows names.now) (sums_in parts.now) event.now text) }
{
    let sums = parts.named(alloc, names)?;
    let text = text_of_sums(alloc, &sums, event, most);
    // Sums that are alive at a way out cost the prover much.
    drop(sums);
    Ok(text?)
}

/// The text of the inclusive costs of some runs: only the names of functions that it shows are asked for.
fn inclusive_text<S: RunStore>(
    store: &mut S,
    alloc: Global,
    runs: &[Counted],
    event: &[u8],
    most: usize,
) -> Result<SharedText, StoreError>
    ensures told { Told S.StoreState result store.old store.new (λ t text. IsInclusiveText t runs.now event.now text) }
    ensures asks { AsksIfOpen S.StoreState (is_ok result) store.old store.new }
{
    let adder = InclusiveOfRuns { alloc };
    let parts = fold_runs(store, &adder, runs, InclusiveParts::new(alloc))?;
    // Parts that are alive at a way out cost the prover much.
    match names_of_parts(store, alloc, &parts) {
        Ok(names) => {
            let text = text_of_parts(alloc, &parts, &names, event, most);
            drop(parts);
            text
        }
        Err(end) => {
            drop(parts);
            Err(end)
        }
    }
}

/// Answers what functions cost with all that they call, over the runs of a selection: a text, or the
/// refusal of a run or a group that is not held, or of an event that none of the runs has. Errors:
/// `Memory`; and `Store` as for a report by key. A text of more than `most` bytes is refused as one that there is no
/// memory for.
pub fn inclusive_answer<S: RunStore>(
    store: &mut S,
    alloc: Global,
    selection: &Selection<&[u8]>,
    event: &[u8],
    most: usize,
) -> Result<Answer, StoreError>
    ensures { AnswersAsked S.StoreState (λ t. IsInclusive t (plain_selection selection.now) event.now)
        (Inclusive (plain_selection selection.now) event.now) result store.old store.new }
{
    let runs = match event_runs(store, alloc, selection, event)? {
        Ok(runs) => runs,
        Err(refusal) => return Ok(Answer::Refused(refusal)),
    };
    let text = inclusive_text(store, alloc, runs.as_slice(), event, most)?;
    Ok(Answer::Text(text))
}
