// The answers to questions of what the lines of a source cost.
ghost use Rattle.std.specs.Prelude.{◌≡◌, ◌≤◌, length, IfOk};
ghost use Rattle.std.specs.List.{AllByRecursion};
ghost use Rattle.std.specs.Result.{is_ok};
ghost use Rattle.plain_tables.specs.RunRows.{cells_in};
ghost use Rattle.report_texts.specs.Annotations.{annotation_of, annotation_text};
ghost use Rattle.run_stores.specs.Calls.{Told, AsksIfOpen};
ghost use Rattle.run_stores.specs.Walks.{IsOfAnEvent};
ghost use Rattle.requests.specs.Plain.{plain_selection};
ghost use Rattle.requests.specs.declared.queries.Query.TheVariants.{Annotate};
ghost use Rattle.histories.specs.Answered.{AnswersAsked};
ghost use Rattle.store_reports.specs.Annotated.{IsAnnotated, annotated_over, numbered_from};

use crate::sinks::LineRows;
use byte_io::SharedText;
use cost_exports::{LineSums, annotate};
use histories::{Answer, Refusal};
use requests::Selection;
use run_stores::{RunStore, StoreError};
use selected_runs::{Counted, RunFold, event_runs, fold_runs};
use std::alloc::{AllocError, Global};

/// Adds the cells of a run, by the number of the file's name. Those of a run without the event cost nothing, but
/// tell that it has the file.
fn add_run<S: RunStore>(
    store: &mut S,
    name: &[u8],
    number: Option<u32>,
    run: &Counted,
    sums: LineSums,
) -> Result<LineSums, StoreError>
    ensures told { Told S.StoreState result store.old store.new (λ t all. all ≡ numbered_from t number name.now sums run.now) }
    ensures of_events { Told S.StoreState result store.old store.new (λ t _. AllByRecursion (IsOfAnEvent run.now.events) (cells_in run.now.number t)) }
    ensures asks { AsksIfOpen S.StoreState (is_ok result) store.old store.new }
{
    let rows = LineRows {
        name,
        number,
        counts: run.event_counts(),
        sums,
    };
    let all = store.each_cell(run.number, run.events, rows)?;
    let LineRows { sums, .. } = all;
    Ok(sums)
}

/// Adds runs to what the lines of a file cost, by the number of its name.
#[derive(Drop)]
struct LinesOfRuns<'a> {
    name: &'a [u8],
    number: Option<u32>,
}

impl<S: RunStore> RunFold<S> for LinesOfRuns<'_> {
    ghost use Rattle.std.specs.Prelude.{◌≡◌, ◌≤◌, length, IfOk};
    ghost use Rattle.store_reports.specs.Annotated.{numbered_from};

    type Run = Counted;

    type Sums = LineSums;

    ghost Step = { λ s t run old new. new ≡ numbered_from t s.number s.name.now old run };

    fn add(&self, store: &mut S, run: &Counted, sums: LineSums) -> Result<LineSums, StoreError> {
        add_run(store, self.name, self.number, run, sums)
    }
}

/// The text of a source with what its lines cost.
fn source_text(
    alloc: Global,
    most: usize,
    sums: &LineSums,
    event: &[u8],
    source: &[u8],
) -> Result<SharedText, AllocError>
    ensures text { IfOk result (λ text. text ≡ annotation_text event.now (annotation_of sums.now.file source.now sums.now.costs)) }
    ensures short { IfOk result (λ text. length text ≤ most) }
{
    let text = annotate(alloc, most, sums, event, source)?;
    Ok(SharedText::from_list(alloc, text))
}

/// The text of a source with what its lines cost over some runs, if one of them knows the file.
fn annotated_text<S: RunStore>(
    store: &mut S,
    alloc: Global,
    runs: &[Counted],
    event: &[u8],
    name: &[u8],
    source: &[u8],
    most: usize,
) -> Result<Option<SharedText>, StoreError>
    ensures told { Told S.StoreState result store.old store.new (λ t text. text ≡ annotated_over t runs.now event.now name.now source.now) }
    ensures asks { AsksIfOpen S.StoreState (is_ok result) store.old store.new }
{
    let number = store.number_of(alloc, name)?;
    let lines = LinesOfRuns { name, number };
    let sums = fold_runs(store, &lines, runs, LineSums::new(alloc, name)?)?;
    // Sums that are alive at a way out cost the prover much.
    if !sums.is_known() {
        drop(sums);
        return Ok(None);
    }
    let text = source_text(alloc, most, &sums, event, source);
    drop(sums);
    Ok(Some(text?))
}

/// Answers what the lines of a source cost in an event, by the name of its file in the runs of a selection:
/// a text, or the refusal of a run or a group that is not held, of an event that none of the runs has, or of
/// a file of which no line costs anything in them. Errors: `Memory`; and `Store` for a call of the database
/// that fails, for rows out of form and for a sum of 2^112 or more, which no files that are held sum to. A text of more
/// than `most` bytes is refused as one that there is no memory for.
pub fn annotate_answer<S: RunStore>(
    store: &mut S,
    alloc: Global,
    selection: &Selection<&[u8]>,
    event: &[u8],
    name: &[u8],
    source: &[u8],
    most: usize,
) -> Result<Answer, StoreError>
    ensures { AnswersAsked S.StoreState (λ t. IsAnnotated t (plain_selection selection.now) event.now name.now source.now)
        (Annotate (plain_selection selection.now) event.now name.now source.now) result store.old store.new }
{
    let runs = match event_runs(store, alloc, selection, event)? {
        Ok(runs) => runs,
        Err(refusal) => return Ok(Answer::Refused(refusal)),
    };
    let runs = runs.as_slice();
    match annotated_text(store, alloc, runs, event, name, source, most)? {
        Some(text) => Ok(Answer::Text(text)),
        None => Ok(Answer::Refused(Refusal::NoSuchName)),
    }
}
