// The sums that are written as CSV, and the answers to questions of it.
ghost use Rattle.std.specs.Prelude.{◌≡◌, length, IfOk};
ghost use Rattle.std.specs.List.{AllByRecursion};
ghost use Rattle.std.specs.Result.{is_ok};
ghost use Rattle.cg_formulas.specs.declared.heads.FileHead.{FileHead};
ghost use Rattle.plain_tables.specs.RunRows.{cells_in};
ghost use Rattle.report_texts.specs.Csv.{csv_text};
ghost use Rattle.run_stores.specs.Calls.{Told, AsksIfOpen};
ghost use Rattle.run_stores.specs.Walks.{IsOfAnEvent};
ghost use Rattle.run_stores.specs.HeldHeads.{IsHeadIn};
ghost use Rattle.requests.specs.Plain.{plain_selection};
ghost use Rattle.requests.specs.declared.queries.Query.TheVariants.{Csv};
ghost use Rattle.histories.specs.Answered.{AnswersAsked};
ghost use Rattle.store_reports.specs.CsvRuns.{AddsRun, AreSums, IsCsv, csv_asked};

use crate::sinks::NamedRows;
use byte_io::SharedText;
use cost_exports::{CellSums, csv_text};
use histories::{Answer, Refusal};
use requests::Selection;
use run_stores::{RunStore, StoreError};
use selected_runs::{RunFold, each_named_cell, fold_runs, select_runs};
use std::alloc::{AllocError, Global};

/// Adds the cells of a run, by the names of its events.
fn add_run<S: RunStore>(
    store: &mut S,
    alloc: Global,
    names: &S::Names,
    number: u32,
    sums: CellSums,
) -> Result<CellSums, StoreError>
    ensures told { Told S.StoreState result store.old store.new (λ t all. S.Names.name_rows names.now ≡ t.names → AddsRun t number sums all) }
    ensures of_events { Told S.StoreState result store.old store.new (λ t _. (head : FileHead) × IsHeadIn number t head
        × AllByRecursion (IsOfAnEvent (length head.events)) (cells_in number t)) }
    ensures asks { AsksIfOpen S.StoreState (is_ok result) store.old store.new }
{
    // Sums that are alive at a way out cost the prover much, and so does a head.
    let head = match store.head_of(alloc, number) {
        Ok(head) => head,
        Err(end) => {
            drop(sums);
            return Err(end);
        }
    };
    let events = head.events.as_slice();
    let rows = NamedRows { events, sums };
    match each_named_cell(store, number, names, events.len(), rows) {
        Ok(NamedRows { events: _, sums }) => {
            drop(head);
            Ok(sums)
        }
        Err(end) => {
            drop(head);
            Err(end)
        }
    }
}

/// Adds runs to what places cost by the names of events, by the names that are held.
#[derive(Drop)]
struct CellsOfRuns<'n, N> {
    alloc: Global,
    names: &'n N,
}

impl<S: RunStore> RunFold<S> for CellsOfRuns<'_, S::Names> {
    ghost use Rattle.std.specs.Prelude.{◌≡◌};
    ghost use Rattle.store_reports.specs.CsvRuns.{AddsRun};

    type Run = u32;

    type Sums = CellSums;

    ghost Step = { λ s t number old new. S.Names.name_rows s.names.now ≡ t.names → AddsRun t number old new };

    fn add(&self, store: &mut S, number: &u32, sums: CellSums) -> Result<CellSums, StoreError> {
        add_run(store, self.alloc, self.names, *number, sums)
    }
}

/// The self costs of some runs, by the names of their events.
fn sums_of_runs<S: RunStore>(
    store: &mut S,
    alloc: Global,
    numbers: &[u32],
) -> Result<CellSums, StoreError>
    ensures told { Told S.StoreState result store.old store.new (λ t sums. AreSums t numbers.now sums) }
    ensures asks { AsksIfOpen S.StoreState (is_ok result) store.old store.new }
{
    let names = store.names_of(alloc)?;
    let cells = CellsOfRuns {
        alloc,
        names: &names,
    };
    fold_runs(store, &cells, numbers, CellSums::new(alloc))
}

/// The self costs above 0 by object, file, function, line and event, over the runs of a selection, whose text
/// is the answer; or the refusal of a run or a group that is not held. Errors: `Memory`; and `Store` for a
/// call of the database that fails, for rows out of form and for sums of 2^112 or more, which no files that
/// are held sum to.
pub fn csv_sums<S: RunStore>(
    store: &mut S,
    alloc: Global,
    selection: &Selection<&[u8]>,
) -> Result<Result<CellSums, Refusal>, StoreError>
    ensures { AnswersAsked S.StoreState (λ t. IsCsv t (plain_selection selection.now)) (Csv (plain_selection selection.now))
        (csv_asked result) store.old store.new }
{
    let numbers = match select_runs(store, alloc, selection)? {
        Ok(numbers) => numbers,
        Err(refusal) => return Ok(Err(refusal)),
    };
    let sums = sums_of_runs(store, alloc, numbers.as_slice())?;
    Ok(Ok(sums))
}

/// The text of some sums.
fn text_of_sums(alloc: Global, most: usize, sums: CellSums) -> Result<SharedText, AllocError>
    ensures { IfOk result (λ text. text ≡ csv_text sums) }
{
    let text = csv_text(alloc, most, &sums);
    // Sums that are alive at a way out cost the prover much.
    drop(sums);
    Ok(SharedText::from_list(alloc, text?))
}

/// Answers the sums of `csv_sums`: a text of CSV, or the refusal. Errors: those of `csv_sums`. A text of more than `most`
/// bytes is refused as one that there is no memory for.
pub fn csv_answer<S: RunStore>(
    store: &mut S,
    alloc: Global,
    selection: &Selection<&[u8]>,
    most: usize,
) -> Result<Answer, StoreError>
    ensures { AnswersAsked S.StoreState (λ t. IsCsv t (plain_selection selection.now)) (Csv (plain_selection selection.now)) result store.old store.new }
{
    match csv_sums(store, alloc, selection)? {
        Ok(sums) => {
            let text = text_of_sums(alloc, most, sums)?;
            Ok(Answer::Text(text))
        }
        Err(refusal) => Ok(Answer::Refused(refusal)),
    }
}
