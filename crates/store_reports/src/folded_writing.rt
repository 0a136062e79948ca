// The answers to questions of stacks as folded text.
ghost use Rattle.std.specs.Prelude.{◌≡◌, ◌≤◌, length, IfOk};
ghost use Rattle.std.specs.Result.{is_ok};
ghost use Rattle.report_texts.specs.Folded.{folded_text};
ghost use Rattle.run_stores.specs.Calls.{Told, AsksIfOpen};
ghost use Rattle.requests.specs.Plain.{plain_selection};
ghost use Rattle.requests.specs.declared.queries.Query.TheVariants.{Folded};
ghost use Rattle.histories.specs.Answered.{AnswersAsked};
ghost use Rattle.store_reports.specs.FoldedRuns.{IsFolded, folded_over};

use crate::sinks::StackRows;
use byte_io::SharedText;
use cost_exports::{StackSums, folded_text};
use histories::Answer;
use requests::Selection;
use run_stores::{RunStore, StoreError};
use selected_runs::{RunFold, fold_runs, select_runs};
use std::alloc::{AllocError, Global};

/// Adds the stacks of runs with their counts. Callgrind runs have none.
#[derive(Drop)]
struct StacksOfRuns;

impl<S: RunStore> RunFold<S> for StacksOfRuns {
    ghost use Rattle.std.specs.Prelude.{◌≡◌, ◌≤◌, length, IfOk};
    ghost use Rattle.store_reports.specs.FoldedRuns.{stacks_from};

    type Run = u32;

    type Sums = StackRows;

    ghost Step = { λ s t number old new. new.sums ≡ stacks_from t old.sums number };

    fn add(&self, store: &mut S, number: &u32, rows: StackRows) -> Result<StackRows, StoreError> {
        store.each_stack(*number, rows)
    }
}

/// Stacks with their counts as folded text.
fn stacks_text(alloc: Global, most: usize, sums: &StackSums) -> Result<SharedText, AllocError>
    ensures text { IfOk result (λ text. text ≡ folded_text sums.now) }
    ensures short { IfOk result (λ text. length text ≤ most) }
{
    let text = folded_text(alloc, most, sums)?;
    Ok(SharedText::from_list(alloc, text))
}

/// The stacks of some runs as folded text.
fn text_of_runs<S: RunStore>(
    store: &mut S,
    alloc: Global,
    numbers: &[u32],
    most: usize,
) -> Result<SharedText, StoreError>
    ensures told { Told S.StoreState result store.old store.new (λ t text. text ≡ folded_over t numbers.now) }
    ensures asks { AsksIfOpen S.StoreState (is_ok result) store.old store.new }
{
    let rows = StackRows {
        sums: StackSums::new(alloc),
    };
    let all = fold_runs(store, &StacksOfRuns, numbers, rows)?;
    Ok(stacks_text(alloc, most, &all.sums)?)
}

/// Answers the stacks of folded runs with their counts, over the runs of a selection: a folded text, or the
/// refusal of a run or a group that is not held. Errors: `Memory`; and `Store` for a call of the database
/// that fails, for rows out of form and for counts that sum to 2^112 or more, which no files that are held
/// sum to. A text of more than `most` bytes is refused as one that there is no memory for.
pub fn folded_answer<S: RunStore>(
    store: &mut S,
    alloc: Global,
    selection: &Selection<&[u8]>,
    most: usize,
) -> Result<Answer, StoreError>
    ensures { AnswersAsked S.StoreState (λ t. IsFolded t (plain_selection selection.now)) (Folded (plain_selection selection.now)) result store.old store.new }
{
    let numbers = match select_runs(store, alloc, selection)? {
        Ok(numbers) => numbers,
        Err(refusal) => return Ok(Answer::Refused(refusal)),
    };
    let text = text_of_runs(store, alloc, numbers.as_slice(), most)?;
    Ok(Answer::Text(text))
}
