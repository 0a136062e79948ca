// The answers to questions by key.
ghost use Rattle.std.specs.Prelude.{◌≡◌, ℕ, [], List, fold, map, IfOk};
ghost use Rattle.std.specs.List.{AllByRecursion};
ghost use Rattle.std.specs.Result.{is_ok};
ghost use Rattle.cost_rows.specs.KeySums.{total_of};
ghost use Rattle.cost_rows.specs.Sums.{Spot};
ghost use Rattle.cost_rows.specs.declared.keys.Key.{Key};
ghost use Rattle.report_texts.specs.KeyReports.{report_of};
ghost use Rattle.report_texts.specs.KeyTexts.{key_report_text};
ghost use Rattle.cost_reports.specs.Enough.{AreEnough};
ghost use Rattle.run_stores.specs.Book.{IsHeld};
ghost use Rattle.run_stores.specs.Calls.{Asks, AsksIfOpen, Told};
ghost use Rattle.run_stores.specs.Names.{AreAmong};
ghost use Rattle.selected_runs.specs.Named.{named_sum};
ghost use Rattle.selected_runs.specs.Sums.{numbers_told};
ghost use Rattle.requests.specs.Plain.{plain_selection};
ghost use Rattle.requests.specs.declared.queries.Query.TheVariants.{By};
ghost use Rattle.histories.specs.Answered.{AnswersAsked};
ghost use Rattle.selected_runs.specs.declared.counting.Counted.{Counted};
ghost use Rattle.store_reports.specs.Reported.{AreShown, IsReported, numbers_from, report_over};

use crate::merging::number_runs;
use byte_io::SharedText;
use cost_reports::{Cut, by};
use cost_rows::Key;
use histories::Answer;
use requests::Selection;
use run_stores::{NameTable, RunStore, StoreError};
use selected_runs::{NumberSums, RankedSums, event_runs};
use std::alloc::Global;

/// Of some sums those that a cut can show. Errors: `Memory`; and `Store` where the name of a sum that is left out is
/// not held: those of the others are missed when these are named.
fn shown_sums<S: RunStore>(
    store: &mut S,
    alloc: Global,
    sums: NumberSums,
    cut: Cut,
) -> Result<RankedSums, StoreError>
    ensures told { Told S.StoreState result store.old store.new (λ t shown. AreShown t cut sums shown) }
    ensures asks { AsksIfOpen S.StoreState (is_ok result) store.old store.new }
{
    let numbers = sums.numbers(alloc);
    let mut shown = sums.ranked();
    let numbers = numbers?;
    let count = shown.len();
    shown.keep_shown(cut);
    if shown.len() == count {
        return Ok(shown);
    }
    let held = store.holds_names(alloc, &numbers);
    drop(numbers);
    if held? {
        Ok(shown)
    } else {
        Err(StoreError::Store)
    }
}

/// The text of the report of sums that a cut can show, of which the names are given.
fn text_of_sums<N: NameTable>(
    alloc: Global,
    sums: &RankedSums,
    names: &N,
    event: &[u8],
    cut: Cut,
    most: usize,
) -> Result<SharedText, StoreError>
    ensures text { IfOk result (λ text. (all : List (Spot × ℕ)) → total_of all ≡ sums.now.total
        → AreEnough (λ e. e.1) cut all (map (named_sum (N.name_rows names.now) sums.now.key) sums.now.sums)
        → text ≡ key_report_text event.now (report_of sums.now.key cut all)) }
    ensures held { IfOk result (λ _. AllByRecursion (IsHeld (N.name_rows names.now)) (numbers_told sums.now.key sums.now.sums)) }
{
    let named = sums.named(alloc, names)?;
    let report = by(alloc, sums.key(), &named, sums.total(), cut)?;
    let text = report.text(alloc, most, event)?;
    Ok(text)
}

/// The names that some sums tell.
fn names_of_shown<S: RunStore>(
    store: &mut S,
    alloc: Global,
    shown: &RankedSums,
) -> Result<S::Names, StoreError>
    ensures told { Told S.StoreState result store.old store.new (λ t names.
        AreAmong (numbers_told shown.now.key shown.now.sums) t.names (S.Names.name_rows names)) }
    ensures asks { Asks S.StoreState (is_ok result) store.old store.new }
{
    let numbers = shown.numbers(alloc)?;
    store.names_among(alloc, &numbers)
}

/// The text of the report over the runs that some sums are of: only the names of sums that a cut can show are asked for.
fn shown_text<S: RunStore>(
    store: &mut S,
    alloc: Global,
    sums: NumberSums,
    event: &[u8],
    cut: Cut,
    most: usize,
) -> Result<SharedText, StoreError>
    ensures told { Told S.StoreState result store.old store.new (λ t text. (key : Key) (runs : List Counted)
        → sums ≡ fold (numbers_from t) (record { key = key; sums = [] }) runs → text ≡ report_over t runs key event.now cut) }
    ensures asks { AsksIfOpen S.StoreState (is_ok result) store.old store.new }
{
    let shown = shown_sums(store, alloc, sums, cut)?;
    let names = names_of_shown(store, alloc, &shown)?;
    text_of_sums(alloc, &shown, &names, event, cut, most)
}

/// Answers where the cost of an event went, by key, over the runs of a selection: a text, or the refusal
/// of a run or a group that is not held, or of an event that none of the runs has. Errors: `Memory`; and
/// `Store` for a call of the database that fails, for rows out of form and for a sum of 2^112 or more,
/// which no files that are held sum to. A text of more than `most` bytes is refused as one that there is no memory for.
pub fn by_answer<S: RunStore>(
    store: &mut S,
    alloc: Global,
    selection: &Selection<&[u8]>,
    key: Key,
    event: &[u8],
    cut: Cut,
    most: usize,
) -> Result<Answer, StoreError>
    ensures { AnswersAsked S.StoreState (λ t. IsReported t (plain_selection selection.now) key event.now cut)
        (By (plain_selection selection.now) key event.now cut) result store.old store.new }
{
    let runs = match event_runs(store, alloc, selection, event)? {
        Ok(runs) => runs,
        Err(refusal) => return Ok(Answer::Refused(refusal)),
    };
    let sums = number_runs(store, alloc, runs.as_slice(), key);
    // Runs that are alive at a way out cost the prover much.
    drop(runs);
    let text = shown_text(store, alloc, sums?, event, cut, most)?;
    Ok(Answer::Text(text))
}
