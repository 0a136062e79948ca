// The answers to questions of differences.
ghost use Rattle.std.specs.Prelude.{◌≡◌, ◌++◌, false, List, IfOk, option_map};
ghost use Rattle.std.specs.Result.{is_ok};
ghost use Rattle.report_texts.specs.Differences.{difference_of, difference_text};
ghost use Rattle.plain_tables.specs.Tables.{NameRow};
ghost use Rattle.run_stores.specs.Calls.{Asks, Told, AsksIfOpen};
ghost use Rattle.selected_runs.specs.Named.{AreOf};
ghost use Rattle.selected_runs.specs.Sums.{numbers_told};
ghost use Rattle.requests.specs.Plain.{plain_selection};
ghost use Rattle.requests.specs.declared.queries.Query.TheVariants.{Subtract};
ghost use Rattle.histories.specs.Answered.{AnswersAsked, has_changed};
ghost use Rattle.store_reports.specs.Compared.{AnswersDifference, AreBaselineIn, AreComparedIn, IsSubtracted, difference_over, named_sums};

use crate::merging::number_runs;
use byte_io::SharedText;
use cost_reports::{LentSums, subtract};
use cost_rows::Key;
use histories::{Answer, Refusal};
use requests::Selection;
use run_stores::{NameTable, RunStore, StoreError};
use selected_runs::{
    Counted, NumberSums, Numbers, count_runs, have_event, name_text, one_run, select_runs,
};
use std::alloc::{AllocError, Global};

/// The baseline of a group, as a selection of one run.
fn baseline_run<S: RunStore>(
    store: &mut S,
    alloc: Global,
    name: &[u8],
) -> Result<Numbers, StoreError>
    ensures told { Told S.StoreState result store.old store.new (λ t found. AreBaselineIn t name.now found) }
    ensures asks { Asks S.StoreState (is_ok result) store.old store.new }
{
    match store.baseline_of(name_text(name))? {
        Some(number) => one_run(store, alloc, number),
        None => Ok(Err(Refusal::NoBaseline)),
    }
}

/// The runs that a selection is compared with: those of the second one, or the baseline of the first.
fn compared_runs<S: RunStore>(
    store: &mut S,
    alloc: Global,
    first: &Selection<&[u8]>,
    second: &Option<Selection<&[u8]>>,
) -> Result<Numbers, StoreError>
    ensures told { Told S.StoreState result store.old store.new (λ t found. AreComparedIn t (plain_selection first.now)
        (option_map plain_selection second.now) found) }
    ensures asks { AsksIfOpen S.StoreState (is_ok result) store.old store.new }
{
    if let Some(second) = second {
        return select_runs(store, alloc, second);
    }
    match first {
        Selection::Group(name) => baseline_run(store, alloc, name),
        _ => Ok(Err(Refusal::NoBaseline)),
    }
}

/// The text of what some sums are less others.
fn text_of_sums<'n>(
    alloc: Global,
    first: &LentSums<'n>,
    second: &LentSums<'n>,
    event: &[u8],
    most: usize,
) -> Result<SharedText, AllocError>
    ensures { IfOk result (λ text. text ≡ difference_text event.now (difference_of first.now.key first.now.sums second.now.sums)) }
{
    let difference = subtract(alloc, first, second)?;
    difference.text(alloc, most, event)
}

/// The text of what some sums are less others, of which the names are given.
fn text_of_numbers<N: NameTable>(
    alloc: Global,
    names: &N,
    firsts: &NumberSums,
    seconds: &NumberSums,
    event: &[u8],
    most: usize,
) -> Result<SharedText, StoreError>
    ensures { IfOk result (λ text. (all : List NameRow) → AreOf all (N.name_rows names.now)
        → text ≡ difference_text event.now (difference_of firsts.now.key (named_sums all firsts.now) (named_sums all seconds.now))) }
{
    let first = firsts.named(alloc, names)?;
    let second = seconds.named(alloc, names)?;
    let text = text_of_sums(alloc, &first, &second, event, most);
    // Sums that are alive at a way out cost the prover much.
    drop(first);
    drop(second);
    Ok(text?)
}

/// The numbers of the names of two lists of sums.
fn numbers_of_both(
    alloc: Global,
    firsts: &NumberSums,
    seconds: &NumberSums,
) -> Result<Vec<u32>, AllocError>
    ensures { IfOk result (λ numbers. numbers.items ≡ numbers_told firsts.now.key firsts.now.sums ++ numbers_told seconds.now.key seconds.now.sums) }
{
    let mut numbers = firsts.numbers(alloc)?;
    let more = seconds.numbers(alloc)?;
    numbers.extend_from_slice(&more)?;
    Ok(numbers)
}

/// The text of what some sums are less others: the names of both are asked for.
fn text_of_both<S: RunStore>(
    store: &mut S,
    alloc: Global,
    firsts: &NumberSums,
    seconds: &NumberSums,
    event: &[u8],
    most: usize,
) -> Result<SharedText, StoreError>
    ensures told { Told S.StoreState result store.old store.new (λ t text.
        text ≡ difference_text event.now (difference_of firsts.now.key (named_sums t.names firsts.now) (named_sums t.names seconds.now))) }
    ensures asks { AsksIfOpen S.StoreState (is_ok result) store.old store.new }
{
    let numbers = numbers_of_both(alloc, firsts, seconds)?;
    let names = store.names_among(alloc, &numbers)?;
    text_of_numbers(alloc, &names, firsts, seconds, event, most)
}

/// The text of the difference between some runs and others: only the names of their sums are asked for.
fn difference_text<S: RunStore>(
    store: &mut S,
    alloc: Global,
    firsts: &[Counted],
    seconds: &[Counted],
    key: Key,
    event: &[u8],
    most: usize,
) -> Result<SharedText, StoreError>
    ensures told { Told S.StoreState result store.old store.new (λ t text. text ≡ difference_over t firsts.now seconds.now key event.now) }
    ensures asks { AsksIfOpen S.StoreState (is_ok result) store.old store.new }
{
    let first = number_runs(store, alloc, firsts, key)?;
    match number_runs(store, alloc, seconds, key) {
        Ok(second) => {
            let text = text_of_both(store, alloc, &first, &second, event, most);
            // Sums that are alive at a way out cost the prover much.
            drop(first);
            drop(second);
            text
        }
        Err(end) => {
            drop(first);
            Err(end)
        }
    }
}

/// The answer over the runs of some numbers and those of others.
fn answer_difference<S: RunStore>(
    store: &mut S,
    alloc: Global,
    numbers: &[u32],
    others: &[u32],
    key: Key,
    event: &[u8],
    most: usize,
) -> Result<Answer, StoreError>
    ensures told { Told S.StoreState result store.old store.new (λ t answer. AnswersDifference t numbers.now others.now key event.now answer) }
    ensures still { has_changed result ≡ false }
    ensures asks { AsksIfOpen S.StoreState (is_ok result) store.old store.new }
{
    let firsts = count_runs(store, alloc, numbers, event)?;
    let seconds = count_runs(store, alloc, others, event)?;
    if !have_event(&firsts) && !have_event(&seconds) {
        return Ok(Answer::Refused(Refusal::NoSuchEvent));
    }
    let text = difference_text(store, alloc, &firsts, &seconds, key, event, most)?;
    Ok(Answer::Text(text))
}

/// Answers what the runs of the first selection cost less what those of the second do, by key, or, where
/// no second one is given, less the baseline of the group that is the first: a text, or the refusal of a
/// run or a group that is not held, of a first selection without a baseline, or of an event that none of
/// the runs has. Errors: `Memory`; and `Store` as for a report by key. A text of more than `most` bytes is refused as
/// one that there is no memory for.
pub fn subtract_answer<S: RunStore>(
    store: &mut S,
    alloc: Global,
    first: &Selection<&[u8]>,
    second: &Option<Selection<&[u8]>>,
    key: Key,
    event: &[u8],
    most: usize,
) -> Result<Answer, StoreError>
    ensures { AnswersAsked S.StoreState (λ t. IsSubtracted t (plain_selection first.now) (option_map plain_selection second.now) key event.now)
        (Subtract (plain_selection first.now) (option_map plain_selection second.now) key event.now) result store.old store.new }
{
    let numbers = match select_runs(store, alloc, first)? {
        Ok(numbers) => numbers,
        Err(refusal) => return Ok(Answer::Refused(refusal)),
    };
    let others = match compared_runs(store, alloc, first, second)? {
        Ok(numbers) => numbers,
        Err(refusal) => return Ok(Answer::Refused(refusal)),
    };
    answer_difference(
        store,
        alloc,
        numbers.as_slice(),
        others.as_slice(),
        key,
        event,
        most,
    )
}
