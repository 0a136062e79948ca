// The answers to questions of who calls a function, and whom it calls.
ghost use Rattle.std.specs.Prelude.{◌≡◌, ◌||◌, IfOk};
ghost use Rattle.std.specs.List.{list_any};
ghost use Rattle.std.specs.Result.{is_ok};
ghost use Rattle.report_texts.specs.Calls.{call_report_of, call_report_text};
ghost use Rattle.report_texts.specs.Functions.{function_spot};
ghost use Rattle.run_stores.specs.Calls.{Told, AsksIfOpen};
ghost use Rattle.requests.specs.Plain.{calls_query, plain_selection};
ghost use Rattle.histories.specs.Answered.{AnswersAsked};
ghost use Rattle.store_calls.specs.FunctionCalls.{AreCallsShown, IsCallsText, is_in_rows, text_taken};
ghost use Rattle.store_calls.specs.KeptCalls.{IsAsked, kept_of, spot_asked, sums_named, taken_named};

use crate::asked_functions::{AskedFunction, asked_function};
use crate::kept_calls::KeepsCalls;
use crate::kept_rows::KeptCalls;
use crate::known_names::is_in_runs;
use crate::named_calls::{numbers_of, sums_named};
use byte_io::SharedText;
use cost_reports::{CallSide, CallSums, calls};
use histories::{Answer, Refusal};
use requests::Selection;
use run_stores::{RunStore, StoreError};
use selected_runs::{Counted, RunFold, event_runs, fold_runs};
use std::alloc::{AllocError, Global};

/// Keeps the calls of runs that are of the function that is asked.
#[derive(Drop)]
struct CallsOfRuns<'a> {
    alloc: Global,
    asked: &'a AskedFunction<'a>,
}

impl<S: RunStore> RunFold<S> for CallsOfRuns<'_> {
    ghost use Rattle.store_calls.specs.FunctionCalls.{IsTakenFrom};
    ghost use Rattle.store_calls.specs.KeptCalls.{IsAsked, kept_of, spot_asked, taken_named};

    type Run = Counted;

    type Sums = KeptCalls;

    ghost Step = { λ s t run old new. IsAsked t.names s.asked.now
        → IsTakenFrom t run (taken_named t.names (spot_asked s.asked.now) (kept_of old)) (taken_named t.names (spot_asked s.asked.now) (kept_of new)) };

    fn add(&self, store: &mut S, run: &Counted, calls: KeptCalls) -> Result<KeptCalls, StoreError> {
        let rows = KeepsCalls {
            numbers: self.asked.numbers,
            counts: run.event_counts(),
            calls,
        };
        let all = store.each_call(self.alloc, run.number, run.events, rows)?;
        Ok(all.calls)
    }
}

/// Whether some runs know a function: a call of it was seen, or it has self costs or a frame in a stack.
fn is_known<S: RunStore>(
    store: &mut S,
    runs: &[Counted],
    asked: &AskedFunction<'_>,
    is_called: bool,
) -> Result<bool, StoreError>
    ensures told { Told S.StoreState result store.old store.new (λ t known. IsAsked t.names asked.now
        → known ≡ is_called || list_any (is_in_rows t (spot_asked asked.now)) runs.now) }
    ensures asks { AsksIfOpen S.StoreState (is_ok result) store.old store.new }
{
    if is_called {
        return Ok(true);
    }
    is_in_runs(store, runs, asked)
}

/// The text of what the calls of a function sum to.
fn text_of_sums(
    alloc: Global,
    sums: &CallSums<'_>,
    event: &[u8],
    most: usize,
) -> Result<SharedText, AllocError>
    ensures { IfOk result (λ text. text ≡ call_report_text event.now (call_report_of sums.now)) }
{
    let report = calls(alloc, sums)?;
    report.text(alloc, most, event)
}

/// The text of the calls that were kept: the names of the functions on their other side are asked for, and no more.
fn text_of_calls<S: RunStore>(
    store: &mut S,
    alloc: Global,
    asked: &AskedFunction<'_>,
    calls: &KeptCalls,
    event: &[u8],
    most: usize,
) -> Result<SharedText, StoreError>
    ensures told { Told S.StoreState result store.old store.new (λ t text.
        text ≡ call_report_text event.now (call_report_of (sums_named t.names (spot_asked asked.now) (kept_of calls.now)))) }
    ensures asks { AsksIfOpen S.StoreState (is_ok result) store.old store.new }
{
    let numbers = numbers_of(alloc, &calls.rows)?;
    let names = store.names_among(alloc, &numbers)?;
    let sums = sums_named(alloc, &names, *asked, calls)?;
    let text = text_of_sums(alloc, &sums, event, most)?;
    Ok(text)
}

/// The text of the calls that were kept of some runs, if one of them knows the function.
fn text_if_known<S: RunStore>(
    store: &mut S,
    alloc: Global,
    runs: &[Counted],
    asked: &AskedFunction<'_>,
    calls: &KeptCalls,
    event: &[u8],
    most: usize,
) -> Result<Option<SharedText>, StoreError>
    ensures told { Told S.StoreState result store.old store.new (λ t text. IsAsked t.names asked.now
        → text ≡ text_taken t runs.now event.now (taken_named t.names (spot_asked asked.now) (kept_of calls.now))) }
    ensures asks { AsksIfOpen S.StoreState (is_ok result) store.old store.new }
{
    if !is_known(store, runs, asked, calls.known)? {
        return Ok(None);
    }
    let text = text_of_calls(store, alloc, asked, calls, event, most)?;
    Ok(Some(text))
}

/// The text of the calls of a function over some runs, if one of them knows it.
fn calls_text<S: RunStore>(
    store: &mut S,
    alloc: Global,
    runs: &[Counted],
    side: CallSide,
    event: &[u8],
    object: &[u8],
    name: &[u8],
    most: usize,
) -> Result<Option<SharedText>, StoreError>
    ensures told { Told S.StoreState result store.old store.new (λ t text. IsCallsText t runs.now side (function_spot object.now name.now) event.now text) }
    ensures asks { AsksIfOpen S.StoreState (is_ok result) store.old store.new }
{
    let asked = asked_function(store, alloc, object, name)?;
    let adder = CallsOfRuns {
        alloc,
        asked: &asked,
    };
    let all = fold_runs(store, &adder, runs, KeptCalls::new(alloc, side))?;
    text_if_known(store, alloc, runs, &asked, &all, event, most)
}

/// Answers who calls a function of an object, or whom it calls, over the runs of a selection: a text, or
/// the refusal of a run or a group that is not held, of an event that none of the runs has, or of a
/// function that none of them knows. Errors: `Memory`; and `Store` as for a report by key. A text of more than `most`
/// bytes is refused as one that there is no memory for.
pub fn calls_answer<S: RunStore>(
    store: &mut S,
    alloc: Global,
    selection: &Selection<&[u8]>,
    side: CallSide,
    event: &[u8],
    object: &[u8],
    function: &[u8],
    most: usize,
) -> Result<Answer, StoreError>
    ensures { AnswersAsked S.StoreState (λ t. AreCallsShown t (plain_selection selection.now) side event.now object.now function.now)
        (calls_query side (plain_selection selection.now) event.now object.now function.now) result store.old store.new }
{
    let runs = match event_runs(store, alloc, selection, event)? {
        Ok(runs) => runs,
        Err(refusal) => return Ok(Answer::Refused(refusal)),
    };
    let runs = runs.as_slice();
    match calls_text(store, alloc, runs, side, event, object, function, most)? {
        Some(text) => Ok(Answer::Text(text)),
        None => Ok(Answer::Refused(Refusal::NoSuchName)),
    }
}
