// What is asked over a store, each with its answer.
ghost use Rattle.std.specs.Prelude.{◌≡◌, ◌⊎◌, Err, IfOk};
ghost use Rattle.plain_tables.specs.declared.errors.StoreError.TheVariants.{Memory};
ghost use Rattle.histories.specs.History.{Annotate};
ghost use Rattle.histories.specs.declared.answers.Answer.{Answer};
ghost use Rattle.requests.specs.Plain.{plain_query, plain_selection};
ghost use Rattle.histories.specs.Answered.{AnswersAsked};
ghost use Rattle.warehouse.specs.Answered.{IsShort, WasAnsweredOver};
ghost use Rattle.warehouse.specs.FromTables.{AnswersIn, WasAnnotated};

use crate::refusals::unread_answer;
use byte_io::{Source, read_to_end};
use histories::{Answer, answer_of};
use report_texts::CallSide;
use requests::{Query, Selection};
use run_stores::{RunStore, StoreError};
use std::alloc::Global;
use store_calls::{calls_answer, inclusive_answer};
use store_commands::{groups_answer, runs_answer};
use store_reports::{
    annotate_answer, by_answer, csv_answer, folded_answer, subtract_answer, verify_answer,
};

/// How many bytes a source that is annotated may have.
const SOURCE_BYTES: u64 = 16_777_216;

/// What a question is answered. No text is made much longer than `most` bytes.
pub(crate) fn answer<S: RunStore>(
    store: &mut S,
    alloc: Global,
    most: usize,
    query: &Query<&[u8]>,
) -> Result<Answer, StoreError>
    ensures { AnswersAsked S.StoreState (AnswersIn (plain_query query.now)) (plain_query query.now) result store.old store.new }
{
    match query {
        Query::Runs => runs_answer(store, alloc, most),
        Query::Groups => groups_answer(store, alloc, most),
        Query::By {
            selection,
            key,
            event,
            cut,
        } => by_answer(store, alloc, selection, *key, event, *cut, most),
        Query::Verify(selection) => verify_answer(store, alloc, selection, most),
        Query::Inclusive { selection, event } => {
            inclusive_answer(store, alloc, selection, event, most)
        }
        Query::Callers {
            selection,
            event,
            object,
            function,
        } => calls_answer(
            store,
            alloc,
            selection,
            CallSide::Callers,
            event,
            object,
            function,
            most,
        ),
        Query::Callees {
            selection,
            event,
            object,
            function,
        } => calls_answer(
            store,
            alloc,
            selection,
            CallSide::Callees,
            event,
            object,
            function,
            most,
        ),
        Query::Subtract {
            first,
            second,
            key,
            event,
        } => subtract_answer(store, alloc, first, second, *key, event, most),
        Query::Annotate {
            selection,
            event,
            file,
            source,
        } => annotate_answer(store, alloc, selection, event, file, source, most),
        Query::Csv(selection) => csv_answer(store, alloc, selection, most),
        Query::Folded(selection) => folded_answer(store, alloc, selection, most),
    }
}

/// Refuses a text of more than `most` bytes, as one that there is no memory for.
pub(crate) fn keep_short(
    answered: Result<Answer, StoreError>,
    most: usize,
) -> Result<Answer, StoreError>
    ensures kept { (result ≡ answered) ⊎ (result ≡ Err Memory) }
    ensures short { IfOk result (IsShort most) }
{
    if let Ok(Answer::Text(text)) = &answered {
        if text.len() > most {
            return Err(StoreError::Memory);
        }
    }
    answered
}

/// Shows what each line of a source costs. It is read first.
pub(crate) fn annotate_in<S: RunStore, R: Source>(
    store: &mut S,
    alloc: Global,
    most: usize,
    selection: &Selection<&[u8]>,
    event: &[u8],
    file: &[u8],
    source: &mut R,
) -> Answer
    ensures answered { (limits : _)
        → WasAnsweredOver S.StoreState R.reads limits (Annotate (plain_selection selection.now) event.now file.now) source.old source.new
        result store.old store.new }
    ensures found { WasAnnotated S.StoreState R.reads (plain_selection selection.now) event.now file.now source.old source.new
        result store.old store.new }
    ensures short { IsShort most result }
{
    match read_to_end(alloc, SOURCE_BYTES, source) {
        Ok(text) => {
            let answered = annotate_answer(store, alloc, selection, event, file, &text, most);
            answer_of(keep_short(answered, most))
        }
        Err(unread) => unread_answer(unread),
    }
}
