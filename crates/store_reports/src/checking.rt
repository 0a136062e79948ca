// The answers to questions of what files state.
ghost use Rattle.std.specs.Prelude.{◌≡◌, ◌++◌, flat_map, OnOk};
ghost use Rattle.std.specs.Result.{is_ok};
ghost use Rattle.report_texts.specs.Verifying.{verified, verify_text};
ghost use Rattle.run_stores.specs.Calls.{Told, AsksIfOpen};
ghost use Rattle.run_stores.specs.HeldHeads.{IsHeadIn};
ghost use Rattle.requests.specs.Plain.{plain_selection};
ghost use Rattle.requests.specs.declared.queries.Query.TheVariants.{Verify};
ghost use Rattle.histories.specs.Answered.{AnswersAsked};
ghost use Rattle.store_reports.specs.Checked.{IsChecked, IsVerified, AreChecked};

use crate::cell_sums::check_cells;
use byte_io::SharedText;
use cg_formulas::FileHead;
use cg_text::ListVec;
use cost_reports::verify;
use histories::Answer;
use requests::Selection;
use run_stores::{RunStore, StoreError};
use selected_runs::{RunFold, fold_runs, select_runs};
use std::alloc::{AllocError, Global};

/// Adds the lines of a run: the sums of its events beside what its head states.
fn push_lines(
    text: &mut Vec<u8>,
    alloc: Global,
    number: u32,
    head: &FileHead,
    sums: &[u128],
    most: usize,
) -> Result<(), AllocError>
    ensures { OnOk result (text.new.items ≡ text.old.items ++ verify_text (verified number head.now.events sums.now head.now.stated)) }
{
    let checks = verify(alloc, number, head, sums)?;
    checks.push_text(text, most)
}

/// Adds the lines of a run of this head. Its cells are read, and have to sum to the sums of its events.
fn push_sums<S: RunStore>(
    store: &mut S,
    alloc: Global,
    names: &S::Names,
    number: u32,
    head: &FileHead,
    text: &mut Vec<u8>,
    most: usize,
) -> Result<(), StoreError>
    ensures told { Told S.StoreState result store.old store.new (λ t _. S.Names.name_rows names.now ≡ t.names → IsHeadIn number t head.now
        → IsChecked t number text.old.items text.new.items) }
    ensures asks { AsksIfOpen S.StoreState (is_ok result) store.old store.new }
{
    let sums = store.sums_of(alloc, number)?;
    check_cells(store, alloc, names, number, sums.as_slice())?;
    push_lines(text, alloc, number, head, sums.as_slice(), most)?;
    Ok(())
}

/// Adds the lines of a run: the sums of its events beside the totals that its file states.
fn check_run<S: RunStore>(
    store: &mut S,
    alloc: Global,
    names: &S::Names,
    number: u32,
    text: &mut Vec<u8>,
    most: usize,
) -> Result<(), StoreError>
    ensures told { Told S.StoreState result store.old store.new (λ t _. S.Names.name_rows names.now ≡ t.names
        → IsChecked t number text.old.items text.new.items) }
    ensures asks { AsksIfOpen S.StoreState (is_ok result) store.old store.new }
{
    let head = store.head_of(alloc, number)?;
    push_sums(store, alloc, names, number, &head, text, most)
}

/// Adds the lines of runs to a text, by the names that are held.
#[derive(Drop)]
struct ChecksOfRuns<'n, N> {
    alloc: Global,
    names: &'n N,
    most: usize,
}

impl<S: RunStore> RunFold<S> for ChecksOfRuns<'_, S::Names> {
    ghost use Rattle.std.specs.Prelude.{◌≡◌};
    ghost use Rattle.store_reports.specs.Checked.{IsChecked};

    type Run = u32;

    type Sums = Vec<u8>;

    ghost Step = { λ s t number old new. S.Names.name_rows s.names.now ≡ t.names → IsChecked t number old.items new.items };

    fn add(&self, store: &mut S, number: &u32, text: Vec<u8>) -> Result<Vec<u8>, StoreError> {
        let mut text = text;
        check_run(store, self.alloc, self.names, *number, &mut text, self.most)?;
        Ok(text)
    }
}

/// The lines of runs.
fn check_runs<S: RunStore>(
    store: &mut S,
    alloc: Global,
    numbers: &[u32],
    most: usize,
) -> Result<SharedText, StoreError>
    ensures told { Told S.StoreState result store.old store.new (λ t text. AreChecked t numbers.now text) }
    ensures asks { AsksIfOpen S.StoreState (is_ok result) store.old store.new }
{
    let names = store.names_of(alloc)?;
    let checks = ChecksOfRuns {
        alloc,
        names: &names,
        most,
    };
    let text = fold_runs(store, &checks, numbers, Vec::new(alloc))?;
    Ok(SharedText::from_list(alloc, ListVec::from_vec(text)))
}

/// Answers what the sums of the events are beside the totals that the files state, for the runs of
/// a selection: a text, or the refusal of a run or a group that is not held. Every cell of these runs is read.
/// Errors: `Memory`; and `Store` for a call of the database that fails, for rows out of form, for cells that do
/// not sum to the sums of their events, and for a name of a cell that is not held. A text of more than `most` bytes is
/// refused as one that there is no memory for.
pub fn verify_answer<S: RunStore>(
    store: &mut S,
    alloc: Global,
    selection: &Selection<&[u8]>,
    most: usize,
) -> Result<Answer, StoreError>
    ensures { AnswersAsked S.StoreState (λ t. IsVerified t (plain_selection selection.now))
        (Verify (plain_selection selection.now)) result store.old store.new }
{
    let numbers = match select_runs(store, alloc, selection)? {
        Ok(numbers) => numbers,
        Err(refusal) => return Ok(Answer::Refused(refusal)),
    };
    let text = check_runs(store, alloc, numbers.as_slice(), most)?;
    Ok(Answer::Text(text))
}
