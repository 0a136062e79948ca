// The runs that a selection names.
ghost use Rattle.std.specs.Prelude.{◌≡◌, ◌⊎◌, []};
ghost use Rattle.std.specs.Result.{is_ok};
ghost use Rattle.plain_tables.specs.Labels.{IsGroupName};
ghost use Rattle.run_stores.specs.Calls.{Asks, Told};
ghost use Rattle.requests.specs.Plain.{plain_selection};
ghost use Rattle.requests.specs.declared.selections.Selection.TheVariants as selections;
ghost use Rattle.selected_runs.specs.Selected.{AreSelectedIn};

use cg_text::ListVec;
use histories::Refusal;
use requests::Selection;
use run_stores::{RunStore, StoreError};
use std::alloc::Global;

/// Numbers of runs, or why there are none.
pub type Numbers = Result<ListVec<u32>, Refusal>;

/// All runs.
fn all_runs<S: RunStore>(store: &mut S, alloc: Global) -> Result<Numbers, StoreError>
    ensures told { Told S.StoreState result store.old store.new (λ t found. AreSelectedIn t selections.All found) }
    ensures asks { Asks S.StoreState (is_ok result) store.old store.new }
{
    let numbers = store.run_numbers(alloc)?;
    Ok(Ok(numbers))
}

/// A run, if it is held.
pub fn one_run<S: RunStore>(
    store: &mut S,
    alloc: Global,
    number: u32,
) -> Result<Numbers, StoreError>
    ensures told { Told S.StoreState result store.old store.new (λ t found. AreSelectedIn t (selections.Run number) found) }
    ensures asks { Asks S.StoreState (is_ok result) store.old store.new }
{
    if !store.has_run(number)? {
        return Ok(Err(Refusal::NoSuchRun));
    }
    let mut numbers = ListVec::new(alloc);
    numbers.push(number)?;
    Ok(Ok(numbers))
}

/// The text of a group's name. Bytes that are no text are no group's name, and neither is the empty
/// text, which represents them.
pub fn name_text(name: &[u8]) -> &str
    ensures named { IsGroupName name.now → result.now ≡ name.now }
    ensures other { (result.now ≡ name.now) ⊎ (result.now ≡ []) }
{
    match str::from_utf8(name) {
        Ok(text) => text,
        Err(_) => "",
    }
}

/// The members of a group, if it is there.
fn of_group<S: RunStore>(store: &mut S, alloc: Global, name: &[u8]) -> Result<Numbers, StoreError>
    ensures told { Told S.StoreState result store.old store.new (λ t found. AreSelectedIn t (selections.Group name.now) found) }
    ensures asks { Asks S.StoreState (is_ok result) store.old store.new }
{
    let name = name_text(name);
    if !store.has_group(name)? {
        return Ok(Err(Refusal::NoSuchGroup));
    }
    let numbers = store.members_of(alloc, name)?;
    Ok(Ok(numbers))
}

/// The runs that a selection names.
pub fn select_runs<S: RunStore>(
    store: &mut S,
    alloc: Global,
    selection: &Selection<&[u8]>,
) -> Result<Numbers, StoreError>
    ensures told { Told S.StoreState result store.old store.new (λ t found. AreSelectedIn t (plain_selection selection.now) found) }
    ensures asks { Asks S.StoreState (is_ok result) store.old store.new }
{
    match selection {
        Selection::All => all_runs(store, alloc),
        Selection::Run(number) => one_run(store, alloc, *number),
        Selection::Group(name) => of_group(store, alloc, name),
    }
}
