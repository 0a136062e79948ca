// Runs are removed; groups are made, changed and dropped.
ghost use Rattle.std.specs.Prelude.{◌≡◌, MatchOption, IfOk, None, true, nat_le, length};
ghost use Rattle.std.specs.Bool.{⊤};
ghost use Rattle.std.specs.Result.{is_ok};
ghost use Rattle.plain_tables.specs.Changes.{has_run, has_group};
ghost use Rattle.plain_tables.specs.Labels.{IsGroupName};
ghost use Rattle.run_stores.specs.Calls.{Asks, ChangesIf, IsFaithful, KeepsShut, Made, Represents, Told};
ghost use Rattle.histories.specs.History.{History, Remove};
ghost use Rattle.histories.specs.declared.limits.Limits.{Limits};
ghost use Rattle.histories.specs.Answered.{RepresentsHistory, WasExpected, StepsToIf, has_changed};
ghost use Rattle.histories.specs.Refusals.{missing_of};
ghost use Rattle.store_commands.specs.Changes.{GroupsIn, RemovesIn, changed, command_from_change, refusal_for, unmade_for, unnamed_for};

use histories::{Answer, Limits, Refusal};
use run_stores::{RunStore, StoreError, is_group_name};

/// The name of a group that bytes are, if they are in form.
pub(crate) fn group_name(bytes: &[u8]) -> Option<&str>
    ensures { MatchOption result (IsGroupName bytes.now → ⊥) (λ name. (name.now ≡ bytes.now) × IsGroupName bytes.now) }
{
    match str::from_utf8(bytes) {
        Ok(name) => {
            if is_group_name(name) {
                Some(name)
            } else {
                None
            }
        }
        Err(_) => None,
    }
}

/// What is done to a group by its name.
#[derive(Clone, Copy, Debug, PartialEq, Eq)]
pub enum GroupChange {
    Make,
    Drop,
    /// A run joins it.
    Join(u32),
    /// A run leaves it.
    Leave(u32),
    /// A run becomes its baseline.
    SetBaseline(u32),
}

/// Drops a run.
pub(crate) fn remove<S: RunStore>(store: &mut S, number: u32) -> Result<Answer, StoreError>
    ensures answered { IsFaithful S.StoreState store.new → (limits : Limits) (h : History) → RepresentsHistory S.StoreState h store.old
        → IfOk result (λ answer. WasExpected S.StoreState limits h (Remove number) answer store.new) }
    ensures steps { (limits : Limits) → StepsToIf S.StoreState limits (Remove number) (is_ok result) (has_changed result) store.old store.new }
    ensures shut { KeepsShut S.StoreState store.old store.new }
    ensures told { Told S.StoreState result store.old store.new (RemovesIn number (λ _. ⊤)) }
    ensures made { Made S.StoreState result store.old store.new (RemovesIn number (λ left. Represents S.StoreState left store.new)) }
{
    if !store.has_run(number)? {
        return Ok(Answer::Refused(Refusal::NoSuchRun));
    }
    store.drop_run(number)?;
    Ok(Answer::Done)
}

/// Why a group cannot be made, if it cannot.
fn unmade<S: RunStore>(
    store: &mut S,
    limits: Limits,
    name: &str,
) -> Result<Option<Refusal>, StoreError>
    ensures told { Told S.StoreState result store.old store.new
        (λ t refusal. refusal ≡ unmade_for (has_group t name.now) (nat_le limits.groups (length t.groups))) }
    ensures asks { Asks S.StoreState (is_ok result) store.old store.new }
{
    if store.has_group(name)? {
        return Ok(Some(Refusal::GroupTaken));
    }
    if store.group_count()? >= u64::from(limits.groups) {
        return Ok(Some(Refusal::Full));
    }
    Ok(None)
}

/// Why a group cannot be changed, if it is not held.
fn no_group<S: RunStore>(store: &mut S, name: &str) -> Result<Option<Refusal>, StoreError>
    ensures told { Told S.StoreState result store.old store.new (λ t refusal. refusal ≡ missing_of (has_group t name.now) true) }
    ensures asks { Asks S.StoreState (is_ok result) store.old store.new }
{
    if store.has_group(name)? {
        Ok(None)
    } else {
        Ok(Some(Refusal::NoSuchGroup))
    }
}

/// Why a group and a run cannot be changed, if one of them is not held.
fn missing<S: RunStore>(
    store: &mut S,
    name: &str,
    number: u32,
) -> Result<Option<Refusal>, StoreError>
    ensures told { Told S.StoreState result store.old store.new (λ t refusal. refusal ≡ missing_of (has_group t name.now) (has_run t number)) }
    ensures asks { Asks S.StoreState (is_ok result) store.old store.new }
{
    if !store.has_group(name)? {
        return Ok(Some(Refusal::NoSuchGroup));
    }
    if !store.has_run(number)? {
        return Ok(Some(Refusal::NoSuchRun));
    }
    Ok(None)
}

/// Why a change is refused, if it is.
fn refusal_of<S: RunStore>(
    store: &mut S,
    limits: Limits,
    name: &str,
    change: GroupChange,
) -> Result<Option<Refusal>, StoreError>
    ensures told { Told S.StoreState result store.old store.new (λ t refusal. refusal ≡ refusal_for limits change name.now t) }
    ensures asks { Asks S.StoreState (is_ok result) store.old store.new }
{
    match change {
        GroupChange::Make => unmade(store, limits, name),
        GroupChange::Drop => no_group(store, name),
        GroupChange::Join(number) | GroupChange::Leave(number) | GroupChange::SetBaseline(number) =>
            missing(store, name, number),
    }
}

/// Does a change that nothing refuses.
fn change_free<S: RunStore>(
    store: &mut S,
    name: &str,
    change: GroupChange,
) -> Result<(), StoreError>
    requires { IsGroupName name.now }
    ensures changes { (limits : Limits)
        → ChangesIf S.StoreState (is_ok result) (λ t. refusal_for limits change name.now t ≡ None) (changed change name.now) store.old store.new }
{
    match change {
        GroupChange::Make => store.put_group(name),
        GroupChange::Drop => store.drop_group(name),
        GroupChange::Join(number) => store.join(name, number),
        GroupChange::Leave(number) => store.leave(name, number),
        GroupChange::SetBaseline(number) => store.set_baseline(name, number),
    }
}

/// Changes a group.
pub(crate) fn change_group<S: RunStore>(
    store: &mut S,
    limits: Limits,
    name: &str,
    change: GroupChange,
) -> Result<Answer, StoreError>
    requires { IsGroupName name.now }
    ensures answered { IsFaithful S.StoreState store.new → (h : History) → RepresentsHistory S.StoreState h store.old
        → IfOk result (λ answer. WasExpected S.StoreState limits h (command_from_change change name.now) answer store.new) }
    ensures steps { StepsToIf S.StoreState limits (command_from_change change name.now) (is_ok result) (has_changed result) store.old store.new }
    ensures shut { KeepsShut S.StoreState store.old store.new }
    ensures told { Told S.StoreState result store.old store.new (GroupsIn limits change name.now (λ _. ⊤)) }
    ensures made { Made S.StoreState result store.old store.new (GroupsIn limits change name.now (λ left. Represents S.StoreState left store.new)) }
{
    if let Some(refusal) = refusal_of(store, limits, name, change)? {
        return Ok(Answer::Refused(refusal));
    }
    change_free(store, name, change)?;
    Ok(Answer::Done)
}

/// Why a change is refused under a name that no group can have.
pub(crate) fn unnamed(change: GroupChange) -> Refusal
    ensures { result ≡ unnamed_for change }
{
    match change {
        GroupChange::Make => Refusal::BadName,
        GroupChange::Drop
        | GroupChange::Join(_)
        | GroupChange::Leave(_)
        | GroupChange::SetBaseline(_) => Refusal::NoSuchGroup,
    }
}
