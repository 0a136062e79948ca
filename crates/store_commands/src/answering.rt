// Commands over a store, each with its answer.
ghost use Rattle.std.specs.Prelude.{◌≡◌};
ghost use Rattle.plain_tables.specs.Labels.{IsGroupName};
ghost use Rattle.run_stores.specs.Calls.{IsFaithful};
ghost use Rattle.histories.specs.History.{Remove};
ghost use Rattle.histories.specs.declared.answers.Answer.TheVariants.{Refused};
ghost use Rattle.histories.specs.Answered.{Answers};
ghost use Rattle.histories.specs.FromTables.{WasChangedIn};
ghost use Rattle.store_commands.specs.Changes.{GroupsIn, RemovesIn, command_from_change, unnamed_for};

use crate::changes::{GroupChange, change_group, group_name, remove, unnamed};
use histories::{Answer, Limits, answer_of};
use run_stores::RunStore;

/// Drops a run.
pub fn remove_in<S: RunStore>(store: &mut S, number: u32) -> Answer
    ensures answered { (limits : _) → IsFaithful S.StoreState store.new → Answers S.StoreState limits (Remove number) result store.old store.new }
    ensures found { WasChangedIn S.StoreState (RemovesIn number) result store.old store.new }
{
    answer_of(remove(store, number))
}

/// Changes a group. A group is not made under a name out of form, and no group has one.
pub fn change_in<S: RunStore>(
    store: &mut S,
    limits: Limits,
    name: &[u8],
    change: GroupChange,
) -> Answer
    ensures answered { IsFaithful S.StoreState store.new → Answers S.StoreState limits (command_from_change change name.now) result store.old store.new }
    ensures found { IsGroupName name.now → WasChangedIn S.StoreState (GroupsIn limits change name.now) result store.old store.new }
    ensures unnamed { (IsGroupName name.now → ⊥) → (result ≡ Refused (unnamed_for change)) × (store.new ≡ store.old) }
{
    match group_name(name) {
        Some(name) => answer_of(change_group(store, limits, name, change)),
        None => Answer::Refused(unnamed(change)),
    }
}
