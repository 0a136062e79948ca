// The groups with their members.
ghost use Rattle.std.specs.Prelude.{◌≡◌, ◌<◌, ◌≤◌, ◌↔◌, List, map, flat_map, length, take, drop, string_bytes, IfOk, IfErr, IsTrue, IsPermutation, IsSortedByKey};
ghost use Rattle.std.specs.List.{AllAdjacentBelow};
ghost use Rattle.plain_tables.specs.Labels.{IsGroupName};
ghost use Rattle.plain_tables.specs.Tables.{Tables};
ghost use Rattle.run_stores.specs.Calls.{AnswersOrMemory};
ghost use Rattle.run_stores.specs.Entries.{AreGroups, IsBefore, entry_group, entry_members, member_of};
ghost use Rattle.run_lists.specs.InOrder.{AreRowsOf, BeginsWith, BeginsWithout, group_cmp, member_cmp};
ghost use Rattle.run_lists.specs.Lent.{lent_group, lent_member};
ghost use Rattle.run_lists.specs.Listed.{AreListed, group_row, member_row};

use crate::listed::{ListedGroup, ListedMember, RunLists};
use cg_text::ListVec;
use plain_tables::{StoreError, is_group_name};
use run_stores::GroupEntry;
use std::alloc::{AllocError, Global};
use std::cmp::Ordering;

/// The groups by name.
fn groups_by_name(alloc: Global, groups: &[ListedGroup]) -> Result<Vec<&ListedGroup>, AllocError>
    ensures same { IfOk result (λ lent. IsPermutation (map group_row groups.now) (map lent_group lent.items)) }
    ensures sorted { IfOk result (λ lent. IsSortedByKey lent_group group_cmp lent.items) }
{
    let mut lent: Vec<&ListedGroup> = groups.iter().collect(alloc)?;
    lent.sort_unstable_by(|group, other| group.name.as_str().cmp(other.name.as_str()));
    Ok(lent)
}

/// The members by group and run.
fn members_by_group(
    alloc: Global,
    members: &[ListedMember],
) -> Result<Vec<&ListedMember>, AllocError>
    ensures same { IfOk result (λ lent. IsPermutation (map member_row members.now) (map lent_member lent.items)) }
    ensures sorted { IfOk result (λ lent. IsSortedByKey lent_member member_cmp lent.items) }
{
    let mut lent: Vec<&ListedMember> = members.iter().collect(alloc)?;
    lent.sort_unstable_by(|member, other| {
        let by_group = member.group.as_str().cmp(other.group.as_str());
        by_group.then(member.run.cmp(&other.run))
    });
    Ok(lent)
}

/// The runs of the members at the front that are of one group.
fn runs_of(alloc: Global, name: &str, members: &[&ListedMember]) -> Result<ListVec<u32>, StoreError>
    ensures within { IfOk result (λ runs. length runs ≤ length members.now) }
    ensures front { IfOk result (λ runs. map (member_of name.now) runs ≡ map lent_member (take (length runs) members.now)) }
    ensures whole { IfOk result (λ runs. BeginsWithout name.now (map lent_member (drop (length runs) members.now))) }
    ensures refused { AnswersOrMemory result }
{
    let mut runs = ListVec::new(alloc);
    'members: for member in members {
        if member.group.as_str() != name {
            return Ok(runs);
        }
        if runs.push(member.run).is_err() {
            return Err(StoreError::Memory);
        }
    }
    Ok(runs)
}

/// Whether numbers rise, so that none comes twice.
pub(crate) fn numbers_rise(numbers: &[u32]) -> bool
    ensures { IsTrue result ↔ AllAdjacentBelow (λ a b. a < b) numbers.now (length numbers.now) }
{
    for k in 1..numbers.len() {
        if numbers[k - 1] >= numbers[k] {
            return false;
        }
    }
    true
}

/// A group whose name is in form and whose members rise.
fn group_entry(
    name: String,
    baseline: Option<u32>,
    members: ListVec<u32>,
) -> Result<GroupEntry, StoreError>
    ensures made { IfOk result (λ entry. (entry.name ≡ name) × (entry.baseline ≡ baseline) × (entry.members ≡ members)) }
    ensures refused { IfErr result (λ e. ¬ (IsGroupName (string_bytes name) × AllAdjacentBelow (λ a b. a < b) members (length members))) }
{
    if !is_group_name(name.as_str()) || !numbers_rise(members.as_slice()) {
        return Err(StoreError::Store);
    }
    Ok(GroupEntry {
        name,
        baseline,
        members,
    })
}

/// A group with the members at the front that are of it.
fn next_entry(
    alloc: Global,
    group: &ListedGroup,
    members: &[&ListedMember],
) -> Result<GroupEntry, StoreError>
    ensures group { IfOk result (λ entry. entry_group entry ≡ group_row group.now) }
    ensures within { IfOk result (λ entry. length entry.members ≤ length members.now) }
    ensures front { IfOk result (λ entry. entry_members entry ≡ map lent_member (take (length entry.members) members.now)) }
    ensures whole { (entry : GroupEntry) → entry_group entry ≡ group_row group.now → BeginsWith entry (map lent_member members.now)
        → IfOk result (λ made. made.members ≡ entry.members) }
    ensures serves { (entry : GroupEntry) → entry_group entry ≡ group_row group.now → BeginsWith entry (map lent_member members.now)
        → AnswersOrMemory result }
{
    let name = group.name.clone()?;
    let runs = runs_of(alloc, name.as_str(), members)?;
    group_entry(name, group.baseline, runs)
}

/// The groups, each with the next members that are of it. `Store` where a member is left.
fn joined(
    alloc: Global,
    groups: &[&ListedGroup],
    members: &[&ListedMember],
) -> Result<Vec<GroupEntry>, StoreError>
    ensures groups { IfOk result (λ entries. map entry_group entries.items ≡ map lent_group groups.now) }
    ensures members { IfOk result (λ entries. flat_map entry_members entries.items ≡ map lent_member members.now) }
    ensures serves { (entries : List GroupEntry) → AreRowsOf entries (map lent_group groups.now) (map lent_member members.now)
        → AnswersOrMemory result }
{
    let mut entries = Vec::new(alloc);
    let mut taken = 0;
    'groups: for group in groups {
        let entry = next_entry(alloc, group, &members[taken..])?;
        taken += entry.members.len();
        if entries.push(entry).is_err() {
            return Err(StoreError::Memory);
        }
    }
    if taken == members.len() {
        Ok(entries)
    } else {
        Err(StoreError::Store)
    }
}

/// Whether a group is before another, by the bytes of their names.
fn is_before(entry: &GroupEntry, other: &GroupEntry) -> bool
    ensures { IsTrue result ↔ IsBefore entry.now other.now }
{
    match entry.name.as_str().cmp(other.name.as_str()) {
        Ordering::Less => true,
        _ => false,
    }
}

/// Whether the names of groups rise, so that none comes twice.
fn names_rise(entries: &[GroupEntry]) -> bool
    ensures { IsTrue result ↔ AllAdjacentBelow IsBefore entries.now (length entries.now) }
{
    for k in 1..entries.len() {
        if !is_before(&entries[k - 1], &entries[k]) {
            return false;
        }
    }
    true
}

impl RunLists {
    /// The groups with their members, by name. `Store` where a name comes twice or is out of form, or a
    /// member is of no group.
    pub fn groups(&self, alloc: Global) -> Result<Vec<GroupEntry>, StoreError>
        ensures told { (t : Tables) → AreListed t self.now → IfOk result (λ entries. AreGroups t entries.items) }
        ensures rising { IfOk result (λ entries. AllAdjacentBelow IsBefore entries.items (length entries.items)) }
        ensures serves { (t : Tables) → AreListed t self.now → (entries : List GroupEntry) → AreGroups t entries
            → AllAdjacentBelow IsBefore entries (length entries) → AnswersOrMemory result }
    {
        let groups = groups_by_name(alloc, &self.groups)?;
        let members = members_by_group(alloc, &self.members)?;
        let entries = joined(alloc, &groups, &members)?;
        if names_rise(&entries) {
            Ok(entries)
        } else {
            Err(StoreError::Store)
        }
    }
}
