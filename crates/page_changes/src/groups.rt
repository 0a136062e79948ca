// The changes of groups and members, each within a transaction.
ghost use Rattle.std.specs.Prelude.{◌≡◌, IfErr, OnOk};
ghost use Rattle.std.specs.List.{list_any};
ghost use Rattle.page_files.specs.Files.{IsUsable, LeavesUsable};
ghost use Rattle.plain_tables.specs.Changes.{is_member, joined, with_baseline, with_group, without_group, without_member};
ghost use Rattle.plain_tables.specs.Labels.{IsGroupName};
ghost use Rattle.run_lists.specs.Listed.{member_row};
ghost use Rattle.page_changes.specs.Causes.{CanDropGroup, CanMake, CanRebase, CanTakeIn, CanTakeOut, FailsWithout};
ghost use Rattle.page_changes.specs.Changes.{Changes};

use crate::rows::{add_group, add_member, erase_group, erase_member, erase_members, put_baseline};
use page_files::PageFile;
use page_places::{StoreRoots, error_of};
use plain_tables::StoreError;
use run_lists::{ListedMember, RunLists};
use sqlite_disk::Disk;
use std::alloc::Global;

/// Whether a member is of a group and a run.
fn is_of(line: &ListedMember, name: &str, run: u32) -> bool
    ensures { result ≡ is_member name.now run (member_row line.now) }
{
    line.group.as_str() == name && line.run == run
}

/// Whether a run is in a group.
fn has_member(lists: &RunLists, name: &str, run: u32) -> bool
    ensures { result ≡ list_any (λ m. is_member name.now run (member_row m)) lists.now.members.items }
{
    lists.members.iter().any(|line| is_of(line, name, run))
}

/// `Store` where the file has failed for good.
fn if_usable<D: Disk>(file: &PageFile<D>) -> Result<(), StoreError>
    ensures usable { OnOk result (IsUsable file.now) }
    ensures failed { IfErr result (λ e. (e ≡ StoreError.Store) × (IsUsable file.now → ⊥)) }
{
    match file.if_usable() {
        Ok(()) => Ok(()),
        Err(error) => Err(error_of(error)),
    }
}

/// Puts a run that is held into a group that is held. Where it is in it nothing is written. `Store` where the group or
/// the run is not held, the file failed, or it is at a limit; `Memory`. After an error call `PageFile::undo`.
pub fn join<D: Disk>(
    file: &mut PageFile<D>,
    alloc: Global,
    roots: &StoreRoots,
    lists: &RunLists,
    name: &str,
    run: u32,
) -> Result<(), StoreError>
    ensures done { Changes file.old file.new roots.now lists.now (joined name.now run) result }
    ensures failed { IfErr result (FailsWithout file.old file.new roots.now lists.now (CanTakeIn file.old name.now run)) }
    ensures leaves { LeavesUsable file.old file.new result }
{
    if !lists.has_group(name) || !lists.has_run(run) {
        return Err(StoreError::Store);
    }
    if has_member(lists, name, run) {
        return if_usable(file);
    }
    add_member(file, alloc, roots, name, run)
}

/// Makes a group with no member and no baseline. `Store` where there is a group of this name, the file failed, or it is
/// at a limit; `Memory`. After an error call `PageFile::undo`.
pub fn put_group<D: Disk>(
    file: &mut PageFile<D>,
    alloc: Global,
    roots: &StoreRoots,
    lists: &RunLists,
    name: &str,
) -> Result<(), StoreError>
    requires { IsGroupName name.now }
    ensures done { Changes file.old file.new roots.now lists.now (with_group name.now) result }
    ensures failed { IfErr result (FailsWithout file.old file.new roots.now lists.now (CanMake name.now)) }
    ensures leaves { LeavesUsable file.old file.new result }
{
    if lists.has_group(name) {
        return Err(StoreError::Store);
    }
    add_group(file, alloc, roots, name)
}

/// Takes a run out of a group. Where it is not in it nothing is written. `Store` where the file failed, it is at a
/// limit, or a row of members is out of form; `Memory`. After an error call `PageFile::undo`.
pub fn leave<D: Disk>(
    file: &mut PageFile<D>,
    alloc: Global,
    roots: &StoreRoots,
    lists: &RunLists,
    name: &str,
    run: u32,
) -> Result<(), StoreError>
    ensures done { Changes file.old file.new roots.now lists.now (without_member name.now run) result }
    ensures failed { IfErr result (FailsWithout file.old file.new roots.now lists.now (λ t _. CanTakeOut file.old t)) }
    ensures leaves { LeavesUsable file.old file.new result }
{
    if !has_member(lists, name, run) {
        return if_usable(file);
    }
    erase_member(file, alloc, roots, name, run)
}

/// Makes a run that is held the baseline of a group, in place of an older one. Where no group has this name nothing is
/// written. `Store` where the run is not held, the file failed, it is at a limit, or a row of groups is out of form;
/// `Memory`. After an error call `PageFile::undo`.
pub fn set_baseline<D: Disk>(
    file: &mut PageFile<D>,
    alloc: Global,
    roots: &StoreRoots,
    lists: &RunLists,
    name: &str,
    run: u32,
) -> Result<(), StoreError>
    ensures done { Changes file.old file.new roots.now lists.now (with_baseline name.now run) result }
    ensures failed { IfErr result (FailsWithout file.old file.new roots.now lists.now (CanRebase file.old name.now run)) }
    ensures leaves { LeavesUsable file.old file.new result }
{
    if !lists.has_group(name) {
        return if_usable(file);
    }
    if !lists.has_run(run) {
        return Err(StoreError::Store);
    }
    put_baseline(file, alloc, roots, name, run)
}

/// Drops a group with its members; the runs stay. `Store` where no group has this name, the file failed, it is at a
/// limit, or a row of groups is out of form; `Memory`. After an error call `PageFile::undo`.
pub fn drop_group<D: Disk>(
    file: &mut PageFile<D>,
    alloc: Global,
    roots: &StoreRoots,
    lists: &RunLists,
    name: &str,
) -> Result<(), StoreError>
    ensures done { Changes file.old file.new roots.now lists.now (without_group name.now) result }
    ensures failed { IfErr result (FailsWithout file.old file.new roots.now lists.now (λ t _. CanDropGroup name.now t)) }
    ensures leaves { LeavesUsable file.old file.new result }
{
    if !lists.has_group(name) {
        return Err(StoreError::Store);
    }
    erase_members(file, alloc, roots, name)?;
    erase_group(file, alloc, roots, name)
}
