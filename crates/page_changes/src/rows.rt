// One row of a group or of a member, or the members of a group, within a transaction.
ghost use Rattle.std.specs.Prelude.{◌≡◌, ◌∷◌, [], ⊤, true, false, None, Some, IfErr, IfOk};
ghost use Rattle.sqlite_value.specs.declared.value.Value.TheVariants.{Text};
ghost use Rattle.prof_store.specs.Tables.{number_or_null};
ghost use Rattle.page_files.specs.Files.{LeavesUsable};
ghost use Rattle.plain_tables.specs.Changes.{has_group, has_run, with_baseline, with_group, with_member, without_member};
ghost use Rattle.prof_store.specs.Schema.{grp_at, member_at};
ghost use Rattle.page_changes.specs.Causes.{CanPutBaseline, HasRoomForGroup, HasRoomForMember};
ghost use Rattle.page_changes.specs.Changes.{CanJoin, ErasesNamed, HasNoMember, MakesWithin, PutsBehind, without_members, without_named};
ghost use Rattle.page_changes.specs.Named.{CanBeFound};

use crate::finding::find_named;
use page_files::PageFile;
use page_places::{Place, StoreRoots, error_of_row, free_rowid};
use plain_tables::StoreError;
use row_writes::{RowTest, erase, erase_where, insert, replace};
use sqlite_disk::Disk;
use sqlite_record::fields::Fields;
use sqlite_value::order::compare;
use sqlite_value::row::Row;
use sqlite_value::value::ValueRef;
use std::alloc::Global;

/// The columns of a name and a number, or NULL.
fn named_columns(alloc: Global, name: &str, number: Option<u32>) -> Result<Row, StoreError>
    ensures made { IfOk result (λ row. row ≡ Text name.now ∷ number_or_null number ∷ []) }
    ensures failed { IfErr result (λ e. e ≡ StoreError.Memory) }
{
    let mut row = Row::new(alloc);
    row.push(ValueRef::Text(name.as_bytes()))?;
    match number {
        Some(number) => row.push(ValueRef::Int(i64::from(number)))?,
        None => row.push(ValueRef::Null)?,
    }
    Ok(row)
}

/// Puts a row behind the others of a table, with its entries.
fn put_behind<D: Disk>(
    file: &mut PageFile<D>,
    alloc: Global,
    place: &Place<'_>,
    columns: &Row,
) -> Result<(), StoreError>
    ensures done { PutsBehind file.old file.new place.now columns.now result }
    ensures leaves { LeavesUsable file.old file.new result }
{
    let rowid = match free_rowid(file, alloc, place) {
        Ok(rowid) => rowid,
        Err(error) => return Err(error_of_row(error)),
    };
    match insert(file, alloc, place, rowid, columns) {
        Ok(()) => Ok(()),
        Err(error) => Err(error_of_row(error)),
    }
}

/// Puts a member, of a group and a run that are held, behind the others.
pub(crate) fn add_member<D: Disk>(
    file: &mut PageFile<D>,
    alloc: Global,
    roots: &StoreRoots,
    name: &str,
    run: u32,
) -> Result<(), StoreError>
    ensures done { MakesWithin file.old file.new roots.now (CanJoin name.now run) (with_member name.now run) (λ _. HasRoomForMember name.now run) result }
    ensures leaves { LeavesUsable file.old file.new result }
{
    let columns = named_columns(alloc, name, Some(run))?;
    put_behind(file, alloc, &roots.member_table().place(), &columns)
}

/// Puts a group of a name that is not held behind the others.
pub(crate) fn add_group<D: Disk>(
    file: &mut PageFile<D>,
    alloc: Global,
    roots: &StoreRoots,
    name: &str,
) -> Result<(), StoreError>
    ensures done { MakesWithin file.old file.new roots.now (λ t. has_group t name.now ≡ false) (with_group name.now) (λ _. HasRoomForGroup name.now) result }
    ensures leaves { LeavesUsable file.old file.new result }
{
    let columns = named_columns(alloc, name, None)?;
    put_behind(file, alloc, &roots.group_table().place(), &columns)
}

/// Erases the row of a name, and of a number where one is given, with its entries. `Store` where there is none.
fn erase_named<D: Disk>(
    file: &mut PageFile<D>,
    alloc: Global,
    place: &Place<'_>,
    name: &str,
    number: Option<u32>,
) -> Result<(), StoreError>
    ensures done { ErasesNamed file.old file.new place.now name.now number result }
    ensures leaves { LeavesUsable file.old file.new result }
{
    let Some(row) = find_named(file, alloc, place.root, name.as_bytes(), number)? else {
        return Err(StoreError::Store);
    };
    match erase(file, alloc, place, row.rowid) {
        Ok(()) => Ok(()),
        Err(error) => Err(error_of_row(error)),
    }
}

/// Takes a run that is in a group out of it.
pub(crate) fn erase_member<D: Disk>(
    file: &mut PageFile<D>,
    alloc: Global,
    roots: &StoreRoots,
    name: &str,
    run: u32,
) -> Result<(), StoreError>
    ensures done { MakesWithin file.old file.new roots.now (λ _. ⊤) (without_member name.now run)
        (λ _ now. CanBeFound name.now (Some run) (now member_at.tree)) result }
    ensures leaves { LeavesUsable file.old file.new result }
{
    erase_named(file, alloc, &roots.member_table().place(), name, Some(run))
}

/// Makes a run that is held the baseline of a group. `Store` where there is no such group.
pub(crate) fn put_baseline<D: Disk>(
    file: &mut PageFile<D>,
    alloc: Global,
    roots: &StoreRoots,
    name: &str,
    run: u32,
) -> Result<(), StoreError>
    ensures done { MakesWithin file.old file.new roots.now (λ t. has_run t run ≡ true) (with_baseline name.now run) (λ _. CanPutBaseline name.now run) result }
    ensures leaves { LeavesUsable file.old file.new result }
{
    let columns = named_columns(alloc, name, Some(run))?;
    let Some(row) = find_named(file, alloc, roots.groups, name.as_bytes(), None)? else {
        return Err(StoreError::Store);
    };
    match replace(
        file,
        alloc,
        &roots.group_table().place(),
        row.rowid,
        &columns,
    ) {
        Ok(()) => Ok(()),
        Err(error) => Err(error_of_row(error)),
    }
}

/// Takes the rows whose first column is a name.
#[derive(Clone, Copy, Debug)]
struct OfName<'n>(&'n str);

impl RowTest for OfName<'_> {
    ghost use Rattle.page_changes.specs.Named.{is_of_name};

    ghost takes = { λ it. is_of_name it.0.now };

    fn test(&self, _rowid: i64, payload: &[u8]) -> bool {
        match Fields::new(payload).next() {
            Some(value) => compare(value, ValueRef::Text(self.0.as_bytes())).is_eq(),
            None => false,
        }
    }
}

/// Erases the members of a group.
pub(crate) fn erase_members<D: Disk>(
    file: &mut PageFile<D>,
    alloc: Global,
    roots: &StoreRoots,
    name: &str,
) -> Result<(), StoreError>
    ensures done { MakesWithin file.old file.new roots.now (λ _. ⊤) (without_members name.now) (λ _ _. ⊤) result }
    ensures leaves { LeavesUsable file.old file.new result }
{
    match erase_where(file, alloc, &roots.member_table().place(), &OfName(name)) {
        Ok(()) => Ok(()),
        Err(error) => Err(error_of_row(error)),
    }
}

/// Erases the row of a group that has no member.
pub(crate) fn erase_group<D: Disk>(
    file: &mut PageFile<D>,
    alloc: Global,
    roots: &StoreRoots,
    name: &str,
) -> Result<(), StoreError>
    ensures done { MakesWithin file.old file.new roots.now (HasNoMember name.now) (without_named name.now)
        (λ _ now. CanBeFound name.now None (now grp_at.tree)) result }
    ensures leaves { LeavesUsable file.old file.new result }
{
    erase_named(file, alloc, &roots.group_table().place(), name, None)
}
