// Groups whose baseline is a run.
ghost use Rattle.std.specs.Prelude.{◌≡◌, ◌<◌, ◌∷◌, [], length, IfErr, IfOk, OnOk};
ghost use Rattle.sqlite_pool.specs.Pool as pools;
ghost use Rattle.sqlite_pool.specs.Stored.{Keeps};
ghost use Rattle.sqlite_record.specs.Record.{decode};
ghost use Rattle.sqlite_value.specs.declared.value.Value.TheVariants.{Text, Null};
ghost use Rattle.prof_store.specs.Tables.{number};
ghost use Rattle.page_files.specs.Files.{IsUsable, LeavesUsable};
ghost use Rattle.page_changes.specs.Changes.{MakesWithin};
ghost use Rattle.page_changes.specs.Removed.{Anything, ClearsAll, ClearsOne, IsNoBaseline, without_baselines};

use crate::members::OfRun;
use page_files::PageFile;
use page_places::{Place, StoreRoots, error_of, error_of_row};
use plain_tables::StoreError;
use row_writes::{replace, rowids_where};
use sqlite_disk::Disk;
use sqlite_record::fields::Fields;
use sqlite_value::row::Row;
use sqlite_value::value::ValueRef;
use std::alloc::Global;

/// The name of a group whose baseline is a run, from the record of its row. `Store` where it is another record.
fn based_name(payload: &[u8], run: u32) -> Result<&[u8], StoreError>
    ensures { IfOk result (λ name. decode payload.now ≡ Text name.now ∷ number run ∷ []) }
{
    let mut fields = Fields::new(payload);
    let Some(ValueRef::Text(name)) = fields.next() else {
        return Err(StoreError::Store);
    };
    match fields.next() {
        Some(ValueRef::Int(baseline)) if baseline == i64::from(run) => {}
        _ => return Err(StoreError::Store),
    }
    match fields.next() {
        None => Ok(name),
        Some(_) => Err(StoreError::Store),
    }
}

/// The columns of a group with no baseline.
fn cleared_columns(alloc: Global, name: &[u8]) -> Result<Row, StoreError>
    ensures { IfOk result (λ row. row ≡ Text name.now ∷ Null ∷ []) }
{
    let mut row = Row::new(alloc);
    row.push(ValueRef::Text(name))?;
    row.push(ValueRef::Null)?;
    Ok(row)
}

/// Puts NULL in the place of the baseline, which is a run, of the group whose row has a rowid.
fn clear_one<D: Disk>(
    file: &mut PageFile<D>,
    alloc: Global,
    place: &Place<'_>,
    rowid: i64,
    run: u32,
) -> Result<(), StoreError>
    ensures done { ClearsOne file.old file.new place.now rowid run result }
    ensures leaves { LeavesUsable file.old file.new result }
{
    let mut payload = Vec::new(alloc);
    match file.find_row(alloc, place.root, rowid, &mut payload) {
        Ok(true) => {}
        Ok(false) => return Err(StoreError::Store),
        Err(error) => return Err(error_of(error)),
    }
    let name = based_name(payload.as_slice(), run)?;
    let columns = cleared_columns(alloc, name)?;
    match replace(file, alloc, place, rowid, &columns) {
        Ok(()) => Ok(()),
        Err(error) => Err(error_of_row(error)),
    }
}

/// The same of each group whose row has one of these rowids.
fn clear_all<D: Disk>(
    file: &mut PageFile<D>,
    alloc: Global,
    place: &Place<'_>,
    rowids: &[i64],
    run: u32,
) -> Result<(), StoreError>
    ensures done { ClearsAll file.old file.new place.now rowids.now run result }
    ensures some { IfErr result (λ _. 0 < length rowids.now) }
    ensures usable { IsUsable file.old → OnOk result (IsUsable file.new) }
    ensures keeps { Keeps (pools.state file.old.pool) (pools.state file.new.pool) }
{
    for rowid in rowids {
        clear_one(file, alloc, place, *rowid, run)?;
    }
    Ok(())
}

/// Puts NULL in the place of each baseline that is a run. It walks over the table of groups.
pub(crate) fn clear_baselines<D: Disk>(
    file: &mut PageFile<D>,
    alloc: Global,
    roots: &StoreRoots,
    run: u32,
) -> Result<(), StoreError>
    ensures done { MakesWithin file.old file.new roots.now Anything (without_baselines run) (λ t _. IsNoBaseline run t) result }
    ensures leaves { LeavesUsable file.old file.new result }
{
    let table = roots.group_table();
    let place = table.place();
    let rowids = match rowids_where(file, alloc, &place, &OfRun(run)) {
        Ok(rowids) => rowids,
        Err(error) => return Err(error_of_row(error)),
    };
    clear_all(file, alloc, &place, rowids.as_slice(), run)
}
