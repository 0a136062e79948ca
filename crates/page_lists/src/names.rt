// The names that are held, read off their table.
ghost use Rattle.std.specs.Prelude.{◌≡◌, ◌↔◌, ◌==◌, true, List, IfErr, IfOk};
ghost use Rattle.std.specs.List.{AllByRecursion, list_all, list_any};
ghost use Rattle.std.specs.List.Sorted.{IsNonDecreasing};
ghost use Rattle.sqlite_value.specs.Order.{Row};
ghost use Rattle.sqlite_store.specs.Db.{table_row};
ghost use Rattle.plain_tables.specs.Tables.{NameRow};
ghost use Rattle.run_stores.specs.Book.{IsHeld};
ghost use Rattle.run_stores.specs.Names.{AreAmong};
ghost use Rattle.page_files.specs.Files.{IsFaithful, OnlyReads};
ghost use Rattle.prof_store.specs.Names.{SayNames};
ghost use Rattle.prof_store.specs.Tables.{name_columns};
ghost use Rattle.page_lists.specs.Shown.{ShowsRows};
ghost use Rattle.page_lists.specs.Names.{name_read};
ghost use Rattle.page_lists.specs.Refusals.{IsNameRow, ServesRows};

use crate::fields::{bytes_in, end_of, key_in};
use crate::listing::all_rows;
use crate::records::FromRecord;
use crate::small::key_of;
use crate::some_rows::rows_among;
use page_files::PageFile;
use plain_tables::StoreError;
use prof_store::OutOfForm;
use run_lists::{HeldName, HeldNames};
use sqlite_disk::Disk;
use sqlite_record::fields::Fields;
use std::alloc::Global;

/// A number and its name, where the name lies in the record.
pub(crate) fn name_in(rowid: i64, payload: &[u8]) -> Result<(u32, &[u8]), OutOfForm>
    ensures read { IfOk result (λ read. name_columns (name_read read.0 read.1.now) ≡ table_row (rowid, payload.now)) }
    ensures refused { IfErr result (λ _. ¬ (IsNameRow (table_row (rowid, payload.now)))) }
{
    let number = key_of(rowid)?;
    let mut fields = Fields::new(payload);
    key_in(&mut fields)?;
    let bytes = bytes_in(&mut fields)?;
    end_of(&mut fields)?;
    Ok((number, bytes))
}

impl FromRecord for HeldName {
    ghost use Rattle.run_lists.specs.NameRows.{name_row};
    ghost use Rattle.prof_store.specs.Tables.{name_columns};

    ghost seen = { λ row. row };

    ghost columns = { λ n. name_columns (name_row n) };

    ghost use Rattle.page_lists.specs.Refusals.{IsNameRow};

    ghost IsRead = { IsNameRow };

    fn from_record(alloc: Global, rowid: i64, payload: &[u8]) -> Result<HeldName, StoreError> {
        let (number, name) = name_in(rowid, payload)?;
        match name.to_vec(alloc) {
            Ok(bytes) => Ok(HeldName { number, bytes }),
            Err(_) => Err(StoreError::Memory),
        }
    }
}

/// The names that are held, in the order of their numbers. `Store` where a page cannot be read, a row is out of
/// form, or the numbers do not rise.
pub fn names_under<D: Disk>(
    file: &mut PageFile<D>,
    alloc: Global,
    root: u32,
) -> Result<HeldNames, StoreError>
    ensures read { IsFaithful file.new → (rows : List Row) → ShowsRows file.old root rows → (names : List NameRow) → SayNames rows names
        → IfOk result (λ held. held ≡ names) }
    ensures serves { ServesRows file.old file.new IsNameRow root result }
    ensures reads { OnlyReads file.old file.new }
{
    let names = all_rows(file, alloc, root)?;
    Ok(HeldNames::of(names)?)
}

/// Reads the names of some numbers, where they are held. `Memory`; `Store` where a page cannot be read, or a name
/// that is read is out of form.
pub fn names_among<D: Disk>(
    file: &mut PageFile<D>,
    alloc: Global,
    root: u32,
    numbers: &[u32],
) -> Result<HeldNames, StoreError>
    ensures read { IsFaithful file.new → (rows : List Row) → ShowsRows file.old root rows → (names : List NameRow) → SayNames rows names
        → IfOk result (λ held. AreAmong numbers.now names held) }
    ensures serves { ServesRows file.old file.new IsNameRow root result }
    ensures reads { OnlyReads file.old file.new }
{
    let names = rows_among(file, alloc, root, numbers)?;
    Ok(HeldNames::of(names)?)
}

/// The number of a name, whose record is not read.
impl FromRecord for u32 {
    ghost use Rattle.std.specs.Prelude.{◌∷◌, [], take};
    ghost use Rattle.prof_store.specs.Tables.{number};

    ghost seen = { take 1 };

    ghost columns = { λ n. number n ∷ [] };

    ghost use Rattle.page_lists.specs.Refusals.{IsNameRow};

    ghost IsRead = { IsNameRow };

    fn from_record(_alloc: Global, rowid: i64, _payload: &[u8]) -> Result<u32, StoreError> {
        Ok(key_of(rowid)?)
    }
}

/// Whether a number is among those that are sorted.
fn is_found(sorted: &[u32], number: u32) -> bool
    ensures { IsNonDecreasing sorted.now → result ≡ list_any (λ n. n == number) sorted.now }
{
    sorted.binary_search(&number).is_ok()
}

/// Whether all of some numbers are among those that are sorted.
fn has_all(sorted: &[u32], numbers: &[u32]) -> bool
    ensures { IsNonDecreasing sorted.now → result ≡ list_all (λ n. list_any (λ m. m == n) sorted.now) numbers.now }
{
    numbers.iter().all(|number| is_found(sorted, *number))
}

/// Whether all of some numbers have a name that is held. `Memory`; `Store` where a page cannot be read.
pub fn holds_names<D: Disk>(
    file: &mut PageFile<D>,
    alloc: Global,
    root: u32,
    numbers: &[u32],
) -> Result<bool, StoreError>
    ensures read { IsFaithful file.new → (rows : List Row) → ShowsRows file.old root rows → (names : List NameRow) → SayNames rows names
        → IfOk result (λ are. (are ≡ true) ↔ AllByRecursion (IsHeld names) numbers.now) }
    ensures serves { ServesRows file.old file.new IsNameRow root result }
    ensures reads { OnlyReads file.old file.new }
{
    let found: Vec<u32> = rows_among(file, alloc, root, numbers)?;
    Ok(has_all(&found, numbers))
}
