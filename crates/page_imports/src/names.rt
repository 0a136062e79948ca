// The names of a file, by their numbers in the store.
ghost use Rattle.std.specs.Prelude.{◌≡◌, [], ◌∷◌, ⊤, false, map, IsTrue, OnOk};
ghost use Rattle.page_files.specs.Files.{IsUsable, OnlyReads, LeavesUsable};
ghost use Rattle.plain_tables.specs.Changes.{has_name};
ghost use Rattle.plain_tables.specs.Files.{all_named, numbers_in};
ghost use Rattle.prof_store.specs.Names.{number_if_held};
ghost use Rattle.prof_store.specs.Schema.{name_at};
ghost use Rattle.page_imports.specs.Causes.{AreNarrow, CanBeNumbered, CanBePut, HaveNumbers};
ghost use Rattle.page_imports.specs.Names.{AreNumbered, AreUnheld, IsNextName, bytes_of, name_line, with_names};
ghost use Rattle.page_imports.specs.Steps.{Makes, MakesTelling, Tells};

use crate::numbering::{NewName, Numbered};
use cost_rows::Names;
use line_fills::fill;
use page_files::PageFile;
use page_places::{StoreRoots, error_of, error_of_row, find_name, free_rowid};
use plain_tables::StoreError;
use sqlite_disk::Disk;
use std::alloc::Global;

/// The number that the next name gets.
fn next_name<D: Disk>(
    file: &mut PageFile<D>,
    alloc: Global,
    roots: &StoreRoots,
) -> Result<u64, StoreError>
    ensures told { Tells file.old file.new roots.now AreNarrow result (λ t next. IsNextName next t) }
    ensures reads { OnlyReads file.old file.new }
    ensures usable { OnOk result (IsUsable file.new) }
{
    let rowid = match free_rowid(file, alloc, &roots.name_table().place()) {
        Ok(rowid) => rowid,
        Err(error) => return Err(error_of_row(error)),
    };
    match u64::try_from(rowid) {
        Ok(next) => Ok(next),
        Err(_) => Err(StoreError::Store),
    }
}

/// Whether no name is held.
fn holds_none<D: Disk>(
    file: &mut PageFile<D>,
    alloc: Global,
    roots: &StoreRoots,
) -> Result<bool, StoreError>
    ensures told { Tells file.old file.new roots.now (λ _. ⊤) result (λ t none. IsTrue none → t.names ≡ []) }
    ensures reads { OnlyReads file.old file.new }
    ensures usable { OnOk result (IsUsable file.new) }
{
    match file.last_rowid(alloc, roots.names) {
        Ok(Some(_)) => Ok(false),
        Ok(None) => Ok(true),
        Err(error) => Err(error_of(error)),
    }
}

/// The number of a name, if it is held. A name that is new is not sought.
fn held_number<D: Disk>(
    file: &mut PageFile<D>,
    alloc: Global,
    roots: &StoreRoots,
    name: &[u8],
    is_new: bool,
) -> Result<Option<u32>, StoreError>
    ensures told { Tells file.old file.new roots.now AreNarrow result
        (λ t found. (IsTrue is_new → has_name t name.now ≡ false) → found ≡ number_if_held t name.now) }
    ensures reads { OnlyReads file.old file.new }
    ensures usable { IsUsable file.old → OnOk result (IsUsable file.new) }
{
    if is_new {
        return Ok(None);
    }
    find_name(file, alloc, roots.name_bytes, name)
}

/// The numbers of a file's names. Where none is held yet, none is sought.
fn find_numbers<'a, D: Disk>(
    file: &mut PageFile<D>,
    alloc: Global,
    roots: &StoreRoots,
    names: &'a Names,
) -> Result<Numbered<'a>, StoreError>
    ensures told { Tells file.old file.new roots.now (HaveNumbers names.now) result (λ t found. AreNumbered t names.now found) }
    ensures reads { OnlyReads file.old file.new }
    ensures usable { OnOk result (IsUsable file.new) }
{
    let is_new = holds_none(file, alloc, roots)?;
    let next = next_name(file, alloc, roots)?;
    let mut found = Numbered::new(alloc, names.len(), next)?;
    'names: for at in 0..names.len() {
        let name = names.name(at as u32);
        let held = held_number(file, alloc, roots, name, is_new)?;
        found.take(name, held)?;
    }
    Ok(found)
}

/// Inserts new names behind those that are held.
fn put_names<D: Disk>(
    file: &mut PageFile<D>,
    alloc: Global,
    roots: &StoreRoots,
    news: &[NewName<'_>],
) -> Result<(), StoreError>
    ensures done { Makes file.old file.new roots.now (name_at ∷ []) (AreUnheld (bytes_of news.now)) (with_names (bytes_of news.now))
        (λ _. CanBePut name_at (map name_line (bytes_of news.now))) result }
    ensures leaves { LeavesUsable file.old file.new result }
{
    fill(file, alloc, &roots.name_table().place(), news)
}

/// The numbers of a file's names, which are held from now on.
pub(crate) fn number_names<D: Disk>(
    file: &mut PageFile<D>,
    alloc: Global,
    roots: &StoreRoots,
    names: &Names,
) -> Result<Vec<u32>, StoreError>
    ensures done { MakesTelling file.old file.new roots.now (name_at ∷ []) (all_named names.now) (CanBeNumbered names.now) result
        (λ t numbers. numbers.items ≡ numbers_in t names.now) }
    ensures leaves { LeavesUsable file.old file.new result }
{
    let found = find_numbers(file, alloc, roots, names)?;
    put_names(file, alloc, roots, &found.news)?;
    Ok(found.numbers)
}
