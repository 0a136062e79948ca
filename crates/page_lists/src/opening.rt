// Opens a store by the pages of its file.
ghost use Rattle.std.specs.Prelude.{◌≡◌, ℕ, List, IfOk, OnOk};
ghost use Rattle.sqlite_trees.specs.Tree.{Trees};
ghost use Rattle.page_files.specs.Files.{IsFaithful, IsUsable, OnlyReads};
ghost use Rattle.page_places.specs.Roots.{AreRoots, IsStoreOf};
ghost use Rattle.page_lists.specs.Entries.{entries_in, AreOpened, HasSchema};
ghost use Rattle.page_lists.specs.Indexed.{AreIndexed};
ghost use Rattle.page_lists.specs.Lists.{AreListedFrom};

use crate::indexes::check_indexes;
use crate::lists::read_lists;
use crate::texts::find_tables;
use page_files::PageFile;
use page_places::{StoreRoots, find_roots};
use plain_tables::StoreError;
use run_lists::RunLists;
use sqlite_disk::Disk;
use std::alloc::Global;

/// Finds the tables, and reads the small ones; and whether nothing of others stands on them. `Store` where they are not ours,
/// rows are out of form, or the small ones do not agree with one another or with their indexes.
fn read_store<D: Disk>(
    file: &mut PageFile<D>,
    alloc: Global,
) -> Result<(StoreRoots, RunLists, bool), StoreError>
    ensures read { IsFaithful file.new → (db : Trees) (known : List ℕ) → IsStoreOf file.old db known
        → IfOk result (λ r. AreRoots known r.0 × AreListedFrom db r.1) }
    ensures indexed { IfOk result (λ r. IsFaithful file.new → AreIndexed r.0 r.1 file.old) }
    ensures tables { IfOk result (λ r. IsFaithful file.new → HasSchema file.old → AreOpened (entries_in file.old) r.2) }
    ensures usable { OnOk result (IsUsable file.new) }
    ensures reads { OnlyReads file.old file.new }
{
    let is_alone = find_tables(file, alloc)?.is_alone()?;
    let roots = find_roots(file, alloc)?;
    let lists = read_lists(file, alloc, &roots)?;
    match check_indexes(file, alloc, &roots, &lists) {
        Ok(()) => Ok((roots, lists, is_alone)),
        Err(end) => {
            drop(lists);
            Err(end)
        }
    }
}

/// Opens a store: where its tables stand, the rows of the small ones, and whether nothing of others stands on them. At a
/// failure the file is closed: SQL, by which a caller opens it then, says what is wrong.
pub fn open_store<D: Disk + Drop>(
    alloc: Global,
    mut file: PageFile<D>,
) -> Result<(PageFile<D>, StoreRoots, RunLists, bool), StoreError>
    ensures opened { IfOk result (λ r. IsFaithful r.0 → (db : Trees) (known : List ℕ) → IsStoreOf file db known
        → AreRoots known r.1 × AreListedFrom db r.2) }
    ensures indexed { IfOk result (λ r. IsFaithful r.0 → AreIndexed r.1 r.2 file) }
    ensures tables { IfOk result (λ r. IsFaithful r.0 → HasSchema file → AreOpened (entries_in file) r.3) }
    ensures usable { IfOk result (λ r. IsUsable r.0) }
    ensures reads { IfOk result (λ r. OnlyReads file r.0) }
{
    let (roots, lists, is_alone) = read_store(&mut file, alloc)?;
    Ok((file, roots, lists, is_alone))
}
