// Why a table was not read, where memory ran out or a load was one too many.
ghost use Rattle.std.specs.Prelude.{◌≡◌, ℕ, List, false, IsSome};
ghost use Rattle.sqlite_pages.specs.Calls.{IsClean, Continues, FailsFor};
ghost use Rattle.sqlite_btree.specs.Check.{is_marked};
ghost use Rattle.sqlite_store.specs.declared.catalog.Wanted.{Wanted};
ghost use Rattle.page_rows.specs.Rows.{HasTable};
ghost use Rattle.page_files.specs.Files.{IsFaithful, FailsToRead, OnlyReads};
ghost use Rattle.page_files.specs.Trees.{ShowsTable};

use crate::files::PageFile;
use sqlite_btree::{PayloadTest, check};
use sqlite_disk::Disk;
use sqlite_pages::{Error, Pages};
use std::alloc::Global;

/// Any payload passes.
#[derive(Clone, Copy, Debug, Drop)]
struct AnyPayload;

impl PayloadTest for AnyPayload {
    ghost use Rattle.std.specs.Prelude.{⊤};

    ghost passes = { λ _ _. ⊤ };

    fn test(&self, _: &[u8]) -> bool {
        true
    }
}

/// `Corrupt` where a look at all pages of a table finds damage, and else `OutOfMemory`. Each page that a tree
/// may have is without a mark.
fn fault_under<P: Pages>(store: &mut P, alloc: Global, marks: &mut [bool], root: u32) -> Error
    ensures done { IsClean P.Pages store.new → ((n : ℕ) → IsSome (P.Pages.pages store.old n) → is_marked marks.old n ≡ false)
        → HasTable (P.Pages.size store.old) (P.Pages.pages store.old) root → FailsFor P.Pages store.old store.new ⊥ result }
    ensures kept { Continues P.Pages store.old store.new }
    ensures pages { P.Pages.pages store.new ≡ P.Pages.pages store.old }
{
    match check::table(store, alloc, marks, root, &AnyPayload) {
        Err(Error::Corrupt) => Error::Corrupt,
        _ => Error::OutOfMemory,
    }
}

impl<D: Disk> PageFile<D> {
    /// Why the table under a root page was not read: damage, or that memory ran out.
    pub(crate) fn table_fault(&mut self, alloc: Global, root: u32) -> Error
        ensures done { IsFaithful self.new → (wanted : List Wanted) (t : ℕ) → ShowsTable wanted t root self.old → FailsToRead self.old self.new result }
        ensures reads { OnlyReads self.old self.new }
    {
        if !self.pool.is_open() {
            return Error::OutOfMemory;
        }
        let Ok(mut marks) = self.pool.unusable(alloc) else {
            return Error::OutOfMemory;
        };
        fault_under(&mut self.pool, alloc, marks.as_mut_slice(), root)
    }
}
