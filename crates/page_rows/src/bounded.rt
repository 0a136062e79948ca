// Reads that load no more than a file holds.
ghost use Rattle.std.specs.Prelude.{◌≡◌};
ghost use Rattle.sqlite_pages.specs.Calls.{Continues};
ghost use Rattle.sqlite_btree.specs.Calls.Batch.{TakesFirst, TakesLast};
ghost use Rattle.sqlite_btree.specs.Calls.Table.{GetsRow};
ghost use Rattle.sqlite_btree.specs.Calls.Index.{FillsRecords};
ghost use Rattle.page_rows.specs.Loads.{Asks};

use crate::loads::Loads;
use sqlite_btree::{Batch, Probe, Scratch, index, table};
use sqlite_pages::{Error, Pages};
use std::alloc::Global;

/// The pages of a store that is read, each loaded a few times at most.
#[derive(Drop)]
struct Bounded<'p, P: Pages> {
    store: &'p mut P,
    loads: &'p mut Loads,
}

impl<P: Pages> Pages for Bounded<'_, P> {
    ghost use Rattle.std.proofs.Common.{◌≡◌, refl, ◌∙◌};
    ghost use Rattle.page_rows.specs.Loads.{Asks};
    ghost use Rattle.page_rows.specs.LoadLaws.{Asks-refl, Asks-trans};

    ghost pages = { λ it. P.Pages.pages it.store.now };

    ghost size = { λ it. P.Pages.size it.store.now };

    ghost current = { λ it. P.Pages.current it.store.now };

    ghost faults = { λ it. P.Pages.faults it.store.now };

    ghost is_clean = { λ it. P.Pages.is_clean it.store.now };

    ghost is_shut = { λ it. P.Pages.is_shut it.store.now };

    ghost is_full = { λ it. P.Pages.is_full it.store.now };

    ghost follows = { λ old new. (new.store.ghost_name ≡ old.store.ghost_name) × (new.loads.ghost_name ≡ old.loads.ghost_name)
        × Asks old.loads.now new.loads.now old.store.now new.store.now × P.Pages.follows old.store.now new.store.now };

    ghost follows_refl = { λ it. (refl, refl, Asks-refl it.loads.now it.store.now, P.Pages.follows_refl it.store.now) };

    ghost follows_trans = { λ a b c first second. (
      second.0 ∙ first.0,
      second.1 ∙ first.1,
      Asks-trans a.loads.now b.loads.now c.loads.now a.store.now b.store.now c.store.now first.2 second.2,
      P.Pages.follows_trans a.store.now b.store.now c.store.now first.3 second.3,
    ) };

    fn load(&mut self, page: u32) -> Result<(), Error> {
        self.loads.begin()?;
        self.store.load(page)?;
        self.loads.count(page)
    }

    fn loaded(&self) -> &[u8] {
        self.store.loaded()
    }

    // It is for reading: what would write is refused.
    fn write(&mut self, _: u32, _: &[u8]) -> Result<(), Error> {
        Err(Error::OutOfMemory)
    }

    fn allocate(&mut self) -> Result<u32, Error> {
        Err(Error::OutOfMemory)
    }

    fn free(&mut self, _: u32) -> Result<(), Error> {
        Err(Error::OutOfMemory)
    }
}

/// Takes the first row that a batch has left, as `Batch::next`.
pub fn next_row<P: Pages>(
    store: &mut P,
    loads: &mut Loads,
    batch: &mut Batch,
) -> Result<bool, Error>
    ensures done { TakesFirst P.Pages store.old store.new batch.old batch.new result }
    ensures kept { Continues P.Pages store.old store.new }
    ensures pages { P.Pages.pages store.new ≡ P.Pages.pages store.old }
    ensures asks { Asks loads.old loads.new store.old store.new }
{
    let mut bounded = Bounded { store, loads };
    batch.next(&mut bounded)
}

/// Takes the last row that a batch has left, as `Batch::next_back`.
pub fn last_row<P: Pages>(
    store: &mut P,
    loads: &mut Loads,
    batch: &mut Batch,
) -> Result<bool, Error>
    ensures done { TakesLast P.Pages store.old store.new batch.old batch.new result }
    ensures kept { Continues P.Pages store.old store.new }
    ensures pages { P.Pages.pages store.new ≡ P.Pages.pages store.old }
    ensures asks { Asks loads.old loads.new store.old store.new }
{
    let mut bounded = Bounded { store, loads };
    batch.next_back(&mut bounded)
}

/// Fills a batch with the first entries from a place on, as `index::fill`.
pub fn fill_entries<P: Pages, C: Probe>(
    store: &mut P,
    loads: &mut Loads,
    alloc: Global,
    root: u32,
    probe: &C,
    batch: &mut Batch,
) -> Result<(), Error>
    ensures done { FillsRecords P.Pages store.old store.new (C.Probe.side probe.now) root batch.new result }
    ensures kept { Continues P.Pages store.old store.new }
    ensures pages { P.Pages.pages store.new ≡ P.Pages.pages store.old }
    ensures asks { Asks loads.old loads.new store.old store.new }
{
    let mut scratch = Scratch::new(alloc);
    let mut bounded = Bounded { store, loads };
    index::fill(&mut bounded, &mut scratch, root, probe, batch)
}

/// Reads the row with a rowid, as `table::get`.
pub fn get_row<P: Pages>(
    store: &mut P,
    loads: &mut Loads,
    alloc: Global,
    root: u32,
    rowid: i64,
    payload: &mut Vec<u8>,
) -> Result<bool, Error>
    ensures done { GetsRow P.Pages store.old store.new root rowid payload.new.items result }
    ensures kept { Continues P.Pages store.old store.new }
    ensures pages { P.Pages.pages store.new ≡ P.Pages.pages store.old }
    ensures asks { Asks loads.old loads.new store.old store.new }
{
    let mut scratch = Scratch::new(alloc);
    let mut bounded = Bounded { store, loads };
    table::get(&mut bounded, &mut scratch, root, rowid, payload)
}
