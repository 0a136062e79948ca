// Changes of an index that load no more than a file holds.
ghost use Rattle.std.specs.Prelude.{◌≡◌, ◌<◌, ◌^◌, length};
ghost use Rattle.sqlite_pages.specs.Calls.{Continues};
ghost use Rattle.sqlite_btree.specs.Calls.Index.{InsertsRecord, RemovesRecord};

use page_rows::Loads;
use sqlite_btree::{Probe, index};
use sqlite_pages::{Error, Pages};
use std::alloc::Global;

/// Buffers and counts that changes use again.
#[derive(Debug, Drop)]
pub struct Scratch {
    pub(crate) buffers: sqlite_btree::Scratch,
    loads: Loads,
}

impl Scratch {
    pub fn new(alloc: Global) -> Scratch {
        Scratch {
            buffers: sqlite_btree::Scratch::new(alloc),
            loads: Loads::of_changes(alloc),
        }
    }
}

/// The pages of a store that is changed, each loaded a few times at most between two writes.
#[derive(Drop)]
struct Bounded<'p, P: Pages> {
    store: &'p mut P,
    loads: &'p mut Loads,
}

impl<P: Pages> Pages for Bounded<'_, P> {
    ghost use Rattle.std.proofs.Common.{◌≡◌, refl, ◌∙◌};

    ghost pages = { λ it. P.Pages.pages it.store.now };

    ghost size = { λ it. P.Pages.size it.store.now };

    ghost current = { λ it. P.Pages.current it.store.now };

    ghost faults = { λ it. P.Pages.faults it.store.now };

    ghost is_clean = { λ it. P.Pages.is_clean it.store.now };

    ghost is_shut = { λ it. P.Pages.is_shut it.store.now };

    ghost is_full = { λ it. P.Pages.is_full it.store.now };

    ghost follows = { λ old new. (new.store.ghost_name ≡ old.store.ghost_name) × (new.loads.ghost_name ≡ old.loads.ghost_name)
        × P.Pages.follows old.store.now new.store.now };

    ghost follows_refl = { λ it. (refl, refl, P.Pages.follows_refl it.store.now) };

    ghost follows_trans = { λ a b c first second. (
      second.0 ∙ first.0,
      second.1 ∙ first.1,
      P.Pages.follows_trans a.store.now b.store.now c.store.now first.2 second.2,
    ) };

    fn load(&mut self, page: u32) -> Result<(), Error> {
        self.loads.begin()?;
        self.store.load(page)?;
        self.loads.count(page)
    }

    fn loaded(&self) -> &[u8] {
        self.store.loaded()
    }

    fn write(&mut self, page: u32, bytes: &[u8]) -> Result<(), Error> {
        self.loads.restart();
        self.store.write(page, bytes)
    }

    fn allocate(&mut self) -> Result<u32, Error> {
        self.loads.restart();
        self.store.allocate()
    }

    fn free(&mut self, page: u32) -> Result<(), Error> {
        self.loads.restart();
        self.store.free(page)
    }
}

/// Inserts a record, as `index::insert`.
pub fn insert_record<P: Pages, C: Probe>(
    store: &mut P,
    scratch: &mut Scratch,
    root: u32,
    probe: &C,
    fields: &[u8],
) -> Result<bool, Error>
    requires { length fields.now < 2 ^ 31 }
    ensures done { InsertsRecord P.Pages store.old store.new (C.Probe.side probe.now) root fields.now result }
    ensures kept { Continues P.Pages store.old store.new }
{
    scratch.loads.restart();
    let mut bounded = Bounded {
        store,
        loads: &mut scratch.loads,
    };
    index::insert(&mut bounded, &mut scratch.buffers, root, probe, fields)
}

/// Removes a record, as `index::remove`.
pub fn remove_record<P: Pages, C: Probe>(
    store: &mut P,
    scratch: &mut Scratch,
    root: u32,
    probe: &C,
) -> Result<bool, Error>
    ensures done { RemovesRecord P.Pages store.old store.new (C.Probe.side probe.now) root result }
    ensures kept { Continues P.Pages store.old store.new }
{
    scratch.loads.restart();
    let mut bounded = Bounded {
        store,
        loads: &mut scratch.loads,
    };
    index::remove(&mut bounded, &mut scratch.buffers, root, probe)
}
