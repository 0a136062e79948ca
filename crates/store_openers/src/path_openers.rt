// What opens the store at a path, over any files.
ghost use Rattle.store_paths.specs.Shown.{HoldsInOrder};

use crate::looking::{beside, look_beside};
use crate::opening::{store_in, store_to_change_in};
use crate::refusing::PAGES_TO_READ;
use page_runs::PageRuns;
use plain_tables::StoreError;
use sqlite_disk::Disk;
use std::marker::PhantomData;
use std::rt::HostRuntime;
use store_paths::{
    FileOpener, NotOpened, Opener, Patience, Standing, StoreMaker, Unread, options_for,
};

/// How many are kept where a store is changed or served, 2 MB, and as many again of those that were written: rows are
/// appended, but names and their index are written where they fall.
const PAGES_TO_CHANGE: usize = 500;

/// Opens the store at a path, whose files `F` opens, and which `M` makes.
pub struct PathOpener<F: FileOpener, M: StoreMaker<F>> {
    _files: PhantomData<F>,
    _maker: PhantomData<M>,
}

impl<F: FileOpener, M: StoreMaker<F>> Opener<PageRuns<F::File>> for PathOpener<F, M> {
    ghost held = { HoldsInOrder F.FileOpener.image };

    fn make_missing(rt: &HostRuntime, path: &str, patience: Patience) -> Result<bool, NotOpened> {
        M::make_missing(rt, path, patience)
    }

    fn look(rt: &HostRuntime, path: &str, patience: Patience) -> Result<(), NotOpened> {
        M::look(rt, path, patience)
    }

    fn look_beside(rt: &HostRuntime, path: &str) -> Result<(), NotOpened> {
        look_beside::<F, M>(rt, path)
    }

    fn beside(rt: &HostRuntime, path: &str) -> Result<(PageRuns<F::File>, Standing), Unread> {
        beside::<F, M>(rt, path)
    }

    fn alone(
        rt: &HostRuntime,
        path: &str,
        patience: Patience,
    ) -> Result<PageRuns<F::File>, NotOpened> {
        let files = F::alone(rt, path, patience)?;
        let options = options_for(rt, PAGES_TO_READ)?;
        Ok(store_in(rt.alloc(), files, options, 0)?)
    }

    fn to_change(
        rt: &HostRuntime,
        path: &str,
        patience: Patience,
        cells_to_keep: usize,
    ) -> Result<PageRuns<F::File>, NotOpened> {
        let files = F::to_change(rt, path, patience)?;
        let options = options_for(rt, PAGES_TO_CHANGE)?;
        store_to_change_in(rt.alloc(), files, options, cells_to_keep)
    }

    fn checkpoint(store: &mut PageRuns<F::File>) -> Result<(), StoreError> {
        store.checkpoint()
    }

    fn has_met_full_disk(store: PageRuns<F::File>) -> bool {
        let files = store.into_file().close();
        files.log.tally().refused > 0 || files.db.tally().refused > 0
    }
}
