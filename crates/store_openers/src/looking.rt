// The store at a path, read beside others, and why one that is not to be changed is refused.
ghost use Rattle.std.specs.Prelude.{◌≡◌, IfOk};
ghost use Rattle.page_runs.specs.States.{state_of};
ghost use Rattle.store_paths.specs.Opened.{RepresentsHeld};
ghost use Rattle.store_paths.specs.Shown.{HoldsInOrder};

use crate::opening::{changed_by_another, may_be_changed_in, store_in};
use crate::refusing::{PAGES_TO_READ, unread};
use page_runs::PageRuns;
use sqlite_disk::Disk;
use std::rt::HostRuntime;
use store_paths::{
    FileOpener, NotOpened, Standing, StoreMaker, Unread, has_same_log, has_stood, is_no_file,
    options_for,
};

/// A store that was opened beside others, if its log is still the one that was read.
fn kept_beside<D: Disk + Drop>(
    store: PageRuns<D>,
    standing: Standing,
) -> Result<(PageRuns<D>, Standing), Unread>
    ensures { IfOk result (λ kept. kept.0 ≡ store) }
{
    if has_same_log(&standing) {
        Ok((store, standing))
    } else {
        drop(store);
        Err(Unread::Moved)
    }
}

/// The store at a path, to be read beside others, and what its files were.
pub(crate) fn beside<F: FileOpener, M: StoreMaker<F>>(
    rt: &HostRuntime,
    path: &str,
) -> Result<(PageRuns<F::File>, Standing), Unread>
    ensures { IfOk result (λ opened. RepresentsHeld state_of (HoldsInOrder F.FileOpener.image) opened.0) }
{
    let Ok(options) = options_for(rt, PAGES_TO_READ) else {
        return Err(Unread::Unfit);
    };
    let (files, standing) = F::beside(rt, path)?;
    match store_in(rt.alloc(), files, options, 0) {
        Ok(store) => kept_beside(store, standing),
        Err(error) => Err(unread::<F, M>(rt, path, &standing, error)),
    }
}

/// Whether the pages of the store at a path say that it may be changed, whoever writes it meanwhile. No lock is taken. No
/// guarantee: of files the checker knows nothing, here and below.
fn may_be_changed<F: FileOpener>(rt: &HostRuntime, path: &str) -> bool {
    let (Some(files), Ok(options)) = (F::to_look(rt, path), options_for(rt, PAGES_TO_READ)) else {
        return false;
    };
    may_be_changed_in(rt.alloc(), files, options)
}

/// Refuses the store at a path that is not to be opened to be changed, for what it is.
pub(crate) fn look_beside<F: FileOpener, M: StoreMaker<F>>(
    rt: &HostRuntime,
    path: &str,
) -> Result<(), NotOpened> {
    if is_no_file(path) || may_be_changed::<F>(rt, path) {
        return Ok(());
    }
    match beside::<F, M>(rt, path) {
        Ok((store, standing)) => {
            let may_be_changed = store.may_be_changed();
            drop(store);
            if may_be_changed || !has_stood(rt, &standing) {
                Ok(())
            } else {
                Err(changed_by_another())
            }
        }
        Err(Unread::Refused(end)) => Err(end),
        Err(_) => Ok(()),
    }
}
