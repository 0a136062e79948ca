// A store in pages of which one allocation is refused, by tests/by_hand/refuse_each: the call that meets it says so and changes
// nothing, and the next call goes on.
use crate::changes::{CHANGES, Change};
use crate::stores::{change_pages, new_pages, told_of_pages};
use page_runs::PageRuns;
use run_stores::StoreError;
use sqlite_disk::Disk;
use std::alloc::Global;
use std::test::Fail;

/// What a store tells, asked again where memory is refused.
fn told_again<D: Disk>(store: &mut PageRuns<D>, alloc: Global) -> Result<Vec<u8>, StoreError> {
    match told_of_pages(store, alloc) {
        Err(StoreError::Memory) => told_of_pages(store, alloc),
        told => told,
    }
}

/// Changes a store, again where memory is refused, which changes nothing: what it told before, and tells then.
fn change_again<D: Disk>(
    store: &mut PageRuns<D>,
    alloc: Global,
    change: Change,
) -> Result<(Vec<u8>, Vec<u8>), Fail> {
    let before = told_again(store, alloc)?;
    if let Err(error) = change_pages(store, alloc, change) {
        let left = told_of_pages(store, alloc)?;
        if error != StoreError::Memory || left.as_slice() != before.as_slice() {
            return Err("another refusal, or it changed the store")?;
        }
        change_pages(store, alloc, change)?;
    }
    Ok((before, told_again(store, alloc)?))
}

/// Changes two stores, of which one at most meets the refusal: both tell the same, and each change shows.
fn change_both<D: Disk>(
    first: &mut PageRuns<D>,
    second: &mut PageRuns<D>,
    alloc: Global,
) -> Result<(), Fail> {
    for change in CHANGES {
        let (before, after) = change_again(first, alloc, change)?;
        let (_, expected) = change_again(second, alloc, change)?;
        let shows = before.as_slice() != after.as_slice();
        if after.as_slice() != expected.as_slice()
            || shows == matches!(change, Change::Checkpoint)
        {
            return Err("another change")?;
        }
    }
    Ok(())
}

pub fn memory_refused_to_change_pages(alloc: Global) -> Result<(), Fail> {
    let mut first = new_pages(alloc)?;
    let mut second = match new_pages(alloc) {
        Ok(store) => store,
        Err(end) => {
            // (a store that is let go by a call is faster to prove, here and below)
            drop(first);
            return Err(end)?;
        }
    };
    let changed = change_both(&mut first, &mut second, alloc);
    drop(first);
    drop(second);
    changed
}
