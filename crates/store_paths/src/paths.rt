// Paths of stores, and how their files are read and written.
ghost use Rattle.std.specs.Prelude.{◌↔◌, IsTrue, IfOk};
ghost use Rattle.store_paths.specs.Paths.{IsNoFile, KeepsPages};

use crate::errors::NotOpened;
use prof_store::OpenError;
use sqlite_pager::Options;
use std::hash::{BuildHasher, RandomState};
use std::rt::HostRuntime;

/// Whether a path is one that SQLite takes for something else than a file.
pub fn is_no_file(path: &str) -> bool
    ensures { IsTrue result ↔ IsNoFile path.now }
{
    path == ":memory:" || path.starts_with("file:")
}

/// How its pages are read and written: so many are kept, and so many that were written, before these go to the log,
/// which a salt of chance marks. That it is of chance no clause says.
pub fn options_for(rt: &HostRuntime, pages: usize) -> Result<Options, NotOpened>
    ensures { IfOk result (KeepsPages pages) }
{
    let Ok(keys) = RandomState::new(rt) else {
        return Err(OpenError::Store.into());
    };
    let mut options = Options::new(keys.hash_one(&0u8));
    options.cache_pages = pages;
    options.spill_pages = pages;
    Ok(options)
}
