// The last leaf of a tree.
ghost use Rattle.std.specs.Prelude.{◌≤◌};
ghost use Rattle.sqlite_pages.specs.Calls.{Continues};
ghost use Rattle.page_files.specs.Leaves.{FindsLeaf};
ghost use Rattle.std.specs.Prelude.{◌≡◌};

use crate::store;
use sqlite_pages::{Error, Pages};

/// SQLite reads no deeper tree.
const MAX_DEPTH: usize = 20;

/// The last leaf below a page.
pub fn last_below<P: Pages>(store: &mut P, page: u32, depth: usize) -> Result<u32, Error>
    requires { depth ≤ 20 }
    ensures done { FindsLeaf P.Pages store.old store.new page depth result }
    ensures kept { Continues P.Pages store.old store.new }
    ensures pages { P.Pages.pages store.new ≡ P.Pages.pages store.old }
{
    if depth == MAX_DEPTH {
        return Err(Error::Corrupt);
    }
    store::load(store, page)?;
    let node = store::parse(store.loaded(), page)?;
    if node.kind.leaf {
        return Ok(page);
    }
    let right = node.right();
    last_below(store, right, depth + 1)
}
