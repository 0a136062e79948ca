// The root page of a table or an index, by its name.
ghost use Rattle.std.specs.Prelude.{◌≡◌, MatchResult};
ghost use Rattle.sqlite_pages.specs.Calls.{IsClean, Continues, FailsFor};
ghost use Rattle.sqlite_value.specs.Value.{owned};
ghost use Rattle.sqlite_store.specs.Catalog.{page_number};
ghost use Rattle.page_rows.specs.Rows.{HasTable, rows_of};
ghost use Rattle.page_rows.specs.Roots.{names_tree, root_in_list};

use crate::errors::WalkError;
use crate::records::read_row;
use crate::sinks::RowSink;
use crate::walks::walk;
use sqlite_pages::{Error, Pages};
use sqlite_trees::sound::is_word;
use sqlite_value::row::Row;
use sqlite_value::value::ValueRef;
use std::alloc::{AllocError, Global};

/// The root of `sqlite_schema`, the table that lists the others.
const SCHEMA_ROOT: u32 = 1;

/// A page number, or 0 for any other value.
fn page_in(value: ValueRef<'_>) -> u32
    ensures { result ≡ page_number (owned value.entry) }
{
    match value {
        ValueRef::Int(n) if 0 <= n && n <= 0xffff_ffff => n as u32,
        _ => 0,
    }
}

fn is_entry_of(entry: &Row, kind: &[u8], name: &[u8]) -> bool
    ensures { result ≡ names_tree kind.now name.now entry.now }
{
    is_word(kind, entry.get(1)) & is_word(name, entry.get(2))
}

/// Looks for a tree's entry among those of `sqlite_schema`, up to the first.
#[derive(Drop)]
struct Seeker<'n> {
    kind: &'n [u8],
    name: &'n [u8],
    entry: Row,
    root: Option<u32>,
}

impl RowSink for Seeker<'_> {
    ghost use Rattle.std.specs.Prelude.{◌≡◌, ℕ, List, None, ⊤};
    ghost use Rattle.page_rows.specs.Roots.{IsFoundIn, root_in_list};

    type Refusal = AllocError;

    ghost Start = { List ℕ × List ℕ };

    ghost Has = { λ start rows s. (s.kind.now ≡ start.0) × (s.name.now ≡ start.1) × (s.root ≡ None) × (root_in_list start.0 start.1 rows ≡ None) };

    ghost Ends = { λ start rows s. IsFoundIn start.0 start.1 rows s.root };

    ghost Refuses = { λ _ _. ⊤ };

    fn take(&mut self, rowid: i64, payload: &[u8]) -> Result<bool, AllocError> {
        read_row(rowid, payload, &mut self.entry)?;
        if is_entry_of(&self.entry, self.kind, self.name) {
            self.root = Some(page_in(self.entry.get(4)));
            return Ok(false);
        }
        Ok(true)
    }
}

/// The root page of the tree of a kind (`table` or `index`) with a name, as the first entry of `sqlite_schema`
/// states it that is of this kind and name, byte for byte: 0 where it states no page number. Errors: those of
/// reading pages.
pub fn root_named<P: Pages>(
    store: &mut P,
    alloc: Global,
    kind: &[u8],
    name: &[u8],
) -> Result<Option<u32>, Error>
    ensures done { IsClean P.Pages store.new → HasTable (P.Pages.size store.old) (P.Pages.pages store.old) SCHEMA_ROOT
        → MatchResult result (λ root. root ≡ root_in_list kind.now name.now (rows_of (P.Pages.size store.old) (P.Pages.pages store.old) SCHEMA_ROOT))
        (FailsFor P.Pages store.old store.new ⊥) }
    ensures kept { Continues P.Pages store.old store.new }
    ensures pages { P.Pages.pages store.new ≡ P.Pages.pages store.old }
{
    let mut seeker = Seeker {
        kind,
        name,
        entry: Row::new(alloc),
        root: None,
    };
    match walk(store, alloc, SCHEMA_ROOT, i64::MIN, &mut seeker) {
        Ok(()) => Ok(seeker.root),
        Err(WalkError::Pages(error)) => Err(error),
        Err(WalkError::Refused(AllocError)) => Err(Error::OutOfMemory),
    }
}
