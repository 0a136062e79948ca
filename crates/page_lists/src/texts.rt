// Whether a file has our tables.
ghost use Rattle.std.specs.Prelude.{◌≡◌, ◌<◌, ◌||◌, false, map, IfOk, IfSome, IsTrue, OnOk};
ghost use Rattle.sqlite_trees.specs.Sound.{is_text};
ghost use Rattle.sqlite_value.specs.Order.{column};
ghost use Rattle.sqlite_value.specs.Value.{owned};
ghost use Rattle.page_files.specs.Files.{IsFaithful, OnlyReads};
ghost use Rattle.page_lists.specs.Entries.{entries_in, is_added, place_in_schema, place_named, AreCounted, HasSchema, IsCounted, IsFoundOf, IsMadeAs};
ghost use Rattle.page_lists.specs.Texts.{alone_in, failure_of_entries, our_text, table_texts};

use crate::alike::have_same_rows;
use page_files::PageFile;
use page_places::{TABLE_NAMES, error_of};
use page_rows::{RowSink, WalkError, read_row};
use plain_tables::StoreError;
use sqlite_disk::Disk;
use sqlite_trees::sound::is_word;
use sqlite_value::row::Row;
use sqlite_value::value::ValueRef;
use std::alloc::{AllocError, Global};

/// The root of `sqlite_schema`, the table that lists the others.
const SCHEMA_ROOT: u32 = 1;

/// The texts that make the tables, in the order of schema 2: src/making.rt of `prof_store` runs them, and SQL
/// keeps them as they are.
const TEXTS: [&str; 11] = [
    "CREATE TABLE meta (id INTEGER PRIMARY KEY CHECK (id = 1), schema INTEGER NOT NULL, next_run INTEGER NOT NULL) STRICT",
    "CREATE TABLE run (run INTEGER PRIMARY KEY, kind INTEGER NOT NULL, digest BLOB NOT NULL UNIQUE, label TEXT NOT NULL, call_count INTEGER NOT NULL) STRICT",
    "CREATE TABLE run_event (run INTEGER NOT NULL REFERENCES run ON DELETE CASCADE, pos INTEGER NOT NULL, name BLOB NOT NULL, self_cost INTEGER NOT NULL, call_cost INTEGER NOT NULL, stated TEXT, PRIMARY KEY (run, pos), UNIQUE (run, name)) STRICT",
    "CREATE TABLE derived (run INTEGER NOT NULL REFERENCES run ON DELETE CASCADE, pos INTEGER NOT NULL, name BLOB NOT NULL, PRIMARY KEY (run, pos), UNIQUE (run, name)) STRICT",
    "CREATE TABLE coef (run INTEGER NOT NULL REFERENCES run ON DELETE CASCADE, pos INTEGER NOT NULL, event INTEGER NOT NULL, n INTEGER NOT NULL, PRIMARY KEY (run, pos, event)) STRICT",
    "CREATE TABLE name (id INTEGER PRIMARY KEY, bytes BLOB NOT NULL UNIQUE) STRICT",
    "CREATE TABLE arc (run INTEGER NOT NULL REFERENCES run ON DELETE CASCADE, ob INTEGER NOT NULL, fl INTEGER NOT NULL, fn INTEGER NOT NULL, line INTEGER NOT NULL, cob INTEGER NOT NULL, cfl INTEGER NOT NULL, cfn INTEGER NOT NULL, part INTEGER NOT NULL, n INTEGER NOT NULL, PRIMARY KEY (run, ob, fl, fn, line, cob, cfl, cfn, part)) STRICT",
    "CREATE TABLE stack (run INTEGER NOT NULL REFERENCES run ON DELETE CASCADE, frames BLOB NOT NULL, n INTEGER NOT NULL, PRIMARY KEY (run, frames)) STRICT",
    "CREATE TABLE grp (name TEXT NOT NULL PRIMARY KEY, baseline INTEGER REFERENCES run ON DELETE SET NULL) STRICT",
    "CREATE TABLE member (grp TEXT NOT NULL REFERENCES grp ON DELETE CASCADE, run INTEGER NOT NULL REFERENCES run ON DELETE CASCADE, PRIMARY KEY (grp, run)) STRICT",
    "CREATE TABLE thread_cell (run INTEGER NOT NULL REFERENCES run ON DELETE CASCADE, thread INTEGER NOT NULL, ob INTEGER NOT NULL, fl INTEGER NOT NULL, fn INTEGER NOT NULL, line INTEGER NOT NULL, event INTEGER NOT NULL, cost INTEGER NOT NULL, PRIMARY KEY (run, fn, line, fl, ob, thread, event)) STRICT",
];

/// The texts that make the tables: those of which the schema is read.
fn texts_of_tables() -> [&'static str; 11]
    ensures { map (λ text. text.now) result ≡ table_texts }
{
    TEXTS
}

/// Whose tables a file has, and whose indexes.
#[derive(Clone, Copy, Debug, PartialEq, Eq)]
pub(crate) enum Found {
    /// Ours, and what stands on them is ours too.
    Ours,
    /// Ours, on which another program has put an index or a trigger: a change of their pages would pass it by.
    OursWithMore,
    /// Others, or not all of ours.
    Others,
}

impl Found {
    /// Whether what stands on our tables is ours too. `Store` where the tables are not ours.
    pub(crate) fn is_alone(self) -> Result<bool, StoreError>
        ensures { result ≡ alone_in self }
    {
        match self {
            Found::Ours => Ok(true),
            Found::OursWithMore => Ok(false),
            Found::Others => Err(StoreError::Store),
        }
    }
}

/// The place in schema 2 of the table that a column of an entry of `sqlite_schema` names.
fn place_of_table(entry: &Row, at: usize) -> Option<usize>
    ensures named { result ≡ place_named (column entry.now at) }
    ensures within { IfSome result (λ place. place < 11) }
{
    let names = TABLE_NAMES;
    names
        .iter()
        .position(|name| is_word(name.as_bytes(), entry.get(at)))
}

/// Our text of the table at a place of schema 2.
fn text_of_table(at: usize) -> &'static [u8]
    requires { at < 11 }
    ensures { result.now ≡ our_text at }
{
    texts_of_tables()[at].as_bytes()
}

/// Whether an entry of `sqlite_schema` is the table at a place of schema 2: made by our text, or with the same rows.
fn is_table_at(alloc: Global, entry: &Row, at: usize) -> Result<bool, AllocError>
    requires { at < 11 }
    ensures { IfOk result (λ is. IsTrue is → IsMadeAs at entry.now) }
{
    let ours = text_of_table(at);
    match entry.get(5) {
        ValueRef::Text(text) if text == ours => Ok(true),
        ValueRef::Text(text) => have_same_rows(alloc, text, ours),
        _ => Ok(false),
    }
}

/// Whether a value is text.
fn is_text(value: ValueRef<'_>) -> bool
    ensures { result ≡ is_text (owned value.entry) }
{
    matches!(value, ValueRef::Text(_))
}

/// Whether an entry of `sqlite_schema` is an index with a text of its own, or a trigger, and stands on one of our tables.
/// An index that a table has by its text has none.
fn is_added(entry: &Row) -> bool
    ensures { result ≡ is_added entry.now }
{
    (is_word(b"trigger", entry.get(1)) | (is_word(b"index", entry.get(1)) & is_text(entry.get(5))))
        & place_of_table(entry, 3).is_some()
}

/// Takes the entries of `sqlite_schema`, as long as those with the names of our tables are ours.
#[derive(Drop)]
struct Listed {
    alloc: Global,
    entry: Row,
    ours: usize,
    has_other: bool,
    has_more: bool,
}

impl Listed {
    /// Takes the entry of a table.
    fn take_table(&mut self) -> Result<(), AllocError>
        ensures counted { OnOk result (self.new.has_other ≡ false
            → IsCounted (place_named (column self.old.entry 2)) self.old.entry self.old.ours self.new.ours) }
        ensures more { OnOk result (self.new.has_more ≡ self.old.has_more) }
    {
        let Some(at) = place_of_table(&self.entry, 2) else {
            return Ok(());
        };
        if !is_table_at(self.alloc, &self.entry, at)? {
            self.has_other = true;
            return Ok(());
        }
        self.ours = self.ours.saturating_add(1);
        Ok(())
    }

    /// Takes the entry that was read.
    fn take_entry(&mut self) -> Result<(), AllocError>
        ensures counted { OnOk result (self.new.has_other ≡ false
            → IsCounted (place_in_schema self.old.entry) self.old.entry self.old.ours self.new.ours) }
        ensures more { OnOk result (self.new.has_more ≡ (self.old.has_more || is_added self.old.entry)) }
    {
        self.has_more |= is_added(&self.entry);
        if is_word(b"table", self.entry.get(1)) {
            self.take_table()
        } else {
            Ok(())
        }
    }

    /// Whose tables the entries are, where all of them were taken.
    fn tables_found(&self) -> Found
        ensures { (entries : _) → (self.now.has_other ≡ false → AreCounted entries self.now.ours self.now.has_more) → IsFoundOf entries result }
    {
        if self.ours != 11 || self.has_other {
            Found::Others
        } else if self.has_more {
            Found::OursWithMore
        } else {
            Found::Ours
        }
    }
}

impl RowSink for Listed {
    ghost use Rattle.std.specs.Prelude.{◌≡◌, true, ⊤};
    ghost use Rattle.page_lists.specs.Entries.{AreCounted};

    type Refusal = AllocError;

    ghost Start = { Unit {0} };

    ghost Has = { λ _ entries s. AreCounted entries s.ours s.has_more };

    ghost Ends = { λ _ _ s. s.has_other ≡ true };

    ghost Refuses = { λ _ _. ⊤ };

    fn take(&mut self, rowid: i64, payload: &[u8]) -> Result<bool, AllocError> {
        read_row(rowid, payload, &mut self.entry)?;
        self.take_entry()?;
        Ok(!self.has_other)
    }
}

/// What ended a walk over the entries of `sqlite_schema`: one is refused where memory is, and for nothing that it says.
fn error_of_entries(error: WalkError<AllocError>) -> StoreError
    ensures { result ≡ failure_of_entries error }
{
    match error {
        WalkError::Pages(error) => error_of(error),
        WalkError::Refused(_) => StoreError::Memory,
    }
}

/// Whose tables a file has. Ours are those of schema 2, with our columns and keys, so that their rows and those of their
/// indexes are as we read and write them. Other tables and views may stand beside them. That others are no tables of ours,
/// no clause says. `Memory`; `Store` where a page cannot be read.
pub(crate) fn find_tables<D: Disk>(
    file: &mut PageFile<D>,
    alloc: Global,
) -> Result<Found, StoreError>
    ensures found { IsFaithful file.new → HasSchema file.old → IfOk result (IsFoundOf (entries_in file.old)) }
    ensures reads { OnlyReads file.old file.new }
{
    let mut listed = Listed {
        alloc,
        entry: Row::new(alloc),
        ours: 0,
        has_other: false,
        has_more: false,
    };
    match file.walk(alloc, SCHEMA_ROOT, i64::MIN, &mut listed) {
        Ok(()) => Ok(listed.tables_found()),
        Err(error) => Err(error_of_entries(error)),
    }
}
