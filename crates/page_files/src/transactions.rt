// A transaction: rows and entries are written, and committed or undone.
ghost use Rattle.std.specs.Prelude.{◌≡◌, ◌^◌, ◌<◌, ℕ, List, length, IsTrue, IfErr, OnOk, OnErr, MatchResult};
ghost use Rattle.sqlite_pool.specs.Pool as pools;
ghost use Rattle.sqlite_pool.specs.Stored.{Keeps};
ghost use Rattle.sqlite_wal.specs.State.{StaysOrFails};
ghost use Rattle.sqlite_record.specs.Record.{decode};
ghost use Rattle.sqlite_record.specs.Strict.{IsRecord};
ghost use Rattle.sqlite_store.specs.declared.catalog.Wanted.{Wanted};
ghost use Rattle.sqlite_store.specs.Db.{table_row};
ghost use Rattle.sqlite_trees.specs.Tree.{Trees, put_row, without_rowid, insert_entry, remove_entry};
ghost use Rattle.page_files.specs.Files.{files_of, pages_of, IsFaithful, IsUsable, LeavesUsable};
ghost use Rattle.page_files.specs.Held.{Rests, StandsOn, Writes};
ghost use Rattle.page_files.specs.Writes.{CommitsAtMost, EditsTree, FailsToWrite, Forgets, PlacesRow};

use crate::edits;
use crate::files::PageFile;
use sqlite_disk::Disk;
use sqlite_pages::Error;
use sqlite_trees::store::Shape;
use sqlite_value::keys::Order;
use sqlite_value::row::Row;

impl<D: Disk> PageFile<D> {
    /// Puts a row into the table under a root page, in the place of the row with that rowid. `fields` is
    /// the record of its columns. After an error `undo` is due: some of it may be written.
    ///
    /// # Errors
    /// `Io`, `OutOfMemory`, and `Full` where the file is as large as SQLite reads; `Corrupt` for damaged pages.
    pub fn put(&mut self, root: u32, rowid: i64, fields: &[u8]) -> Result<(), Error>
        requires short { length fields.now < 2 ^ 31 }
        requires strict { IsRecord fields.now }
        ensures done { PlacesRow self.old self.new Shape.Table root (table_row (rowid, fields.now)) put_row result }
        ensures leaves { LeavesUsable self.old self.new result }
    {
        edits::put(&mut self.pool, &mut self.scratch, root, rowid, fields)?;
        self.if_usable()
    }

    /// Takes the row with this rowid, if there is one, out of the table under a root page. After an error
    /// `undo` is due.
    ///
    /// # Errors
    /// As `put`.
    pub fn delete(&mut self, root: u32, rowid: i64) -> Result<(), Error>
        ensures done { EditsTree self.old self.new Shape.Table root (without_rowid rowid) result }
        ensures leaves { LeavesUsable self.old self.new result }
    {
        edits::delete(&mut self.pool, &mut self.scratch, root, rowid)?;
        self.if_usable()
    }

    /// Inserts an entry into the index under a root page, unless one is there that its order calls equal.
    /// `fields` is the entry's record. After an error `undo` is due.
    ///
    /// # Errors
    /// As `put`.
    pub fn insert(
        &mut self,
        root: u32,
        order: Order,
        entry: &Row,
        fields: &[u8],
    ) -> Result<(), Error>
        requires short { length fields.now < 2 ^ 31 }
        requires strict { IsRecord fields.now }
        requires encoded { decode fields.now ≡ entry.now }
        ensures done { PlacesRow self.old self.new (Shape.Index order) root entry.now (insert_entry order) result }
        ensures leaves { LeavesUsable self.old self.new result }
    {
        edits::insert(
            &mut self.pool,
            &mut self.scratch,
            root,
            order,
            entry,
            fields,
        )?;
        self.if_usable()
    }

    /// Takes the entry that the index's order calls equal to this one, if there is one, out of the index
    /// under a root page. After an error `undo` is due.
    ///
    /// # Errors
    /// As `put`.
    pub fn remove(&mut self, root: u32, order: Order, entry: &Row) -> Result<(), Error>
        ensures done { EditsTree self.old self.new (Shape.Index order) root (remove_entry order entry.now) result }
        ensures leaves { LeavesUsable self.old self.new result }
    {
        edits::remove(&mut self.pool, &mut self.scratch, root, order, entry)?;
        self.if_usable()
    }

    /// Makes what was written lasting. A crash leaves all of it or nothing. After an error all of it is
    /// forgotten, as by `undo`.
    ///
    /// # Errors
    /// `Io`, `OutOfMemory`, and `Full` where the log has no number for a further page.
    pub fn commit(&mut self) -> Result<(), Error>
        ensures done { IsFaithful self.new → (wanted : List Wanted) (roots : List ℕ) (was now : Trees) → Writes wanted roots was now self.old
            → MatchResult result (λ _. Rests wanted roots now self.new) (FailsToWrite self.old self.new) }
        ensures failed { IsFaithful self.new → (wanted : List Wanted) (roots : List ℕ) (was : Trees) → StandsOn wanted roots was self.old
            → OnErr result (IsUsable self.new → Rests wanted roots was self.new) }
        ensures forgets { IsFaithful self.new → OnErr result (IsUsable self.new → Forgets self.old self.new) }
        ensures crash { CommitsAtMost self.old self.new }
        ensures usable { OnOk result (IsUsable self.new) }
        ensures stays { StaysOrFails (pools.state self.old.pool) (pools.state self.new.pool) }
    {
        let version = self.pool.stored_version();
        self.pool.set_version(version);
        if let Err(error) = self.pool.commit() {
            self.pool.rollback();
            return Err(error);
        }
        self.if_usable()
    }

    /// Forgets what was written since the last commit. It reads and writes no file.
    pub fn undo(&mut self)
        ensures done { IsFaithful self.new → IsUsable self.new → (wanted : List Wanted) (roots : List ℕ) (was : Trees) → StandsOn wanted roots was self.old
            → Rests wanted roots was self.new }
        ensures forgets { IsFaithful self.new → IsUsable self.new → Forgets self.old self.new }
        ensures usable { (pools.state self.new.pool).is_ready ≡ (pools.state self.old.pool).is_ready }
        ensures files { files_of self.new ≡ files_of self.old }
        ensures keeps { Keeps (pools.state self.old.pool) (pools.state self.new.pool) }
    {
        self.pool.rollback();
    }

    /// Copies the log into the database file. What is not committed stays in the log.
    ///
    /// # Errors
    /// `Io` and `OutOfMemory`.
    pub fn checkpoint(&mut self) -> Result<(), Error>
        ensures cause { IsFaithful self.new → IsTrue (pools.state self.old.pool).is_open → IfErr result (FailsToWrite self.old self.new) }
        ensures rests { IsFaithful self.new → IsUsable self.new → (wanted : List Wanted) (roots : List ℕ) (db : Trees) → Rests wanted roots db self.old
            → Rests wanted roots db self.new }
        ensures moved { OnOk result (¬ pools.HasSpilled self.old.pool → pools.log_frames self.new.pool ≡ 0) }
        ensures pages { IsFaithful self.new → IsUsable self.new → pages_of self.new ≡ pages_of self.old }
        ensures leaves { LeavesUsable self.old self.new result }
    {
        self.pool.checkpoint()?;
        self.if_usable()
    }
}
