// The tables of a store of version 1 become those of version 2.
ghost use Rattle.std.specs.Prelude.{◌≡◌, false, OnOk, OnErr};
ghost use Rattle.std.specs.Result.{is_ok};
ghost use Rattle.sqlite.specs.Held.{state};
ghost use Rattle.sqlite.specs.State.{HasCleanDisk, Survives};
ghost use Rattle.sql_tables.specs.Calls.{Stays};
ghost use Rattle.sql_tables.specs.States.{Rests, Works};
ghost use Rattle.prof_store.specs.Within.{CommitsUnlessShut};
ghost use Rattle.prof_store.specs.First.{HoldsFirst};
ghost use Rattle.prof_store.specs.Schema.{schema_one, schema_two};
ghost use Rattle.plain_tables.specs.Tables.{Tables};
ghost use Rattle.prof_store.specs.Tables.{Holds};
ghost use Rattle.prof_store.specs.Created.{IsUndone};
ghost use Rattle.prof_store.specs.Making.{CommitsNothing, Makes};
ghost use Rattle.prof_store.specs.Migrated.{Migrates};

use crate::making::{drop_cells, make_thread_cells};
use crate::{StoreError, error_of, write_inside};
use sqlite::{Alter, Connection, Transaction};

/// Moves the cells under thread 0 of the new table, within a transaction.
fn move_cells<S: Alter>(tx: &mut Transaction<'_, S>) -> Result<(), StoreError>
    ensures moves { (t : Tables) → Makes S.Store (is_ok result) (Works schema_one (HoldsFirst t)) (Works schema_two (Holds t)) tx.old tx.new }
    ensures keeps { CommitsNothing S.Store (is_ok result) tx.old tx.new }
{
    make_thread_cells(tx)?;
    write_inside(
        tx,
        "INSERT INTO thread_cell (run, thread, ob, fl, fn, line, event, cost) SELECT run, 0, ob, fl, fn, line, event, cost FROM cell ORDER BY rowid",
        &[],
    )?;
    drop_cells(tx)?;
    write_inside(tx, "UPDATE meta SET schema = 2", &[])
}

/// Makes version 2 of a store of version 1, in one transaction.
fn migrate_in<S: Alter>(conn: &mut Connection<S>) -> Result<(), StoreError>
    requires { conn.old.in_transaction ≡ false }
    ensures done { HasCleanDisk (state S.Store conn.new) → (t : Tables) → Rests schema_one (HoldsFirst t) (state S.Store conn.old)
        → OnOk result (Rests schema_two (Holds t) (state S.Store conn.new)) }
    ensures undone { HasCleanDisk (state S.Store conn.new) → OnErr result (IsUndone (state S.Store conn.old) (state S.Store conn.new)) }
    ensures stays { HasCleanDisk (state S.Store conn.new) → Stays (is_ok result) (state S.Store conn.old) (state S.Store conn.new) }
    ensures crash { (t : Tables) → Rests schema_one (HoldsFirst t) (state S.Store conn.old)
        → Survives (state S.Store conn.old) (state S.Store conn.new) (Holds t) }
    ensures shut { CommitsUnlessShut S.Store conn.old conn.new }
{
    let mut tx = conn.transaction();
    move_cells(&mut tx)?;
    match tx.commit() {
        Ok(()) => Ok(()),
        Err(error) => Err(error_of(error)),
    }
}

/// Makes version 2 of a store of version 1, in one transaction, whose commit is its last call of the
/// database: its cells go under thread 0, and all else is as it was. The copy takes about half a kilobyte
/// of memory for each cell. A refusal changes nothing. `Store` answers a connection within a transaction
/// too.
pub fn migrate<S: Alter>(conn: &mut Connection<S>) -> Result<(), StoreError>
    ensures { HasCleanDisk (state S.Store conn.new) → Migrates (is_ok result) (state S.Store conn.old) (state S.Store conn.new) }
{
    if !conn.is_autocommit() {
        return Err(StoreError::Store);
    }
    migrate_in(conn)
}
