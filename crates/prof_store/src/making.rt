// The tables of a new store.
ghost use Rattle.std.specs.Prelude.{◌≡◌, ◌↔◌, ◌++◌, ◌∷◌, [], List, false, IsTrue, IfErr, OnOk, OnErr};
ghost use Rattle.std.specs.Result.{is_ok};
ghost use Rattle.sqlite_value.specs.Order.{Row};
ghost use Rattle.sqlite.specs.Held.{state};
ghost use Rattle.sqlite.specs.State.{HasCleanDisk, Survives};
ghost use Rattle.sql_tables.specs.Calls.{Stays};
ghost use Rattle.sql_tables.specs.Contents.{no_rows, without_content};
ghost use Rattle.prof_store.specs.Within.{CommitsUnlessShut};
ghost use Rattle.sql_tables.specs.States.{Rests, IsBlank};
ghost use Rattle.prof_store.specs.Schema.{empty_schema, schema_to_derived, schema_to_arc, schema_one, schema_both, schema_two};
ghost use Rattle.plain_tables.specs.Tables.{new_tables};
ghost use Rattle.prof_store.specs.Tables.{Holds};
ghost use Rattle.prof_store.specs.declared.errors.OpenError.TheVariants as ends;
ghost use Rattle.prof_store.specs.Created.{Creates, IsUndone};
ghost use Rattle.prof_store.specs.Making.{BeginsStore, ChangesTables, CommitsNothing, FillsStore, MakesTables};

use crate::{OpenError, StoreError, error_of, write_inside};
use sqlite::{Alter, Connection, Transaction};
use sqlite_schema::schema::Schema;

/// Makes the tables of runs and their events.
fn make_first_tables<S: Alter>(tx: &mut Transaction<'_, S>) -> Result<(), StoreError>
    ensures { MakesTables S.Store (is_ok result) empty_schema schema_to_derived tx.old tx.new }
{
    write_inside(
        tx,
        "CREATE TABLE meta (id INTEGER PRIMARY KEY CHECK (id = 1), schema INTEGER NOT NULL, next_run INTEGER NOT NULL) STRICT",
        &[],
    )?;
    write_inside(
        tx,
        "CREATE TABLE run (run INTEGER PRIMARY KEY, kind INTEGER NOT NULL, digest BLOB NOT NULL UNIQUE, label TEXT NOT NULL, call_count INTEGER NOT NULL) STRICT",
        &[],
    )?;
    write_inside(
        tx,
        "CREATE TABLE run_event (run INTEGER NOT NULL REFERENCES run ON DELETE CASCADE, pos INTEGER NOT NULL, name BLOB NOT NULL, self_cost INTEGER NOT NULL, call_cost INTEGER NOT NULL, stated TEXT, PRIMARY KEY (run, pos), UNIQUE (run, name)) STRICT",
        &[],
    )?;
    write_inside(
        tx,
        "CREATE TABLE derived (run INTEGER NOT NULL REFERENCES run ON DELETE CASCADE, pos INTEGER NOT NULL, name BLOB NOT NULL, PRIMARY KEY (run, pos), UNIQUE (run, name)) STRICT",
        &[],
    )
}

/// Makes the tables of names, cells and calls.
fn make_row_tables<S: Alter>(tx: &mut Transaction<'_, S>) -> Result<(), StoreError>
    ensures { MakesTables S.Store (is_ok result) schema_to_derived schema_to_arc tx.old tx.new }
{
    write_inside(
        tx,
        "CREATE TABLE coef (run INTEGER NOT NULL REFERENCES run ON DELETE CASCADE, pos INTEGER NOT NULL, event INTEGER NOT NULL, n INTEGER NOT NULL, PRIMARY KEY (run, pos, event)) STRICT",
        &[],
    )?;
    write_inside(
        tx,
        "CREATE TABLE name (id INTEGER PRIMARY KEY, bytes BLOB NOT NULL UNIQUE) STRICT",
        &[],
    )?;
    write_inside(
        tx,
        "CREATE TABLE cell (run INTEGER NOT NULL REFERENCES run ON DELETE CASCADE, ob INTEGER NOT NULL, fl INTEGER NOT NULL, fn INTEGER NOT NULL, line INTEGER NOT NULL, event INTEGER NOT NULL, cost INTEGER NOT NULL, PRIMARY KEY (run, ob, fl, fn, line, event)) STRICT",
        &[],
    )?;
    write_inside(
        tx,
        "CREATE TABLE arc (run INTEGER NOT NULL REFERENCES run ON DELETE CASCADE, ob INTEGER NOT NULL, fl INTEGER NOT NULL, fn INTEGER NOT NULL, line INTEGER NOT NULL, cob INTEGER NOT NULL, cfl INTEGER NOT NULL, cfn INTEGER NOT NULL, part INTEGER NOT NULL, n INTEGER NOT NULL, PRIMARY KEY (run, ob, fl, fn, line, cob, cfl, cfn, part)) STRICT",
        &[],
    )
}

/// Makes the tables of stacks and groups.
fn make_last_tables<S: Alter>(tx: &mut Transaction<'_, S>) -> Result<(), StoreError>
    ensures { MakesTables S.Store (is_ok result) schema_to_arc schema_one tx.old tx.new }
{
    write_inside(
        tx,
        "CREATE TABLE stack (run INTEGER NOT NULL REFERENCES run ON DELETE CASCADE, frames BLOB NOT NULL, n INTEGER NOT NULL, PRIMARY KEY (run, frames)) STRICT",
        &[],
    )?;
    write_inside(
        tx,
        "CREATE TABLE grp (name TEXT NOT NULL PRIMARY KEY, baseline INTEGER REFERENCES run ON DELETE SET NULL) STRICT",
        &[],
    )?;
    write_inside(
        tx,
        "CREATE TABLE member (grp TEXT NOT NULL REFERENCES grp ON DELETE CASCADE, run INTEGER NOT NULL REFERENCES run ON DELETE CASCADE, PRIMARY KEY (grp, run)) STRICT",
        &[],
    )
}

/// Makes the table of cells of threads, beside tables of version 1 with whatever rows.
pub(crate) fn make_thread_cells<S: Alter>(tx: &mut Transaction<'_, S>) -> Result<(), StoreError>
    ensures makes { (contents : List (List Row)) → ChangesTables S.Store (is_ok result) schema_one contents schema_both (contents ++ [] ∷ []) tx.old tx.new }
    ensures keeps { CommitsNothing S.Store (is_ok result) tx.old tx.new }
{
    write_inside(
        tx,
        "CREATE TABLE thread_cell (run INTEGER NOT NULL REFERENCES run ON DELETE CASCADE, thread INTEGER NOT NULL, ob INTEGER NOT NULL, fl INTEGER NOT NULL, fn INTEGER NOT NULL, line INTEGER NOT NULL, event INTEGER NOT NULL, cost INTEGER NOT NULL, PRIMARY KEY (run, fn, line, fl, ob, thread, event)) STRICT",
        &[],
    )
}

/// Drops the table of cells of version 1, whatever rows the tables have.
pub(crate) fn drop_cells<S: Alter>(tx: &mut Transaction<'_, S>) -> Result<(), StoreError>
    ensures makes { (contents : List (List Row)) → ChangesTables S.Store (is_ok result) schema_both contents schema_two
        (without_content 6 contents) tx.old tx.new }
    ensures keeps { CommitsNothing S.Store (is_ok result) tx.old tx.new }
{
    write_inside(tx, "DROP TABLE cell", &[])
}

/// Puts the table of cells of threads in the place of the one without, where no table has rows.
fn bring_up<S: Alter>(tx: &mut Transaction<'_, S>) -> Result<(), StoreError>
    ensures { ChangesTables S.Store (is_ok result) schema_one (no_rows schema_one.tables) schema_two (no_rows schema_two.tables) tx.old tx.new }
{
    make_thread_cells(tx)?;
    drop_cells(tx)
}

/// Writes the row of a new store.
fn begin_meta<S: Alter>(tx: &mut Transaction<'_, S>) -> Result<(), StoreError>
    ensures { BeginsStore S.Store (is_ok result) tx.old tx.new }
{
    write_inside(
        tx,
        "INSERT INTO meta (id, schema, next_run) VALUES (1, 2, 1)",
        &[],
    )
}

/// Makes the tables of a new store, within a transaction.
fn fill_new<S: Alter>(tx: &mut Transaction<'_, S>) -> Result<(), StoreError>
    ensures { FillsStore S.Store (is_ok result) tx.old tx.new }
{
    make_first_tables(tx)?;
    make_row_tables(tx)?;
    make_last_tables(tx)?;
    bring_up(tx)?;
    begin_meta(tx)
}

/// Makes the tables of a new store in a database that has none, in one transaction.
fn create_in<S: Alter>(conn: &mut Connection<S>) -> Result<(), StoreError>
    requires { conn.old.in_transaction ≡ false }
    ensures done { HasCleanDisk (state S.Store conn.new) → IsBlank empty_schema (state S.Store conn.old)
        → OnOk result (Rests schema_two (Holds new_tables) (state S.Store conn.new)) }
    ensures undone { HasCleanDisk (state S.Store conn.new) → OnErr result (IsUndone (state S.Store conn.old) (state S.Store conn.new)) }
    ensures stays { HasCleanDisk (state S.Store conn.new) → Stays (is_ok result) (state S.Store conn.old) (state S.Store conn.new) }
    ensures crash { IsBlank empty_schema (state S.Store conn.old) → Survives (state S.Store conn.old) (state S.Store conn.new) (Holds new_tables) }
    ensures shut { CommitsUnlessShut S.Store conn.old conn.new }
{
    let mut tx = conn.transaction();
    fill_new(&mut tx)?;
    match tx.commit() {
        Ok(()) => Ok(()),
        Err(error) => Err(error_of(error)),
    }
}

/// Whether a database has no table, index, view or trigger.
fn is_blank(schema: &Schema) -> bool
    ensures { IsTrue result ↔ (schema.now ≡ empty_schema) }
{
    schema.tables.as_slice().is_empty()
        && schema.indexes.as_slice().is_empty()
        && schema.views.as_slice().is_empty()
}

/// Makes the tables of a new store, in one transaction, in a database that has no table. `WrongSchema`
/// says that it has some; `Store` answers a connection within a transaction too.
pub fn create_tables<S: Alter>(conn: &mut Connection<S>) -> Result<(), OpenError>
    ensures wrong { IfErr result (λ end. (end ≡ ends.WrongSchema) ↔ (¬ ((state S.Store conn.old).now.schema ≡ empty_schema))) }
    ensures creates { HasCleanDisk (state S.Store conn.new) → Creates (is_ok result) (state S.Store conn.old) (state S.Store conn.new) }
{
    if !is_blank(conn.schema()) {
        return Err(OpenError::WrongSchema);
    }
    if !conn.is_autocommit() {
        return Err(OpenError::Store);
    }
    match create_in(conn) {
        Ok(()) => Ok(()),
        Err(end) => Err(OpenError::from(end)),
    }
}
