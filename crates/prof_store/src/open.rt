// A store is taken up and handed back.
ghost use Rattle.std.specs.Prelude.{◌≡◌, ◌≢◌, ◌↔◌, ◌⊎◌, pos, [], true, false, Ok, Err, Some, IfOk, IfErr, OnOk};
ghost use Rattle.std.specs.Result.{is_ok};
ghost use Rattle.sqlite.specs.Held.{state};
ghost use Rattle.sqlite.specs.State.{HasCleanDisk, Survives, QueriesRow, CommitsShowing};
ghost use Rattle.sqlite_value.specs.declared.value.Value.TheVariants.{Int};
ghost use Rattle.sqlite_value.specs.Order.{column};
ghost use Rattle.prof_store.specs.Texts.{schema_sql};
ghost use Rattle.prof_store.specs.Schemas.{IsAskedFor, IsFirstStore, IsOpenedBy, IsStore, Opened, OpensAs, SaysVersion};
ghost use Rattle.prof_store.specs.Shown.{shown, IsFaithful};
ghost use Rattle.prof_store.specs.declared.open.Version.TheVariants as versions;
ghost use Rattle.prof_store.specs.declared.errors.OpenError.TheVariants as ends;

use crate::errors::{OpenError, error_of};
use crate::moving::migrate;
use crate::store::Store;
use sqlite::types::ValueRef;
use sqlite::{Alter, Connection, Error, Row};

/// The versions of tables that this program opens.
enum Version {
    First,
    Second,
}

fn select_schema<S: Alter>(conn: &mut Connection<S>) -> Result<Row, Error>
    ensures row { HasCleanDisk (state S.Store conn.new) → QueriesRow schema_sql [] (state S.Store conn.old) (state S.Store conn.new) result }
    ensures survives { Survives (state S.Store conn.old) (state S.Store conn.new) (CommitsShowing schema_sql [] (state S.Store conn.old)) }
{
    conn.query_row("SELECT schema FROM meta", &[])
}

/// The version whose number a row shows.
fn version_shown(row: &Row) -> Option<Version>
    ensures first { (result ≡ Some versions.First) ↔ (column row.now 0 ≡ Int (pos 1)) }
    ensures second { (result ≡ Some versions.Second) ↔ (column row.now 0 ≡ Int (pos 2)) }
{
    match row.get_ref(0) {
        Ok(ValueRef::Int(1)) => Some(Version::First),
        Ok(ValueRef::Int(2)) => Some(Version::Second),
        _ => None,
    }
}

/// The version that the answer to the query for the number of the schema says.
fn version_by(answer: Result<Row, Error>) -> Result<Version, OpenError>
    ensures { SaysVersion answer result }
{
    match answer {
        Ok(row) => match version_shown(&row) {
            Some(version) => Ok(version),
            None => Err(OpenError::WrongSchema),
        },
        Err(Error::SqlInputError(_) | Error::QueryReturnedNoRows) => Err(OpenError::WrongSchema),
        Err(error) => Err(OpenError::from(error_of(error))),
    }
}

/// The version of the tables of a database.
fn version_of<S: Alter>(conn: &mut Connection<S>) -> Result<Version, OpenError>
    ensures { HasCleanDisk (state S.Store conn.new) → IsAskedFor result (state S.Store conn.old) (state S.Store conn.new) }
{
    let answer = select_schema(conn);
    version_by(answer)
}

/// Takes up tables of a version: those of version 1 become those of version 2.
fn take_up_as<S: Alter>(
    conn: &mut Connection<S>,
    version: Result<Version, OpenError>,
) -> Result<(), OpenError>
    ensures { HasCleanDisk (state S.Store conn.new) → OpensAs S.Store version conn.old conn.new result }
{
    match version {
        Ok(Version::Second) => Ok(()),
        Ok(Version::First) => match migrate(conn) {
            Ok(()) => Ok(()),
            Err(error) => Err(OpenError::from(error)),
        },
        Err(end) => Err(end),
    }
}

/// Takes up the tables of a database, whatever they are.
fn take_up<S: Alter>(conn: &mut Connection<S>) -> Result<(), OpenError>
    ensures { HasCleanDisk (state S.Store conn.new) → IsOpenedBy S.Store conn.old conn.new result }
{
    let version = version_of(conn);
    take_up_as(conn, version)
}

impl<S: Alter> Store<S> {
    /// Takes up the store of a database, whatever its tables are, by the number of its schema. One of version
    /// 2 is left as it is: what stands, the last commit and what a crash may leave are as before. One of
    /// version 1 becomes one of version 2 with the same lines, its costs of thread 0, in one transaction: a
    /// crash leaves the one or the other. `WrongSchema`: the number is neither, or there is none. `Memory` and
    /// `Store`: the tables could not be read, or not be brought up. A refusal changes nothing, and hands the
    /// connection back.
    pub fn open(mut conn: Connection<S>) -> Result<Store<S>, (OpenError, Connection<S>)>
        ensures by { IfOk result (λ store. IsFaithful S.Store store → IsOpenedBy S.Store conn store.conn (Ok tt)) }
        ensures why { IfErr result (λ e. HasCleanDisk (state S.Store e.1) → IsOpenedBy S.Store conn e.1 (Err e.0)) }
        ensures opened { IfOk result (λ store. IsFaithful S.Store store → Opened true (state S.Store conn) (shown S.Store store)) }
        ensures refused { IfErr result (λ e. HasCleanDisk (state S.Store e.1) → Opened false (state S.Store conn) (state S.Store e.1)) }
        ensures right { IfErr result (λ e. HasCleanDisk (state S.Store e.1) → IsStore (state S.Store conn) ⊎ IsFirstStore (state S.Store conn)
            → e.0 ≢ ends.WrongSchema) }
    {
        match take_up(&mut conn) {
            Ok(()) => Ok(Store { conn }),
            Err(end) => Err((end, conn)),
        }
    }

    /// Hands the connection back.
    pub fn into_connection(self) -> Connection<S>
        ensures { result ≡ self.conn }
    {
        self.conn
    }
}
