// A new store is made.
ghost use Rattle.std.specs.Prelude.{◌≡◌, ◌↔◌, true, false, IfOk, IfErr};
ghost use Rattle.sqlite.specs.Held.{state};
ghost use Rattle.sqlite.specs.State.{HasCleanDisk};
ghost use Rattle.prof_store.specs.Schema.{empty_schema};
ghost use Rattle.prof_store.specs.Created.{Creates};
ghost use Rattle.prof_store.specs.Shown.{shown, IsFaithful};
ghost use Rattle.prof_store.specs.declared.errors.OpenError.TheVariants as ends;

use crate::errors::OpenError;
use crate::making::create_tables;
use crate::store::Store;
use sqlite::{Alter, Connection};

impl<S: Alter> Store<S> {
    /// Makes a new store, in one transaction, in a database that has no table. `WrongSchema` says that it
    /// has some; `Store` answers a connection within a transaction too. A refusal changes nothing and hands
    /// the connection back.
    pub fn create(mut conn: Connection<S>) -> Result<Store<S>, (OpenError, Connection<S>)>
        ensures made { IfOk result (λ store. IsFaithful S.Store store → Creates true (state S.Store conn) (shown S.Store store)) }
        ensures refused { IfErr result (λ e. HasCleanDisk (state S.Store e.1) → Creates false (state S.Store conn) (state S.Store e.1)) }
        ensures wrong { IfErr result (λ e. (e.0 ≡ ends.WrongSchema) ↔ (¬ ((state S.Store conn).now.schema ≡ empty_schema))) }
    {
        match create_tables(&mut conn) {
            Ok(()) => Ok(Store { conn }),
            Err(end) => Err((end, conn)),
        }
    }
}
