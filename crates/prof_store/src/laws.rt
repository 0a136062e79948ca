// Laws of the definitions, each the contract of a function that does nothing.
ghost use Rattle.std.specs.Prelude.{◌≡◌, ℕ, ◌≤◌, ◌^◌};
ghost use Rattle.sqlite_catalog.specs.Listing.{IsSound};
ghost use Rattle.sqlite_trees.specs.Tree.{Trees};
ghost use Rattle.prof_store.specs.Readings.{AreShaped, HasMeta, RowsSay};
ghost use Rattle.sqlite.specs.Effect.{Database, IsDatabase};
ghost use Rattle.sqlite.specs.Held.{state};
ghost use Rattle.sqlite.specs.State.{Opens};
ghost use Rattle.sqlite.specs.declared.connection.Connection.{Connection};
ghost use Rattle.sql_tables.specs.States.{Rests, LeavesJust as Leaves};
ghost use Rattle.prof_store.specs.First.{HoldsFirst};
ghost use Rattle.prof_store.specs.Schema.{schema_one, schema_two};
ghost use Rattle.plain_tables.specs.Tables.{Tables};
ghost use Rattle.prof_store.specs.Tables.{Holds};
ghost use Rattle.prof_store.specs.Schemas.{SaysSecond};
ghost use Rattle.prof_store.specs.Shown.{Represents, LeavesJust};
ghost use Rattle.prof_store.specs.declared.store.Store.{Store};

use sqlite::Alter;

/// What a store represents survives: between calls a crash leaves tables that hold it; and so of a
/// connection over a store of version 1.
pub fn what_stands_survives<S: Alter>()
    ensures second { (t : Tables) (store : Store S) → Represents S.Store t store → LeavesJust S.Store store (Holds t) }
    ensures first { (t : Tables) (conn : Connection S) → Rests schema_one (HoldsFirst t) (state S.Store conn) → Leaves (state S.Store conn) (HoldsFirst t) }
{}

/// What a crash left is found again: a connection that was just opened, over tables of either version that
/// hold these lines, whatever schema it took them for, stands as `Store::open` wants it to take them up.
pub fn what_is_left_is_taken_up<S: Alter>()
    ensures second { (t : Tables) (conn : Connection S) → Opens (state S.Store conn) → IsDatabase (state S.Store conn).now
        → Holds t (state S.Store conn).now.trees → Rests schema_two (Holds t) (state S.Store conn) }
    ensures first { (t : Tables) (conn : Connection S) → Opens (state S.Store conn) → IsDatabase (state S.Store conn).now
        → HoldsFirst t (state S.Store conn).now.trees → Rests schema_one (HoldsFirst t) (state S.Store conn) }
{}

/// The tables of a store say that they are of version 2: what opening leaves of such tables it leaves of
/// each store.
pub fn stores_say_their_version()
    ensures { (t : Tables) (now : Database) → now.schema ≡ schema_two → Holds t now.trees → SaysSecond now }
{}

/// The rows of each sound database of schema 2 say lines, however its negative numbers are read, where its
/// rowids rise and `meta` has one row, which says schema 2: what is told of such rows is told of each store
/// of that form.
pub fn rows_say_lines()
    ensures { (db : Trees) → IsSound schema_two db → AreShaped db → HasMeta db
        → (far : ℕ → ℕ) → ((n : ℕ) → 2 ^ 64 ≤ far n) → (t : Tables) × RowsSay t db }
{}
