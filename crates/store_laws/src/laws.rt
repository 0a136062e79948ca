// Which history a store has that was of version 1, and what the rows of each run sum to: laws of the definitions, the contracts
// of functions that do nothing.
ghost use Rattle.std.specs.Prelude.{◌≡◌, ◌<◌, ◌^◌, ℕ, Bool, true, length};
ghost use Rattle.std.specs.List.{AllByRecursion};
ghost use Rattle.sqlite.specs.Held.{state};
ghost use Rattle.sqlite.specs.declared.connection.Connection.{Connection};
ghost use Rattle.sql_tables.specs.States.{LeavesJust as Leaves};
ghost use Rattle.sqlite_trees.specs.Tree.{Trees};
ghost use Rattle.prof_store.specs.Tables.{Holds};
ghost use Rattle.prof_store.specs.Schemas.{Opened};
ghost use Rattle.plain_tables.specs.Lists.{Has};
ghost use Rattle.plain_tables.specs.RunRows.{calls_in, cells_in, stacks_in};
ghost use Rattle.plain_tables.specs.Tables.{Tables, RunRow, EventRow, StoredCell, StoredCall, StoredStack};
ghost use Rattle.profile_records.specs.declared.kinds.Kind.{Kind};
ghost use Rattle.run_stores.specs.Lookups.{IsKindOf};
ghost use Rattle.run_stores.specs.SelfSums.{events_of_run};
ghost use Rattle.run_lists.specs.HeldRuns.{NameHeldRuns};
ghost use Rattle.run_lists.specs.RowSums.{calls_of_run, cells_of_run, stacks_of_run, sum_of_part};
ghost use Rattle.histories.specs.History.{History};
ghost use Rattle.histories.specs.Marks.{IsMarked};
ghost use Rattle.histories.specs.Representation.{TablesRepresent};
ghost use Rattle.store_laws.specs.First.{RepresentsFirst, RepresentsSecond, AgreesEither};

use prof_store::what_stands_survives;
use sqlite::Alter;

/// A store of version 1 that represents a history, by the first grammar, is opened as one that represents this
/// history, and the mark stands at its end: so every sum is as it was. A crash in the opening, also one that
/// was refused, leaves tables of the one or the other version that represent it.
pub fn migrated_stores_have_their_history<S: Alter>()
    ensures opened { (h : History) (conn next : Connection S) → RepresentsFirst h (state S.Store conn)
        → Opened true (state S.Store conn) (state S.Store next) → RepresentsSecond h (state S.Store next) × IsMarked h }
    ensures crash { (is_done : Bool) (h : History) (conn next : Connection S) → RepresentsFirst h (state S.Store conn)
        → Opened is_done (state S.Store conn) (state S.Store next) → Leaves (state S.Store next) (AgreesEither h) }
{
    what_stands_survives::<S>();
}

/// In tables that represent a history, the rows of each run that is held sum to what the small tables say of it, part by
/// part: its cells of an event to the self cost of the event, part 0 of its calls to how many there are and each other
/// to what they cost in an event, and its stacks to the samples of a folded file. The lists of the small tables refuse
/// sums of 2^64 or more, and events at other places than those below their number; here is none. So where tables
/// represent a history, a store that is read from its pages has no sum of rows to be refused for.
pub fn rows_sum_to_the_small_tables()
    ensures cells { (h : History) (t : Tables) (r : RunRow) → TablesRepresent h t → Has t.runs r → (k : ℕ)
        → sum_of_part (λ (c : StoredCell). c.event) (λ (c : StoredCell). c.cost) k (cells_in r.number t) ≡ cells_of_run r.number t k }
    ensures calls { (h : History) (t : Tables) (r : RunRow) → TablesRepresent h t → Has t.runs r → (k : ℕ)
        → sum_of_part (λ (a : StoredCall). a.part) (λ (a : StoredCall). a.sum) k (calls_in r.number t) ≡ calls_of_run r.number t k }
    ensures stacks { (h : History) (t : Tables) (n : ℕ) (kind : Kind) → TablesRepresent h t → IsKindOf n t kind → (k : ℕ)
        → sum_of_part (λ _. 0) (λ (s : StoredStack). s.count) k (stacks_in n t) ≡ stacks_of_run kind n t k }
    ensures small { (h : History) (t : Tables) (r : RunRow) → TablesRepresent h t → Has t.runs r → (k : ℕ)
        → (cells_of_run r.number t k < 2 ^ 64) × (calls_of_run r.number t k < 2 ^ 64) }
    ensures placed { (h : History) (t : Tables) (r : RunRow) → TablesRepresent h t → Has t.runs r
        → AllByRecursion (λ (e : EventRow). e.place < length (events_of_run r.number t)) (events_of_run r.number t) }
{}

/// A database that holds rows by the rules of schema 2 has no run twice, and each line of a run, each member and each
/// baseline names a run that is there: so what the small tables say of runs is no reason to refuse a sound store.
pub fn small_tables_name_held_runs()
    ensures { (t : Tables) (db : Trees) → Holds t db → NameHeldRuns t }
{}
