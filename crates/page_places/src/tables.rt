// The tables of a store, each with its indexes.
ghost use Rattle.std.specs.Prelude.{◌≡◌, ◌∷◌, [], ℕ, List, take};
ghost use Rattle.sqlite_schema.specs.declared.schema.Table.{Table};
ghost use Rattle.prof_store.specs.Schema.{run_at, run_event_at, derived_at, coef_at, name_at, arc_at, stack_at, grp_at, member_at, thread_cell_at};
ghost use Rattle.page_places.specs.Rooted.{IsHeldAt, IsRooted};
ghost use Rattle.page_places.specs.Roots.{AreRoots};

use crate::places::{IndexPlace, Place, StoreTable};
use crate::roots::StoreRoots;

impl StoreTable {
    /// Where it stands.
    pub fn place(&self) -> Place<'_>
        ensures { (known : List ℕ) (table : Table) → IsHeldAt known table self.now → IsRooted known table result }
    {
        Place {
            root: self.root,
            indexes: &self.indexes[..self.count],
        }
    }
}

fn key(root: u32, columns: &'static [usize]) -> IndexPlace<'static>
    ensures root { result.root ≡ root }
    ensures columns { result.columns.now ≡ columns.now }
{
    IndexPlace { root, columns }
}

fn with_key(root: u32, key: IndexPlace<'static>) -> StoreTable
    ensures root { result.root ≡ root }
    ensures keys { take result.count result.indexes ≡ key.entry ∷ [] }
{
    StoreTable {
        root,
        indexes: [key, key],
        count: 1,
    }
}

fn with_keys(root: u32, first: IndexPlace<'static>, second: IndexPlace<'static>) -> StoreTable
    ensures root { result.root ≡ root }
    ensures keys { take result.count result.indexes ≡ first.entry ∷ second.entry ∷ [] }
{
    StoreTable {
        root,
        indexes: [first, second],
        count: 2,
    }
}

impl StoreRoots {
    /// The table of runs, with the index of their digests.
    pub fn run_table(&self) -> StoreTable
        ensures { (known : List ℕ) → AreRoots known self.now → IsHeldAt known run_at result }
    {
        with_key(self.runs, key(self.run_digests, &[3]))
    }

    /// That of events, with those of their places and names.
    pub fn event_table(&self) -> StoreTable
        ensures { (known : List ℕ) → AreRoots known self.now → IsHeldAt known run_event_at result }
    {
        let places = key(self.event_places, &[1, 2]);
        with_keys(self.events, places, key(self.event_names, &[1, 3]))
    }

    /// That of derived events, as of events.
    pub fn derived_table(&self) -> StoreTable
        ensures { (known : List ℕ) → AreRoots known self.now → IsHeldAt known derived_at result }
    {
        let places = key(self.derived_places, &[1, 2]);
        with_keys(self.derived, places, key(self.derived_names, &[1, 3]))
    }

    /// That of coefficients.
    pub fn coef_table(&self) -> StoreTable
        ensures { (known : List ℕ) → AreRoots known self.now → IsHeldAt known coef_at result }
    {
        with_key(self.coefs, key(self.coef_keys, &[1, 2, 3]))
    }

    /// That of names.
    pub fn name_table(&self) -> StoreTable
        ensures { (known : List ℕ) → AreRoots known self.now → IsHeldAt known name_at result }
    {
        with_key(self.names, key(self.name_bytes, &[2]))
    }

    /// That of calls.
    pub fn call_table(&self) -> StoreTable
        ensures { (known : List ℕ) → AreRoots known self.now → IsHeldAt known arc_at result }
    {
        with_key(
            self.calls,
            key(self.call_keys, &[1, 2, 3, 4, 5, 6, 7, 8, 9]),
        )
    }

    /// That of stacks.
    pub fn stack_table(&self) -> StoreTable
        ensures { (known : List ℕ) → AreRoots known self.now → IsHeldAt known stack_at result }
    {
        with_key(self.stacks, key(self.stack_frames, &[1, 2]))
    }

    /// That of groups, with the index of their names.
    pub fn group_table(&self) -> StoreTable
        ensures { (known : List ℕ) → AreRoots known self.now → IsHeldAt known grp_at result }
    {
        with_key(self.groups, key(self.group_names, &[1]))
    }

    /// That of members, with the index of their groups and runs.
    pub fn member_table(&self) -> StoreTable
        ensures { (known : List ℕ) → AreRoots known self.now → IsHeldAt known member_at result }
    {
        with_key(self.members, key(self.member_keys, &[1, 2]))
    }

    /// That of self costs.
    pub fn cell_table(&self) -> StoreTable
        ensures { (known : List ℕ) → AreRoots known self.now → IsHeldAt known thread_cell_at result }
    {
        with_key(self.cells, key(self.cell_keys, &[1, 5, 6, 4, 3, 2, 7]))
    }
}
