// Where the rows of runs began in their tables when they were last walked.
ghost use Rattle.std.specs.Prelude.{◌≡◌, ◌⊎◌, ◌≤◌};
ghost use Rattle.std.specs.BTreeMap.{btree_map_len, get};
ghost use Rattle.std.specs.Ordering.{nat_cmp};

use std::alloc::Global;
use std::collections::BTreeMap;

/// Where the rows of runs began in one table: at or behind the rowid of a run no row is of an earlier one. Nothing
/// rests on a hint: who takes it looks whether it is right, and a wrong one costs time.
#[derive(Drop)]
pub(crate) struct Hints {
    begins: BTreeMap<u32, i64>,
}

impl Hints {
    /// No hint.
    pub fn new(alloc: Global) -> Hints
        ensures { btree_map_len result.begins ≡ 0 }
    {
        Hints {
            begins: BTreeMap::new(alloc),
        }
    }

    /// Where the rows of a run began.
    pub fn begin_of(&self, run: u32) -> Option<i64>
        ensures { result ≡ get nat_cmp self.now.begins run }
    {
        self.begins.get(&run).copied()
    }

    /// Keeps where the rows of a run begin, or forgets it: where there is no memory, or there are already so many hints.
    pub fn keep(&mut self, run: u32, begin: i64, most: u64)
        ensures { (btree_map_len self.new.begins ≤ most) ⊎ (btree_map_len self.new.begins ≤ btree_map_len self.old.begins) }
    {
        if (self.begins.len() as u64) < most || self.begins.contains_key(&run) {
            let _kept = self.begins.insert(run, begin);
        }
    }

    /// The same of a run that was found, if one was.
    pub fn keep_found(&mut self, run: Option<u32>, begin: i64, most: u64)
        ensures { (btree_map_len self.new.begins ≤ most) ⊎ (btree_map_len self.new.begins ≤ btree_map_len self.old.begins) }
    {
        if let Some(run) = run {
            self.keep(run, begin, most);
        }
    }
}

/// The hints of the tables whose rows are lines of runs.
#[derive(Drop)]
pub(crate) struct RunHints {
    pub cells: Hints,
    pub calls: Hints,
    pub stacks: Hints,
}

impl RunHints {
    /// No hint of any table.
    pub fn new(alloc: Global) -> RunHints
        ensures cells { btree_map_len result.cells.begins ≡ 0 }
        ensures calls { btree_map_len result.calls.begins ≡ 0 }
        ensures stacks { btree_map_len result.stacks.begins ≡ 0 }
    {
        RunHints {
            cells: Hints::new(alloc),
            calls: Hints::new(alloc),
            stacks: Hints::new(alloc),
        }
    }
}
