// The cells of small runs, kept in memory as they are handed on.
ghost use Rattle.std.specs.Prelude.{◌≡◌, ◌≤◌, ◌+◌, map, suc, sum_by, vec_len};
ghost use Rattle.std.specs.BTreeMap.{values};
ghost use Rattle.prof_store.specs.Lines.{cell_row};
ghost use Rattle.run_stores.specs.Walks.{cell_numbers};

use cost_rows::CellRow;
use prof_store::StoredCell;
use std::alloc::Global;
use std::collections::BTreeMap;

/// How many cells a small run has at most, 256 KB.
const SMALL_RUN: usize = 4096;

/// The cell of a line.
fn cell_of(line: &StoredCell) -> CellRow<u32>
    ensures { result ≡ cell_numbers (cell_row line.now) }
{
    CellRow {
        object: line.object,
        file: line.file,
        function: line.function,
        line: line.line.get(),
        thread: line.thread.get(),
        event: line.event as usize,
        cost: u128::from(line.cost.get()),
    }
}

/// The cells of a run that is walked. They are not whole once they are too many, or there is no memory for them.
#[derive(Drop)]
pub(crate) struct Gathered {
    cells: Vec<CellRow<u32>>,
    most: usize,
    is_whole: bool,
}

impl Gathered {
    ghost use Rattle.std.specs.Prelude.{◌++◌, ◌∷◌, [], List};
    ghost use Rattle.plain_tables.specs.Tables.{StoredCell as Line};
    ghost use Rattle.page_runs.specs.Kept.{HasGathered};

    /// Adds the cell of a line.
    pub fn add(&mut self, line: &StoredCell)
        ensures { (lines : List Line) → HasGathered lines self.old → HasGathered (lines ++ cell_row line.now ∷ []) self.new }
    {
        if self.is_whole && self.cells.len() < self.most && self.cells.push(cell_of(line)).is_ok() {
            return;
        }
        self.is_whole = false;
    }
}

/// The cells of some runs, kept so that they are not read again: of the first small ones that were asked for, while there
/// is room. When it is full no more is kept, until a change of the store forgets all.
#[derive(Drop)]
pub(crate) struct KeptCells {
    alloc: Global,
    runs: BTreeMap<u32, Vec<CellRow<u32>>>,
    /// How many more cells may be kept. A run takes the room of one more than its own.
    room: usize,
    limit: usize,
    ghost within: { sum_by (λ cells. suc (vec_len cells)) (values runs) + room ≤ limit },
}

impl KeptCells {
    ghost use Rattle.std.specs.Prelude.{[], ℕ, IfSome};
    ghost use Rattle.plain_tables.specs.RunRows.{cells_in};
    ghost use Rattle.plain_tables.specs.Tables.{Tables};
    ghost use Rattle.page_runs.specs.Kept.{AreKept, HasGathered};

    /// Nothing is kept, and at most so many cells will be.
    pub fn new(alloc: Global, limit: usize) -> KeptCells
        ensures nothing { (t : Tables) → AreKept t result }
        ensures limit { result.limit ≡ limit }
    {
        KeptCells {
            alloc,
            runs: BTreeMap::new(alloc),
            room: limit,
            limit,
        }
    }

    /// The cells of a run, if they are kept.
    pub fn cells_of(&self, run: u32) -> Option<&[CellRow<u32>]>
        ensures { (t : Tables) → AreKept t self.now → IfSome result (λ cells. cells.now ≡ map cell_numbers (cells_in run t)) }
    {
        match self.runs.get(&run) {
            Some(cells) => Some(cells.as_slice()),
            None => None,
        }
    }

    /// Begins to gather the cells of a run.
    pub fn begin(&self) -> Gathered
        ensures { HasGathered [] result }
    {
        Gathered {
            cells: Vec::new(self.alloc),
            most: self.room.saturating_sub(1).min(SMALL_RUN),
            is_whole: self.room > 0,
        }
    }

    /// Keeps the cells of a run, if they are whole. Where there is no memory they are not kept.
    pub fn keep(&mut self, run: u32, gathered: Gathered)
        ensures kept { (t : Tables) → AreKept t self.old → HasGathered (cells_in run t) gathered → AreKept t self.new }
        ensures limit { self.new.limit ≡ self.old.limit }
    {
        let Gathered {
            mut cells,
            most: _,
            is_whole,
        } = gathered;
        let size = cells.len() + 1;
        if !is_whole || size > self.room {
            return;
        }
        cells.shrink_to_fit();
        if self.runs.insert(run, cells).is_ok() {
            self.room -= size;
        }
    }

    /// Forgets all.
    pub fn forget(&mut self)
        ensures nothing { (t : Tables) → AreKept t self.new }
        ensures limit { self.new.limit ≡ self.old.limit }
    {
        self.runs.clear();
        self.room = self.limit;
    }
}
