// What takes the rows of runs.

use cg_text::ListVec;
use cost_rows::{ArcRow, CellRow, StackRow};
use plain_tables::StoreError;

/// Takes the cells of runs, each with the numbers of its names.
pub trait CellSink {
    ghost use Rattle.std.specs.Prelude.{◌≡◌, ℕ, OnOk};
    ghost use Rattle.cost_rows.specs.declared.rows.CellRow.{CellRow};

    /// What it can mean.
    ghost Meaning: { Type 0 };

    /// What it means.
    ghost meaning: { Self → Meaning };

    /// What a cell makes of a meaning.
    ghost step: { Meaning → CellRow ℕ → Meaning };

    /// Takes a cell. An error, out of memory or a sum that would pass its bound, ends the walk.
    fn take(&mut self, row: &CellRow<u32>) -> Result<(), StoreError>
        ensures { OnOk result (meaning self.new ≡ step (meaning self.old) row.now) };
}

/// Takes the calls of runs, each row with the numbers of its names.
pub trait CallSink {
    ghost use Rattle.std.specs.Prelude.{◌≡◌, List, ℕ, OnOk};
    ghost use Rattle.cost_rows.specs.declared.rows.ArcRow.{ArcRow};

    /// What it can mean.
    ghost Meaning: { Type 0 };

    /// What it means.
    ghost meaning: { Self → Meaning };

    /// What a row of calls makes of a meaning.
    ghost step: { Meaning → ArcRow ℕ (List ℕ) → Meaning };

    /// Takes a row of calls. An error ends the walk.
    fn take(&mut self, row: ArcRow<u32, ListVec<u128>>) -> Result<(), StoreError>
        ensures { OnOk result (meaning self.new ≡ step (meaning self.old) row) };
}

/// Takes the stacks of runs.
pub trait StackRowSink {
    ghost use Rattle.std.specs.Prelude.{◌≡◌, List, ℕ, OnOk};
    ghost use Rattle.cost_rows.specs.Plain.{plain_stack};
    ghost use Rattle.cost_rows.specs.declared.rows.StackRow.{StackRow};

    /// What it can mean.
    ghost Meaning: { Type 0 };

    /// What it means.
    ghost meaning: { Self → Meaning };

    /// What a stack makes of a meaning.
    ghost step: { Meaning → StackRow (List ℕ) → Meaning };

    /// Takes a stack. An error ends the walk.
    fn take(&mut self, row: &StackRow<&[u8]>) -> Result<(), StoreError>
        ensures { OnOk result (meaning self.new ≡ step (meaning self.old) (plain_stack row.now)) };
}
