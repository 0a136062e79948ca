// What takes the rows of runs with names in place.

use cost_rows::CellRow;
use run_stores::StoreError;

/// Takes the cells of runs, with names in place.
pub trait NamedCellSink {
    ghost use Rattle.std.specs.Prelude.{◌≡◌, List, ℕ, OnOk};
    ghost use Rattle.cost_rows.specs.Plain.{plain_cell};
    ghost use Rattle.cost_rows.specs.declared.rows.CellRow.{CellRow};

    /// What it can mean.
    ghost Meaning: { Type 0 };

    /// What it means.
    ghost meaning: { Self → Meaning };

    /// What a cell makes of a meaning.
    ghost step: { Meaning → CellRow (List ℕ) → Meaning };

    /// Takes a cell. An error, out of memory or a sum that would pass its bound, ends the walk.
    fn take(&mut self, row: &CellRow<&[u8]>) -> Result<(), StoreError>
        ensures { OnOk result (meaning self.new ≡ step (meaning self.old) (plain_cell row.now)) };
}
