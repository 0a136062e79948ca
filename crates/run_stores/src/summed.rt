// A file with the sums of its rows.
ghost use Rattle.std.specs.Prelude.{◌≡◌, length, IfOk};
ghost use Rattle.cost_rows.specs.Rows.{content_of};
ghost use Rattle.cost_rows.specs.Totals.{AreTotals};

use cg_formulas::FileHead;
use cost_rows::{FileRows, FileTotals};
use std::alloc::{AllocError, Global};

/// A file that was read: what its head says, its rows, and their sums.
#[derive(Drop)]
pub struct SummedFile<'a> {
    pub head: &'a FileHead,
    pub rows: &'a FileRows,
    pub totals: FileTotals,
    ghost summed: { AreTotals totals (content_of rows.now) (length head.now.events) },
}

impl<'a> SummedFile<'a> {
    /// Adds up the rows of a file.
    pub fn of(
        alloc: Global,
        head: &'a FileHead,
        rows: &'a FileRows,
    ) -> Result<SummedFile<'a>, AllocError>
        ensures { IfOk result (λ file. (file.head.now ≡ head.now) × (file.rows.now ≡ rows.now)) }
    {
        let totals = rows.totals(alloc, head.events.len())?;
        Ok(SummedFile { head, rows, totals })
    }
}
