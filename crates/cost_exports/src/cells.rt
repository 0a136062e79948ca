// The keys of the sums of cells: the names of places, and under these lines and events. Keys share their names.
ghost use Rattle.std.specs.Prelude.{◌≡◌, IsTrue, IfOk};
ghost use Rattle.cost_rows.specs.Plain.{plain_cell};
ghost use Rattle.cost_exports.specs.Views.{held_line, held_names, names_of_row};

use cost_rows::CellRow;
use std::alloc::AllocError;
use std::rc::RcSlice;

/// The names of a place.
#[derive(PartialEq, Eq, PartialOrd, Ord, Drop)]
pub(crate) struct HeldNames {
    pub(crate) object: RcSlice<u8>,
    pub(crate) file: RcSlice<u8>,
    pub(crate) function: RcSlice<u8>,
}

impl HeldNames {
    /// Whether these are the names of a row. Most rows that differ do so in the function.
    pub(crate) fn are_of(&self, row: &CellRow<&[u8]>) -> bool
        ensures { IsTrue result → held_names self.now ≡ names_of_row (plain_cell row.now) }
    {
        self.function.as_slice() == row.function
            && self.file.as_slice() == row.file
            && self.object.as_slice() == row.object
    }

    /// The same once more, of the same names.
    pub(crate) fn share(&self) -> Result<HeldNames, AllocError>
        ensures { IfOk result (λ names. held_names names ≡ held_names self.now) }
    {
        Ok(HeldNames {
            object: self.object.clone()?,
            file: self.file.clone()?,
            function: self.function.clone()?,
        })
    }
}

/// A line, and an event by its name.
#[derive(PartialEq, Eq, PartialOrd, Ord, Drop)]
pub(crate) struct HeldLine {
    pub(crate) line: u64,
    pub(crate) event: RcSlice<u8>,
}

impl HeldLine {
    /// The same once more, of the same event.
    pub(crate) fn share(&self) -> Result<HeldLine, AllocError>
        ensures { IfOk result (λ line. held_line line ≡ held_line self.now) }
    {
        Ok(HeldLine {
            line: self.line,
            event: self.event.clone()?,
        })
    }
}
