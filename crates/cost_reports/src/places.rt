// The places of rows and of functions, by names that are lent.
ghost use Rattle.std.specs.Prelude.{◌≡◌};
ghost use Rattle.cost_rows.specs.Keys.{lent_place, place_of_row};
ghost use Rattle.cost_rows.specs.Plain.{plain_cell};
ghost use Rattle.report_texts.specs.Functions.{function_spot};

use cg_text::UNKNOWN;
use cost_rows::{CellRow, LentPlace};

/// The place of a row.
pub(crate) fn place_of_row<'a>(row: &CellRow<&'a [u8]>) -> LentPlace<'a>
    ensures { lent_place result ≡ place_of_row (plain_cell row.now) }
{
    LentPlace {
        object: row.object,
        file: row.file,
        function: row.function,
        line: row.line,
        thread: row.thread,
    }
}

/// A function of an object.
pub(crate) fn function_place<'a>(object: &'a [u8], function: &'a [u8]) -> LentPlace<'a>
    ensures { lent_place result ≡ function_spot object.now function.now }
{
    LentPlace {
        object,
        file: UNKNOWN,
        function,
        line: 0,
        thread: 0,
    }
}
