// The lines that the stacks of a file become, as a list.
ghost use Rattle.std.specs.Prelude.{◌≡◌, map, IfErr, IfOk};
ghost use Rattle.cost_rows.specs.Rows.{content_of};
ghost use Rattle.run_stores.specs.Files.{stack_rows};
ghost use Rattle.page_imports.specs.RowFits.{RefusesUnless, StacksFit};
ghost use Rattle.prof_store.specs.Lines.{stack_row};

use crate::file_lines::stack_of;
use crate::head_lines::add;
use cost_rows::FileRows;
use prof_store::{StoreError, StoredStack};
use std::alloc::Global;

/// The lines of the counts of stacks. `Store` where a count is too great for its column.
pub fn stack_lines(
    alloc: Global,
    run: u32,
    rows: &FileRows,
) -> Result<Vec<StoredStack<'_>>, StoreError>
    ensures value { IfOk result (λ lines. map stack_row lines.items ≡ stack_rows run (content_of rows.now).stacks) }
    ensures refused { IfErr result (RefusesUnless (StacksFit (content_of rows.now).stacks)) }
{
    let mut lines = Vec::new(alloc);
    'rows: for row in rows.stacks() {
        let Some(line) = stack_of(run, &row) else {
            return Err(StoreError::Store);
        };
        add(&mut lines, line)?;
    }
    Ok(lines)
}
