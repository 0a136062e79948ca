// The rows of sums by key.
use crate::keys::Part;
use crate::rows::CellRow;
use std::collections::btree_map::Iter;
use std::marker::Model;

/// Sums as rows, one for each part of a place, which contracts see as the list of what is left.
#[derive(Drop)]
pub struct SumRows<'a> {
    /// The parts that are left, with their sums.
    pub(crate) entries: Iter<'a, Part, u128>,
}

impl<'a> Model for SumRows<'a> {
    ghost use Rattle.std.specs.Prelude.{ℕ, List};
    ghost use Rattle.cost_rows.specs.Keys.{plain_sums};
    ghost use Rattle.cost_rows.specs.KeySums.{rows_of};
    ghost use Rattle.cost_rows.specs.declared.rows.CellRow.{CellRow};

    ghost Value = { List (CellRow (List ℕ)) };

    ghost view = { λ a. rows_of (plain_sums a.entries) };
}

impl<'a> Iterator for SumRows<'a> {
    ghost use Rattle.std.specs.Iterator.{YieldsFirstBy, item_count};
    ghost use Rattle.cost_rows.specs.Plain.{plain_cell};

    type Item = CellRow<&'a [u8]>;

    ghost next_gives = { YieldsFirstBy plain_cell (λ s. s) };

    ghost remaining = { item_count (λ s. s) };

    fn next(&mut self) -> Option<CellRow<&'a [u8]>> {
        let (part, cost) = self.entries.next()?;
        Some(CellRow {
            object: part.object.as_slice(),
            file: part.file.as_slice(),
            function: part.function.as_slice(),
            line: part.line,
            thread: part.thread,
            event: 0,
            cost: *cost,
        })
    }
}
