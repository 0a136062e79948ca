// The rows of a file, one after another.
ghost use Rattle.std.specs.Prelude.{◌≡◌};

use crate::names::Names;
use crate::numbered::{NumberedCalls, NumberedCells};
use crate::rows::{ArcRow, CellRow, StackRow};
use crate::stretches::sum_in;
use std::collections::btree_map::Iter;
use std::marker::Model;

/// Rows with names by their numbers, one after another, which can be given their names.
pub trait GivesNames<'a> {
    ghost use Rattle.std.specs.Prelude.{ℕ, List};
    ghost use Rattle.std.specs.Iterator.{YieldsFirstBy};

    /// A row with its names.
    type Named;

    /// The same as a value.
    ghost Row: { Type 0 };

    ghost plain: { Self.Named → Row };

    /// The rows that are still to come, with their names.
    ghost rows: { List (List ℕ) → Self → List Row };

    /// The next row, with its names.
    fn next_named(&mut self, names: &'a Names) -> Option<Self::Named>
        ensures { YieldsFirstBy plain (rows names.now) self.old result self.new };
}

/// Rows with their names, one after another. Takes no memory.
#[derive(Drop)]
pub struct Walk<'a, W> {
    pub(crate) names: &'a Names,
    pub(crate) rest: W,
}

/// The sums of calls, in the order of the numbers of their names, the line after the caller's names.
pub type CallWalk<'a> = Walk<'a, NumberedCalls<'a>>;

/// The sums of self costs above 0, in the order of the numbers of their names, then by line, by thread
/// and by event.
pub type CellWalk<'a> = Walk<'a, NumberedCells<'a>>;

impl<'a, W: GivesNames<'a> + Drop> Iterator for Walk<'a, W> {
    ghost use Rattle.std.specs.Iterator.{YieldsFirstBy, item_count};

    type Item = W::Named;

    ghost next_gives = { YieldsFirstBy W.plain (λ s. W.rows s.names.now s.rest) };

    ghost remaining = { item_count (λ s. W.rows s.names.now s.rest) };

    fn next(&mut self) -> Option<W::Named> {
        self.rest.next_named(self.names)
    }
}

impl<'a> GivesNames<'a> for NumberedCalls<'a> {
    ghost use Rattle.std.specs.Prelude.{ℕ, List, map};
    ghost use Rattle.cost_rows.specs.declared.rows.ArcRow as calls;
    ghost use Rattle.cost_rows.specs.Plain.{plain_call};
    ghost use Rattle.cost_rows.specs.Walks.{edge_named};

    type Named = ArcRow<&'a [u8], &'a [u128]>;

    ghost Row = { calls.ArcRow (List ℕ) (List ℕ) };

    ghost plain = { plain_call };

    ghost rows = { λ names rest. map (edge_named names) rest };

    fn next_named(&mut self, names: &'a Names) -> Option<ArcRow<&'a [u8], &'a [u128]>> {
        let row = self.next()?;
        Some(ArcRow {
            object: names.name_or_empty(row.object),
            file: names.name_or_empty(row.file),
            function: names.name_or_empty(row.function),
            line: row.line,
            called_object: names.name_or_empty(row.called_object),
            called_file: names.name_or_empty(row.called_file),
            called_function: names.name_or_empty(row.called_function),
            count: row.count,
            costs: row.costs,
        })
    }
}

impl<'a> GivesNames<'a> for NumberedCells<'a> {
    ghost use Rattle.std.specs.Prelude.{ℕ, List, map};
    ghost use Rattle.cost_rows.specs.declared.rows.CellRow as cells;
    ghost use Rattle.cost_rows.specs.Plain.{plain_cell};
    ghost use Rattle.cost_rows.specs.Walks.{cell_named};

    type Named = CellRow<&'a [u8]>;

    ghost Row = { cells.CellRow (List ℕ) };

    ghost plain = { plain_cell };

    ghost rows = { λ names rest. map (cell_named names) rest };

    fn next_named(&mut self, names: &'a Names) -> Option<CellRow<&'a [u8]>> {
        let row = self.next()?;
        Some(CellRow {
            object: names.name_or_empty(row.object),
            file: names.name_or_empty(row.file),
            function: names.name_or_empty(row.function),
            line: row.line,
            thread: row.thread,
            event: row.event,
            cost: row.cost,
        })
    }
}

/// The counts of stacks above 0, by the bytes of their frames. Takes no memory.
#[derive(Drop)]
pub struct StackWalk<'a> {
    pub(crate) rest: Iter<'a, Vec<u8>, usize>,
    pub(crate) counts: &'a [u128],
}

impl<'a> Model for StackWalk<'a> {
    ghost use Rattle.std.specs.Prelude.{ℕ, List};
    ghost use Rattle.cost_rows.specs.declared.rows.StackRow.{StackRow};
    ghost use Rattle.cost_rows.specs.Slots.{with_sums};
    ghost use Rattle.cost_rows.specs.Stacks.{by_bytes};
    ghost use Rattle.cost_rows.specs.Walks.{counted_stacks};

    ghost Value = { List (StackRow (List ℕ)) };

    ghost view = { λ a. counted_stacks (with_sums a.counts.now (by_bytes a.rest)) };
}

impl<'a> Iterator for StackWalk<'a> {
    ghost use Rattle.std.specs.Iterator.{YieldsFirstBy, item_count};
    ghost use Rattle.cost_rows.specs.Plain.{plain_stack};

    type Item = StackRow<&'a [u8]>;

    ghost next_gives = { YieldsFirstBy plain_stack (λ s. s) };

    ghost remaining = { item_count (λ s. s) };

    fn next(&mut self) -> Option<StackRow<&'a [u8]>> {
        while let Some((stack, slot)) = self.rest.next() {
            let count = sum_in(self.counts, *slot);
            if count > 0 {
                return Some(StackRow {
                    stack: stack.as_slice(),
                    count,
                });
            }
        }
        None
    }
}
