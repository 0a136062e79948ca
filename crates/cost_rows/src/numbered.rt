// The rows of a file with names by their numbers, one after another.

use crate::call_sums::count_and_costs;
use crate::places::{Call, CellPlace};
use crate::rows::{ArcRow, CellRow};
use crate::sum_map::SumIter;
use std::marker::Model;

/// The calls from a place to a function: how many there were, and what they cost by column; nothing of
/// a column that is absent.
#[derive(Drop)]
pub struct CallSum<'a> {
    pub call: &'a Call,
    pub count: u128,
    pub costs: &'a [u128],
}

/// The sums of calls as they are held, in the order of their places. Takes no memory.
#[derive(Drop)]
pub struct CallsByPlace<'a> {
    pub(crate) rest: SumIter<'a, Call>,
}

impl<'a> Model for CallsByPlace<'a> {
    ghost use Rattle.std.specs.Prelude.{List};
    ghost use Rattle.cost_rows.specs.Calls.{Calls, calls_in};
    ghost use Rattle.cost_rows.specs.declared.places.Call.{Call};

    ghost Value = { List (Call × Calls) };

    ghost view = { λ a. calls_in a.rest };
}

impl<'a> Iterator for CallsByPlace<'a> {
    ghost use Rattle.std.specs.Iterator.{YieldsFirstBy, item_count};
    ghost use Rattle.cost_rows.specs.ByNumber.{plain_call};

    type Item = CallSum<'a>;

    ghost next_gives = { YieldsFirstBy plain_call (λ s. s) };

    ghost remaining = { item_count (λ s. s) };

    fn next(&mut self) -> Option<CallSum<'a>> {
        let (call, sums) = self.rest.next()?;
        let (count, costs) = count_and_costs(sums);
        Some(CallSum { call, count, costs })
    }
}

/// The sums of calls with names by their numbers, in the order of these, the line after the caller's
/// names. Takes no memory.
#[derive(Drop)]
pub struct NumberedCalls<'a> {
    pub(crate) rest: SumIter<'a, Call>,
}

impl<'a> Model for NumberedCalls<'a> {
    ghost use Rattle.std.specs.Prelude.{ℕ, List};
    ghost use Rattle.cost_rows.specs.declared.rows.ArcRow.{ArcRow};
    ghost use Rattle.cost_rows.specs.ByNumber.{numbered_calls};
    ghost use Rattle.cost_rows.specs.Calls.{calls_in};

    ghost Value = { List (ArcRow ℕ (List ℕ)) };

    ghost view = { λ a. numbered_calls (calls_in a.rest) };
}

impl<'a> Iterator for NumberedCalls<'a> {
    ghost use Rattle.std.specs.Iterator.{YieldsFirstBy, item_count};
    ghost use Rattle.cost_rows.specs.ByNumber.{plain_numbered};

    type Item = ArcRow<u32, &'a [u128]>;

    ghost next_gives = { YieldsFirstBy plain_numbered (λ s. s) };

    ghost remaining = { item_count (λ s. s) };

    fn next(&mut self) -> Option<ArcRow<u32, &'a [u128]>> {
        let (call, sums) = self.rest.next()?;
        let (count, costs) = count_and_costs(sums);
        Some(ArcRow {
            object: call.place.object,
            file: call.place.file,
            function: call.place.function,
            line: call.place.line,
            called_object: call.object,
            called_file: call.file,
            called_function: call.function,
            count,
            costs,
        })
    }
}

/// What a place and a thread cost by column; of a column that is absent nothing.
#[derive(Drop)]
pub struct CellSum<'a> {
    pub place: &'a CellPlace,
    pub costs: &'a [u128],
}

/// The sums of self costs as they are held, in the order of their places. Takes no memory.
#[derive(Drop)]
pub struct CellsByPlace<'a> {
    pub(crate) rest: SumIter<'a, CellPlace>,
}

impl<'a> Model for CellsByPlace<'a> {
    ghost use Rattle.std.specs.Prelude.{ℕ, List};
    ghost use Rattle.cost_rows.specs.declared.places.CellPlace.{CellPlace};

    ghost Value = { List (CellPlace × List ℕ) };

    ghost view = { λ a. a.rest };
}

impl<'a> Iterator for CellsByPlace<'a> {
    ghost use Rattle.std.specs.Iterator.{YieldsFirstBy, item_count};
    ghost use Rattle.cost_rows.specs.ByNumber.{plain_cell_sum};

    type Item = CellSum<'a>;

    ghost next_gives = { YieldsFirstBy plain_cell_sum (λ s. s) };

    ghost remaining = { item_count (λ s. s) };

    fn next(&mut self) -> Option<CellSum<'a>> {
        let (place, costs) = self.rest.next()?;
        Some(CellSum { place, costs })
    }
}

/// The sums of self costs above 0 with names by their numbers, in the order of these, then by line,
/// by thread and by event. Takes no memory.
#[derive(Drop)]
pub struct NumberedCells<'a> {
    pub(crate) rest: SumIter<'a, CellPlace>,
    pub(crate) place: CellPlace,
    pub(crate) costs: &'a [u128],
    pub(crate) event: usize,
}

impl<'a> Model for NumberedCells<'a> {
    ghost use Rattle.std.specs.Prelude.{ℕ, List, ◌+◌, ◌<◌, ◌^◌, ◌++◌, length};
    ghost use Rattle.cost_rows.specs.declared.rows.CellRow.{CellRow};
    ghost use Rattle.cost_rows.specs.ByNumber.{numbered_at, numbered_cells};

    ghost Value = { List (CellRow ℕ) };

    ghost view = { λ a. numbered_at a.place a.event a.costs.now ++ numbered_cells a.rest };

    ghost invariant = { λ a. a.event + length a.costs.now < 2 ^ 64 };
}

impl<'a> Iterator for NumberedCells<'a> {
    ghost use Rattle.std.specs.Iterator.{YieldsFirst, item_count};

    type Item = CellRow<u32>;

    ghost next_gives = { YieldsFirst (λ s. s) };

    ghost remaining = { item_count (λ s. s) };

    fn next(&mut self) -> Option<CellRow<u32>> {
        loop {
            match self.costs.split_first() {
                Some((cost, more)) => {
                    let event = self.event;
                    self.costs = more;
                    self.event += 1;
                    if *cost > 0 {
                        let place = self.place.place;
                        return Some(CellRow {
                            object: place.object,
                            file: place.file,
                            function: place.function,
                            line: place.line,
                            thread: self.place.thread,
                            event,
                            cost: *cost,
                        });
                    }
                }
                None => {
                    let (place, costs) = self.rest.next()?;
                    self.place = *place;
                    self.costs = costs;
                    self.event = 0;
                }
            }
        }
    }
}
