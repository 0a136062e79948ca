// What places cost by the names of events.
ghost use Rattle.std.specs.Prelude.{◌≡◌, ◌+◌, ◌<◌, Some, [], OnOk, OnErr, IfOk, IfSome};
ghost use Rattle.cost_rows.specs.Plain.{plain_cell};
ghost use Rattle.cost_rows.specs.KeySums.{sum_end};
ghost use Rattle.report_texts.specs.Amounts.{amount_of};
ghost use Rattle.report_texts.specs.Csv.{with_cell};
ghost use Rattle.cost_exports.specs.Views.{held_names, names_of_row, slot_of, sums_in};

use crate::cells::{HeldLine, HeldNames};
use crate::places::Places;
use crate::shared_names::SharedNames;
use cost_rows::CellRow;
use std::alloc::{AllocError, Global};
use std::marker::Model;
use std::rc::RcSlice;

/// The slot of a row's names. Unless they are those of the row before, whose slot is known, it is searched
/// for. The sums stay as they are.
fn slot_of_row(
    alloc: Global,
    shared: &mut SharedNames,
    recent: &mut Option<(HeldNames, usize)>,
    places: &mut Places,
    row: &CellRow<&[u8]>,
) -> Result<usize, AllocError>
    requires recent { IfSome recent.old (λ r. slot_of (held_names r.0) places.old.slots ≡ Some r.1) }
    ensures recent { IfSome recent.new (λ r. slot_of (held_names r.0) places.new.slots ≡ Some r.1) }
    ensures slot { IfOk result (λ slot. slot_of (names_of_row (plain_cell row.now)) places.new.slots ≡ Some slot) }
    ensures sums { sums_in places.new ≡ sums_in places.old }
{
    let before = match &*recent {
        Some((names, slot)) => {
            if names.are_of(row) {
                return Ok(*slot);
            }
            Some(names)
        }
        None => None,
    };
    let names = shared.names_near(alloc, before, row)?;
    *recent = None;
    let slot = places.slot(alloc, &names)?;
    *recent = Some((names, slot));
    Ok(slot)
}

/// What places cost by the names of events, added up cell by cell: contracts see a cost above 0 for each
/// place and event, texts in the order of their bytes and lines by number. Each name is held once. Rows come by their
/// places, so mostly with the names of the row before: these need no search.
#[derive(Drop)]
pub struct CellSums {
    alloc: Global,
    shared: SharedNames,
    /// The names of the row before, with their slot.
    recent: Option<(HeldNames, usize)>,
    /// The event of the row before.
    event: Option<RcSlice<u8>>,
    places: Places,
    total: u128,
    ghost is_total: { total ≡ amount_of (sums_in places) },
    ghost small: { total < sum_end },
}

impl Model for CellSums {
    ghost use Rattle.std.specs.Prelude.{◌≡◌, ℕ, List, Some, IfSome};
    ghost use Rattle.report_texts.specs.Csv.{EventSpot};
    ghost use Rattle.cost_exports.specs.Views.{held_names, slot_of, sums_in};

    ghost Value = { List (EventSpot × ℕ) };

    ghost view = { λ a. sums_in a.places };

    ghost invariant = { λ a. IfSome a.recent (λ r. slot_of (held_names r.0) a.places.slots ≡ Some r.1) };
}

impl CellSums {
    /// No cell was added. Takes no memory.
    pub fn new(alloc: Global) -> CellSums
        ensures { result ≡ [] }
    {
        CellSums {
            alloc,
            shared: SharedNames::new(alloc),
            recent: None,
            event: None,
            places: Places::new(alloc),
            total: 0,
        }
    }

    /// What all costs sum to, whatever their events.
    pub fn total(&self) -> u128
        ensures value { result ≡ amount_of self.now }
        ensures small { result < sum_end }
    {
        self.total
    }

    /// Adds a cell's cost to that of its place in an event, whose name is given; a cost of 0 adds nothing.
    /// A refusal leaves the sums as they were.
    pub fn add(&mut self, row: &CellRow<&[u8]>, event: &[u8]) -> Result<(), AllocError>
        requires small { amount_of self.old + row.now.cost < sum_end }
        ensures ok { OnOk result (self.new ≡ with_cell self.old (plain_cell row.now) event.now) }
        ensures err { OnErr result (self.new ≡ self.old) }
    {
        if row.cost == 0 {
            return Ok(());
        }
        let slot = slot_of_row(
            self.alloc,
            &mut self.shared,
            &mut self.recent,
            &mut self.places,
            row,
        )?;
        let event = self
            .shared
            .share_near(self.alloc, self.event.as_ref(), event)?;
        let line = HeldLine {
            line: row.line,
            event,
        };
        self.places.add(slot, &line, row.cost)?;
        self.event = Some(line.event);
        self.total += row.cost;
        Ok(())
    }

    /// The places, with what their lines cost.
    pub(crate) fn places(&self) -> &Places
        ensures { sums_in result.now ≡ self.now }
    {
        &self.places
    }
}
