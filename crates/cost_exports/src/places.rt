// The lines of places, found by the names of the place.
ghost use Rattle.std.specs.Prelude.{◌≡◌, ◌+◌, ◌<◌, ◌^◌, None, Some, [], length, slice_get, slice_index_or, slice_set, option_map, OnOk, OnErr, IfOk};
ghost use Rattle.cost_rows.specs.Merging.{merge};
ghost use Rattle.cost_rows.specs.Stacks.{counts_added};
ghost use Rattle.report_texts.specs.Amounts.{amount_of};
ghost use Rattle.report_texts.specs.Csv.{event_spot_cmp};
ghost use Rattle.cost_exports.specs.Views.{PlaceNames, held_line, held_names, held_slots, line_cmp, slot_of, spot_with, sums_in};

use crate::cells::{HeldLine, HeldNames};
use crate::line_costs::LineCosts;
use std::alloc::{AllocError, Global};
use std::collections::BTreeMap;
use std::collections::btree_map::Iter;
use std::marker::Model;

/// What lines cost at places, those of each place in a slot of its own: contracts see the slot of the
/// names of each place, in order, and the lines by slot. Who knows the slot of some names needs no search.
/// An ordered map finds it: no file can choose names that collide.
#[derive(Drop)]
pub(crate) struct Places {
    slots: BTreeMap<HeldNames, usize>,
    lines: Vec<LineCosts>,
}

impl Model for Places {
    ghost use Rattle.std.specs.Prelude.{length};
    ghost use Rattle.cost_exports.specs.Views.{AreSlots, Slotted, held_slots};

    ghost Value = { Slotted };

    ghost view = { λ a. record { slots = held_slots a.slots.entries; lines = a.lines.items } };

    ghost invariant = { λ a. AreSlots (held_slots a.slots.entries) (length a.lines.items) };
}

/// Adds a cost to that of a line and an event, among the lines in a slot. A refusal leaves them as they were.
fn add_in(
    lines: &mut [LineCosts],
    slot: usize,
    line: &HeldLine,
    cost: u128,
) -> Result<(), AllocError>
    requires in_range { slot < length lines.old }
    requires small { amount_of (slice_index_or lines.old slot []) + cost < 2 ^ 128 }
    ensures ok { OnOk result (lines.new ≡ slice_set lines.old slot (merge line_cmp counts_added (slice_index_or lines.old slot []) (held_line line.now) cost)) }
    ensures err { OnErr result (lines.new ≡ lines.old) }
{
    lines[slot].add(line, cost)
}

impl Places {
    /// There are no places. Takes no memory.
    pub(crate) fn new(alloc: Global) -> Places
        ensures { sums_in result ≡ [] }
    {
        Places {
            slots: BTreeMap::new(alloc),
            lines: Vec::new(alloc),
        }
    }

    /// Adds a cost to that of a line and an event of the names that have a slot. A refusal leaves the sums
    /// as they were.
    pub(crate) fn add(&mut self, slot: usize, line: &HeldLine, cost: u128) -> Result<(), AllocError>
        requires known { (names : PlaceNames) × (slot_of names self.old.slots ≡ Some slot) }
        requires small { amount_of (sums_in self.old) + cost < 2 ^ 128 }
        ensures slots { self.new.slots ≡ self.old.slots }
        ensures ok { (names : PlaceNames) → slot_of names self.old.slots ≡ Some slot
            → OnOk result (sums_in self.new ≡ merge event_spot_cmp counts_added (sums_in self.old) (spot_with names (held_line line.now)) cost) }
        ensures err { OnErr result (sums_in self.new ≡ sums_in self.old) }
    {
        add_in(self.lines.as_mut_slice(), slot, line, cost)
    }

    /// Gives names that have none a slot, without lines. A refusal leaves the sums as they were.
    fn put(&mut self, alloc: Global, names: &HeldNames) -> Result<usize, AllocError>
        requires { slot_of (held_names names.now) self.old.slots ≡ None }
        ensures slot { IfOk result (λ slot. slot_of (held_names names.now) self.new.slots ≡ Some slot) }
        ensures sums { sums_in self.new ≡ sums_in self.old }
    {
        let names = names.share()?;
        let slot = self.lines.len();
        self.lines.push(LineCosts::new(alloc))?;
        if let Err(refused) = self.slots.insert(names, slot) {
            let _ = self.lines.pop();
            return Err(AllocError::from(refused));
        }
        Ok(slot)
    }

    /// The slot of some names; they get one if they have none. The sums stay as they are.
    pub(crate) fn slot(&mut self, alloc: Global, names: &HeldNames) -> Result<usize, AllocError>
        ensures slot { IfOk result (λ slot. slot_of (held_names names.now) self.new.slots ≡ Some slot) }
        ensures sums { sums_in self.new ≡ sums_in self.old }
    {
        match self.find(names) {
            Some(slot) => Ok(slot),
            None => self.put(alloc, names),
        }
    }

    /// The slot of some names.
    fn find(&self, names: &HeldNames) -> Option<usize>
        ensures { result ≡ slot_of (held_names names.now) self.now.slots }
    {
        self.slots.get(names).copied()
    }

    /// The names of places, in order, each with its slot. Takes no memory.
    pub(crate) fn iter(&self) -> Iter<'_, HeldNames, usize>
        ensures { held_slots result ≡ self.now.slots }
    {
        self.slots.iter()
    }

    /// The lines in a slot.
    pub(crate) fn lines(&self, slot: usize) -> Option<&LineCosts>
        ensures { option_map (λ lines. lines.now) result ≡ slice_get self.now.lines slot }
    {
        self.lines.get(slot)
    }
}
