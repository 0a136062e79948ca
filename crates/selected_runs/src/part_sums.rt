// What costs at parts of places sum to, in slots.
ghost use Rattle.std.specs.Prelude.{◌≡◌, ◌+◌, ◌<◌, ◌^◌, ℕ, Bool, true, None, length, slice_index, slice_set, [], OnOk, OnErr, IfOk, IsPermutation};
ghost use Rattle.std.specs.BTreeMap.{is_at};
ghost use Rattle.std.specs.Map.{lookup};
ghost use Rattle.selected_runs.specs.Ranked.{sums_of};
ghost use Rattle.selected_runs.specs.Slots.{costs_of, parts_of, sums_at, IsSlotOf, LeadToParts};
ghost use Rattle.selected_runs.specs.Sums.{numbers_cmp, numbers_total, numbers_with};

use crate::parts::{NumberPart, PartSum};
use std::alloc::{AllocError, Global};
use std::cmp::Reverse;
use std::collections::BTreeMap;
use std::collections::btree_map::Iter;
use std::marker::Model;

/// What costs at parts sum to: contracts see each part with its sum, in the order of the parts. The sums stand in
/// slots, in the order in which their parts came. The rows of a further run bring most parts in that order too, so
/// a part is compared with that of the cost before and with the one behind it; where it is neither, it is searched
/// for.
#[derive(Drop)]
pub(crate) struct PartSums {
    /// The slot of each part.
    places: BTreeMap<NumberPart, usize>,
    /// What stands in each slot.
    slots: Vec<PartSum>,
    /// The slot of the cost before: a guess, since a wrong one costs no more than a search.
    here: usize,
}

impl Model for PartSums {
    ghost use Rattle.std.specs.Prelude.{ℕ, List};
    ghost use Rattle.selected_runs.specs.Slots.{parts_of, sums_at, LeadToParts};
    ghost use Rattle.selected_runs.specs.declared.parts.NumberPart.{NumberPart};

    ghost Value = { List (NumberPart × ℕ) };

    ghost view = { λ a. sums_at a.places.entries a.slots.items };

    ghost invariant = { λ a. LeadToParts a.places.entries (parts_of a.slots.items) };
}

/// Whether a slot is that of a part.
fn is_slot_of(slots: &[PartSum], slot: usize, part: &NumberPart) -> bool
    ensures { result ≡ true → IsSlotOf slots.now slot part.now }
{
    slot < slots.len() && slots[slot].part == *part
}

/// The slot of a part, if it has one, by a search.
#[inline(never)]
fn search(places: &BTreeMap<NumberPart, usize>, part: &NumberPart) -> Option<usize>
    ensures { result ≡ lookup (is_at (numbers_cmp part.now)) places.now.entries }
{
    places.get(part).copied()
}

/// The slot of a part, if it has one.
fn find(
    places: &BTreeMap<NumberPart, usize>,
    slots: &[PartSum],
    here: usize,
    part: &NumberPart,
) -> Option<usize>
    requires { LeadToParts places.now.entries (parts_of slots.now) }
    ensures { result ≡ lookup (is_at (numbers_cmp part.now)) places.now.entries }
{
    if is_slot_of(slots, here, part) {
        return Some(here);
    }
    let next = here.wrapping_add(1);
    if is_slot_of(slots, next, part) {
        return Some(next);
    }
    search(places, part)
}

/// Adds a cost to the sum in a slot.
fn raise(slots: &mut [PartSum], slot: usize, cost: u128)
    requires in_range { slot < length slots.old }
    requires small { slice_index (costs_of slots.old) slot + cost < 2 ^ 128 }
    ensures parts { parts_of slots.new ≡ parts_of slots.old }
    ensures costs { costs_of slots.new ≡ slice_set (costs_of slots.old) slot (slice_index (costs_of slots.old) slot + cost) }
{
    slots[slot].cost.0 += cost;
}

/// Gives a part that has none a slot, with a cost as its sum, and returns its place. A refusal leaves all as it was.
#[cold]
#[inline(never)]
fn put(
    places: &mut BTreeMap<NumberPart, usize>,
    slots: &mut Vec<PartSum>,
    part: &NumberPart,
    cost: u128,
) -> Result<usize, AllocError>
    requires lead { LeadToParts places.old.entries (parts_of slots.old.items) }
    requires absent { lookup (is_at (numbers_cmp part.now)) places.old.entries ≡ None }
    ensures lead { LeadToParts places.new.entries (parts_of slots.new.items) }
    ensures ok { OnOk result (sums_at places.new.entries slots.new.items ≡ numbers_with part.now cost (sums_at places.old.entries slots.old.items)) }
    ensures err { OnErr result (sums_at places.new.entries slots.new.items ≡ sums_at places.old.entries slots.old.items) }
{
    let slot = slots.len();
    slots.push(PartSum {
        cost: Reverse(cost),
        part: *part,
    })?;
    if let Err(refused) = places.insert(*part, slot) {
        let _ = slots.pop();
        return Err(AllocError::from(refused));
    }
    Ok(slot)
}

impl PartSums {
    /// No cost was added. Takes no memory.
    pub(crate) fn new(alloc: Global) -> PartSums
        ensures { result ≡ [] }
    {
        PartSums {
            places: BTreeMap::new(alloc),
            slots: Vec::new(alloc),
            here: 0,
        }
    }

    /// Adds a cost at a part. A refusal leaves the sums as they were.
    pub(crate) fn add(&mut self, part: &NumberPart, cost: u128) -> Result<(), AllocError>
        requires small { numbers_total self.old + cost < 2 ^ 128 }
        ensures ok { OnOk result (self.new ≡ numbers_with part.now cost self.old) }
        ensures err { OnErr result (self.new ≡ self.old) }
    {
        match find(&self.places, &self.slots, self.here, part) {
            Some(slot) => {
                raise(self.slots.as_mut_slice(), slot, cost);
                self.here = slot;
            }
            None => self.here = put(&mut self.places, &mut self.slots, part, cost)?,
        }
        Ok(())
    }

    /// The parts with their sums, in order. Takes no memory.
    pub(crate) fn iter(&self) -> PartIter<'_>
        ensures { result ≡ self.now }
    {
        PartIter {
            places: self.places.iter(),
            slots: self.slots.as_slice(),
        }
    }

    /// The parts with their sums, in another order. Takes no memory.
    pub(crate) fn into_slots(self) -> Vec<PartSum>
        ensures { IsPermutation (sums_of result.items) self }
    {
        self.slots
    }
}

/// Parts with their sums, one after another, which contracts see as the list of what is left.
#[derive(Drop)]
pub(crate) struct PartIter<'a> {
    places: Iter<'a, NumberPart, usize>,
    slots: &'a [PartSum],
}

/// The sum in a slot, 0 where there is no such slot.
fn cost_in(slots: &[PartSum], slot: usize) -> u128
    ensures { result ≡ slice_index (costs_of slots.now) slot }
{
    match slots.get(slot) {
        Some(sum) => sum.cost.0,
        None => 0,
    }
}

impl<'a> Model for PartIter<'a> {
    ghost use Rattle.std.specs.Prelude.{ℕ, List};
    ghost use Rattle.selected_runs.specs.Slots.{sums_at};
    ghost use Rattle.selected_runs.specs.declared.parts.NumberPart.{NumberPart};

    ghost Value = { List (NumberPart × ℕ) };

    ghost view = { λ a. sums_at a.places a.slots.now };
}

impl<'a> Iterator for PartIter<'a> {
    ghost use Rattle.std.specs.Iterator.{YieldsFirstBy, item_count};

    type Item = (&'a NumberPart, u128);

    ghost next_gives = { YieldsFirstBy (λ e. (e.0.now, e.1)) (λ s. s) };

    ghost remaining = { item_count (λ s. s) };

    fn next(&mut self) -> Option<(&'a NumberPart, u128)> {
        let (part, slot) = self.places.next()?;
        Some((part, cost_in(self.slots, *slot)))
    }
}
