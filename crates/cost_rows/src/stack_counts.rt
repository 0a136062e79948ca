// Counts of stacks, each in a slot of its own.
ghost use Rattle.std.specs.Prelude.{◌≡◌, ◌+◌, ◌<◌, ◌^◌, ℕ, List, None, Some, [], length, slice_index, slice_set, OnOk, OnErr, IfOk, IfSome};
ghost use Rattle.std.specs.Map.{remove_entry};
ghost use Rattle.std.specs.BTreeMap.{is_at};
ghost use Rattle.cost_rows.specs.Content.{stacks_with};
ghost use Rattle.cost_rows.specs.Slots.{sums_in};
ghost use Rattle.cost_rows.specs.StackCounts.{slot_of_stack, AreFound};
ghost use Rattle.cost_rows.specs.Stacks.{bytes_cmp};
ghost use Rattle.cost_rows.specs.Totals.{stack_total};
ghost use Rattle.cost_rows.specs.Walks.{counted_stacks};

use crate::hashes::ODD;
use crate::walks::StackWalk;
use std::alloc::{AllocError, Global};
use std::collections::BTreeMap;
use std::marker::Model;

/// The longest stack that is kept beside its slot, in bytes.
const LONGEST: usize = 1024;

/// A stack that was found, and its slot.
#[derive(Drop)]
pub(crate) struct FoundStack {
    frames: Vec<u8>,
    slot: usize,
}

/// Counts of stacks: contracts see the slot of each stack, in the order of their bytes, and the counts
/// by slot. An ordered map finds a stack: no file can choose stacks that collide. One that was found
/// lately is kept, at a place that its bytes tell, and found again by one comparison.
#[derive(Drop)]
pub(crate) struct StackCounts {
    alloc: Global,
    slots: BTreeMap<Vec<u8>, usize>,
    counts: Vec<u128>,
    found: Vec<Option<FoundStack>>,
}

impl Model for StackCounts {
    ghost use Rattle.std.specs.Prelude.{ℕ, List, length};
    ghost use Rattle.cost_rows.specs.Slots.{Slotted};
    ghost use Rattle.cost_rows.specs.StackCounts.{AreCounted};
    ghost use Rattle.cost_rows.specs.Stacks.{by_bytes};

    ghost Value = { Slotted (List ℕ) };

    ghost view = { λ a. record { slots = by_bytes a.slots.entries; sums = a.counts.items } };

    ghost invariant = { λ a. AreCounted (by_bytes a.slots.entries) (length a.counts.items) a.found.items };
}

/// Eight bytes of a stack as a number, 0 where there are not so many. No guarantee: any number will do.
fn word_at(frames: &[u8], at: usize) -> u64 {
    let Some(eight) = frames.get(at..at.saturating_add(8)) else {
        return 0;
    };
    match <[u8; 8]>::try_from(eight) {
        Ok(word) => u64::from_le_bytes(word),
        Err(_) => 0,
    }
}

/// Where a stack is kept once it was found: nine words of it are mixed. Two stacks at one place cost
/// a search each time.
fn place_of(frames: &[u8]) -> usize
    ensures { result < 4096 }
{
    let len = frames.len();
    let step = (len / 8).max(1);
    let mut mixed = len as u64;
    let mut at = 0usize;
    for _ in 0..8 {
        mixed = mixed.wrapping_add(word_at(frames, at)).wrapping_mul(ODD);
        mixed = mixed ^ (mixed >> 29);
        at = at.wrapping_add(step);
    }
    let last = word_at(frames, len.wrapping_sub(8));
    let mixed = mixed.wrapping_add(last).wrapping_mul(ODD);
    (mixed >> 52) as usize
}

/// Makes room for a stack at a place.
fn lengthen(found: &mut Vec<Option<FoundStack>>, at: usize) -> Result<(), AllocError>
    ensures long { OnOk result (at < length found.new.items) }
    ensures found { (slots : List (List ℕ × ℕ)) → AreFound slots found.old.items → AreFound slots found.new.items }
{
    while found.len() <= at {
        found.push(None)?;
    }
    Ok(())
}

/// Adds a count to that in a slot.
fn raise(counts: &mut [u128], slot: usize, count: u128)
    requires in_range { slot < length counts.old }
    requires small { slice_index counts.old slot + count < 2 ^ 128 }
    ensures { counts.new ≡ slice_set counts.old slot (slice_index counts.old slot + count) }
{
    counts[slot] += count;
}

impl StackCounts {
    /// No stack was counted. Takes no memory.
    pub(crate) fn new(alloc: Global) -> StackCounts
        ensures { sums_in result ≡ [] }
    {
        StackCounts {
            alloc,
            slots: BTreeMap::new(alloc),
            counts: Vec::new(alloc),
            found: Vec::new(alloc),
        }
    }

    /// The counts above 0, by the bytes of their stacks. Takes no memory.
    pub(crate) fn rows(&self) -> StackWalk<'_>
        ensures { result ≡ counted_stacks (sums_in self.now) }
    {
        StackWalk {
            rest: self.slots.iter(),
            counts: self.counts.as_slice(),
        }
    }

    /// Keeps a stack that was found.
    fn keep(&mut self, frames: &[u8], slot: usize) -> Result<(), AllocError>
        requires { slot_of_stack frames.now self.old.slots ≡ Some slot }
        ensures { self.new ≡ self.old }
    {
        if frames.len() > LONGEST {
            return Ok(());
        }
        let at = place_of(frames);
        let frames = frames.to_vec(self.alloc)?;
        lengthen(&mut self.found, at)?;
        self.found[at] = Some(FoundStack { frames, slot });
        Ok(())
    }

    /// The slot of a stack that is kept.
    fn kept(&self, frames: &[u8]) -> Option<usize>
        ensures { IfSome result (λ slot. slot_of_stack frames.now self.now.slots ≡ Some slot) }
    {
        match self.found.get(place_of(frames)) {
            Some(Some(found)) if found.frames.as_slice() == frames => Some(found.slot),
            _ => None,
        }
    }

    /// The slot of a stack, by a search.
    fn search(&self, frames: &[u8]) -> Option<usize>
        ensures { result ≡ slot_of_stack frames.now self.now.slots }
    {
        self.slots.get(frames).copied()
    }

    /// The slot of a stack, if it was counted.
    pub(crate) fn find(&mut self, frames: &[u8]) -> Result<Option<usize>, AllocError>
        ensures slot { IfOk result (λ slot. slot ≡ slot_of_stack frames.now self.old.slots) }
        ensures same { self.new ≡ self.old }
    {
        if let Some(slot) = self.kept(frames) {
            return Ok(Some(slot));
        }
        let Some(slot) = self.search(frames) else {
            return Ok(None);
        };
        self.keep(frames, slot)?;
        Ok(Some(slot))
    }

    /// Adds a count to that of the stack in a slot.
    pub(crate) fn add(&mut self, slot: usize, count: u64)
        requires known { (frames : List ℕ) × (slot_of_stack frames self.old.slots ≡ Some slot) }
        requires small { stack_total (sums_in self.old) + count < 2 ^ 128 }
        ensures { (frames : List ℕ) → slot_of_stack frames self.old.slots ≡ Some slot → sums_in self.new ≡ stacks_with frames count (sums_in self.old) }
    {
        raise(self.counts.as_mut_slice(), slot, u128::from(count));
    }

    /// Counts a stack that was not counted. A refusal leaves the counts as they were.
    pub(crate) fn put(&mut self, frames: &[u8], count: u64) -> Result<(), AllocError>
        requires { slot_of_stack frames.now self.old.slots ≡ None }
        ensures ok { OnOk result (sums_in self.new ≡ stacks_with frames.now count (sums_in self.old)) }
        ensures err { OnErr result (sums_in self.new ≡ sums_in self.old) }
    {
        let frames = frames.to_vec(self.alloc)?;
        let slot = self.counts.len();
        self.counts.push(u128::from(count))?;
        if let Err(refused) = self.slots.insert(frames, slot) {
            let _ = self.counts.pop();
            return Err(AllocError::from(refused));
        }
        Ok(())
    }

    /// Forgets a stack. Its slot stays empty.
    pub(crate) fn forget(&mut self, frames: &[u8])
        ensures { sums_in self.new ≡ remove_entry (is_at (bytes_cmp frames.now)) (sums_in self.old) }
    {
        self.found.clear();
        let _ = self.slots.remove(frames);
    }
}
