// Names, each held once, by number.
ghost use Rattle.std.specs.Prelude.{◌≡◌, ◌↔◌, ◌<◌, ◌≤◌, ◌^◌, ℕ, true, Some, None, [], length, slice_get, take, OnOk};
ghost use Rattle.std.specs.Option.{option_copied};
ghost use Rattle.cg_text.specs.Distinct.{are_distinct};
ghost use Rattle.cost_rows.specs.Hashes as spec;
ghost use Rattle.cost_rows.specs.Naming.{place_of, GivesNumber};
ghost use Rattle.cost_rows.specs.Numbered.{IsFoundAt, FindsAllBut};
ghost use Rattle.cost_rows.specs.Sums.{name_at};

use crate::hashes::hash_of;
use cg_text::TextList;
use std::alloc::{AllocError, Global};
use std::collections::BTreeMap;
use std::marker::Model;

/// Names, each held once. Contracts see them as a list, in the order in which they first came; a
/// name's number is its place. A map finds the first name of each hash, and another each name whose hash
/// a name before it has: both are ordered, so names that a file chooses to collide cost a search each.
/// What a map gives is compared with the name, so an entry whose name was forgotten does no harm.
#[derive(Drop)]
pub struct Names {
    alloc: Global,
    names: TextList,
    hashes: BTreeMap<u64, u32>,
    others: BTreeMap<Vec<u8>, u32>,
}

impl Model for Names {
    ghost use Rattle.std.specs.Prelude.{ℕ, List};
    ghost use Rattle.cost_rows.specs.Numbered.{IsNumbered};

    ghost Value = { List (List ℕ) };

    ghost view = { λ a. a.names };

    ghost invariant = { λ a. IsNumbered a.names a.hashes a.others };
}

/// Lets a name be found at its number: by its hash where no name before it has it, and else by itself.
/// What was found before is found as before, even where memory is refused.
fn index(
    alloc: Global,
    hashes: &mut BTreeMap<u64, u32>,
    others: &mut BTreeMap<Vec<u8>, u32>,
    hash: u64,
    name: &[u8],
    number: u32,
) -> Result<(), AllocError>
    requires { hash ≡ spec.hash_of name.now }
    ensures found { OnOk result (IsFoundAt name.now number hashes.new others.new) }
    ensures kept { FindsAllBut name.now hashes.old others.old hashes.new others.new }
{
    if hashes.contains_key(&hash) {
        let key = name.to_vec(alloc)?;
        others.insert(key, number)?;
    } else {
        hashes.insert(hash, number)?;
    }
    Ok(())
}

impl Names {
    /// No name is held. Takes no memory.
    pub fn new(alloc: Global) -> Names
        ensures { result ≡ [] }
    {
        Names {
            alloc,
            names: TextList::new(alloc),
            hashes: BTreeMap::new(alloc),
            others: BTreeMap::new(alloc),
        }
    }

    /// How many names are held.
    pub fn len(&self) -> usize
        ensures len { result ≡ length self.now }
        ensures few { length self.now ≤ 2 ^ 32 }
        ensures distinct { are_distinct self.now ≡ true }
    {
        self.names.len()
    }

    /// The name of a number that was given out. Takes no memory.
    pub fn name(&self, id: u32) -> &[u8]
        requires { id < length self.now }
        ensures { slice_get self.now id ≡ Some result.now }
    {
        self.names.text(id as usize)
    }

    /// The name of a number, empty for one that was not given out. Takes no memory.
    pub(crate) fn name_or_empty(&self, id: u32) -> &[u8]
        ensures { result.now ≡ name_at self.now id }
    {
        match self.names.get(id as usize) {
            Some(name) => name,
            None => &[],
        }
    }

    /// A number, if it is that of a name.
    fn if_named(&self, number: Option<&u32>, name: &[u8]) -> Option<u32>
        ensures { (n : ℕ) → (result ≡ Some n) ↔ ((option_copied number.entry ≡ Some n) × (slice_get self.now n ≡ Some name.now)) }
    {
        let number = *number?;
        if self.names.get(number as usize)? == name {
            Some(number)
        } else {
            None
        }
    }

    /// The number of a name of a hash, if it is held.
    fn find_by(&self, hash: u64, name: &[u8]) -> Option<u32>
        requires { hash ≡ spec.hash_of name.now }
        ensures { result ≡ place_of name.now self.now }
    {
        if let Some(number) = self.if_named(self.hashes.get(&hash), name) {
            return Some(number);
        }
        self.if_named(self.others.get(name), name)
    }

    /// The number of a name, if it is held. Takes no memory.
    pub(crate) fn find(&self, name: &[u8]) -> Option<u32>
        ensures { result ≡ place_of name.now self.now }
    {
        self.find_by(hash_of(name), name)
    }

    /// Holds a name of a hash that is not held yet.
    fn add(&mut self, hash: u64, name: &[u8]) -> Result<u32, AllocError>
        requires hash { hash ≡ spec.hash_of name.now }
        requires new { place_of name.now self.old ≡ None }
        ensures { GivesNumber name.now self.old result self.new }
    {
        let Ok(number) = u32::try_from(self.len()) else {
            return Err(AllocError);
        };
        let (hashes, others) = (&mut self.hashes, &mut self.others);
        index(self.alloc, hashes, others, hash, name, number)?;
        self.names.push(name)?;
        Ok(number)
    }

    /// The number of a name, which is held from now on. A refusal leaves the names as they were;
    /// with 2^32 names held a new one is refused.
    pub fn id_of(&mut self, name: &[u8]) -> Result<u32, AllocError>
        ensures number { GivesNumber name.now self.old result self.new }
        ensures distinct { are_distinct self.new ≡ true }
    {
        let _ = &self.alloc;
        let hash = hash_of(name);
        if let Some(number) = self.find_by(hash, name) {
            return Ok(number);
        }
        self.add(hash, name)
    }

    /// Forgets the names from the last back, until no more than a number of them is held.
    pub(crate) fn truncate(&mut self, len: usize)
        ensures { self.new ≡ take len self.old }
    {
        self.names.truncate(len);
    }
}
