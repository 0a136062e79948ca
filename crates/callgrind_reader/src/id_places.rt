// The places that identifiers have.
ghost use Rattle.std.specs.Prelude.{◌≡◌, ◌==◌, ℕ, ◌<◌, ◌≤◌, IfOk, OnOk, OnErr, Some, None, unwrap_or, vec_len, if◌then◌else◌};
ghost use Rattle.std.specs.Ordering.{nat_cmp};
ghost use Rattle.std.specs.BTreeMap.{get};
ghost use Rattle.callgrind_reader.specs.NearPlaces.{place_near};

use std::alloc::{AllocError, Global};
use std::collections::BTreeMap;

/// Identifiers below this one are found without a search.
const NEAR: u64 = 65_536;

/// The places that identifiers have. Those of small identifiers stand in a list, as long as the greatest
/// of these asks for; Callgrind numbers its names from 1, and leaves numbers out. An ordered map finds
/// those of the others: no file can choose identifiers that collide, or ask for a long list.
#[derive(Drop)]
pub struct IdPlaces {
    near: Vec<Option<usize>>,
    others: BTreeMap<u64, usize>,
    ghost great: { (q : ℕ) → q < 65536 → get nat_cmp others q ≡ None },
}

/// Lengthens a list of places by identifiers without one, until it has so many.
fn lengthen(near: &mut Vec<Option<usize>>, count: usize) -> Result<(), AllocError>
    ensures long { OnOk result (count ≤ vec_len near.new) }
    ensures same { (id : ℕ) → place_near near.new.items id ≡ place_near near.old.items id }
{
    while near.len() < count {
        near.push(None)?;
    }
    Ok(())
}

/// Puts a place at an identifier in a list of places.
fn put_near(near: &mut Vec<Option<usize>>, id: usize, place: usize) -> Result<(), AllocError>
    ensures ok { OnOk result ((q : ℕ) → place_near near.new.items q ≡ (if id == q then Some place else place_near near.old.items q)) }
    ensures err { OnErr result ((q : ℕ) → place_near near.new.items q ≡ place_near near.old.items q) }
{
    let count = id.checked_add(1).ok_or(AllocError)?;
    lengthen(near, count)?;
    near[id] = Some(place);
    Ok(())
}

/// Leaves an identifier without a place in a list of places.
fn clear_near(near: &mut Vec<Option<usize>>, id: usize)
    ensures { (q : ℕ) → place_near near.new.items q ≡ (if id == q then None else place_near near.old.items q) }
{
    if id < near.len() {
        near[id] = None;
    }
}

/// The place of an identifier in a map of places. One that has none gets the next place.
fn find_or_insert(
    others: &mut BTreeMap<u64, usize>,
    id: u64,
    next: usize,
) -> Result<usize, AllocError>
    ensures found { IfOk result (λ place. place ≡ unwrap_or (get nat_cmp others.old id) next) }
    ensures ok { IfOk result (λ place. (q : ℕ) → get nat_cmp others.new q ≡ (if id == q then Some place else get nat_cmp others.old q)) }
    ensures err { OnErr result ((q : ℕ) → get nat_cmp others.new q ≡ get nat_cmp others.old q) }
{
    Ok(*others.entry(id)?.or_insert(next))
}

impl IdPlaces {
    ghost use Rattle.callgrind_reader.specs.IdPlaces.{place_at};

    /// No identifier has a place. Takes no memory.
    pub fn new(alloc: Global) -> IdPlaces
        ensures { (q : ℕ) → place_at result q ≡ None }
    {
        IdPlaces {
            near: Vec::new(alloc),
            others: BTreeMap::new(alloc),
        }
    }

    /// The place of an identifier in the list, if it has one there.
    fn near_place(&self, id: u64) -> Option<usize>
        ensures { result ≡ place_near self.now.near.items id }
    {
        match self.near.get(id as usize) {
            Some(place) => *place,
            None => None,
        }
    }

    /// The place of an identifier, if it has one.
    pub fn find(&self, id: u64) -> Option<usize>
        ensures { result ≡ place_at self.now id }
    {
        match self.near_place(id) {
            Some(place) => Some(place),
            None => self.others.get(&id).copied(),
        }
    }

    /// The place of an identifier. One that has none gets the next place, by the search that did not find
    /// it.
    pub fn find_or_add(&mut self, id: u64, next: usize) -> Result<usize, AllocError>
        ensures found { IfOk result (λ place. place ≡ unwrap_or (place_at self.old id) next) }
        ensures ok { IfOk result (λ place. (q : ℕ) → place_at self.new q ≡ (if id == q then Some place else place_at self.old q)) }
        ensures err { OnErr result ((q : ℕ) → place_at self.new q ≡ place_at self.old q) }
    {
        if let Some(place) = self.near_place(id) {
            return Ok(place);
        }
        if id < NEAR {
            put_near(&mut self.near, id as usize, next)?;
            return Ok(next);
        }
        find_or_insert(&mut self.others, id, next)
    }

    /// Leaves an identifier without a place.
    pub fn remove(&mut self, id: u64)
        ensures { (q : ℕ) → place_at self.new q ≡ (if id == q then None else place_at self.old q) }
    {
        clear_near(&mut self.near, id as usize);
        self.others.remove(&id);
    }
}
