// The names that identifiers mean.
ghost use Rattle.std.specs.Prelude.{◌≡◌, ◌==◌, ℕ, ◌<◌, ◌≤◌, IfOk, OnErr, Some, None, length, if◌then◌else◌};
ghost use Rattle.callgrind_reader.specs.IdPlaces.{place_at};
ghost use Rattle.callgrind_reader.specs.Inside.{AreInside, IsInside};

use crate::id_places::IdPlaces;
use cg_text::TextList;
use std::alloc::{AllocError, Global};

/// The names that identifiers mean, each held once: a name is known by its place among them.
#[derive(Drop)]
pub struct NameTable {
    places: IdPlaces,
    names: TextList,
    ghost inside: { AreInside (place_at places) (length names) },
}

impl NameTable {
    ghost use Rattle.callgrind_reader.specs.Table.{text_at, name_at, names_in, Defines};

    /// No identifier means anything.
    pub fn new(alloc: Global) -> NameTable
        ensures { (q : ℕ) → text_at result q ≡ None }
    {
        NameTable {
            places: IdPlaces::new(alloc),
            names: TextList::new(alloc),
        }
    }

    /// The place of the name that an identifier means.
    pub fn find(&self, id: u64) -> Option<usize>
        ensures place { result ≡ place_at self.now.places id }
        ensures name { name_at self.now result ≡ text_at self.now id }
        ensures inside { IsInside (names_in self.now) result }
    {
        self.places.find(id)
    }

    /// The name at a place.
    pub fn name(&self, place: usize) -> &[u8]
        requires { place < names_in self.now }
        ensures { name_at self.now (Some place) ≡ Some result.now }
    {
        self.names.text(place)
    }

    /// The place of the name that an identifier means. One that means nothing gets this name. Where memory
    /// is refused, each identifier means what it meant.
    pub fn find_or_define(&mut self, id: u64, text: &[u8]) -> Result<usize, AllocError>
        ensures defines { IfOk result (Defines id text.now self.old self.new) }
        ensures refused { OnErr result ((q : ℕ) → text_at self.new q ≡ text_at self.old q) }
        ensures grows { names_in self.old ≤ names_in self.new }
    {
        let next = self.names.len();
        let place = self.places.find_or_add(id, next)?;
        if place == next {
            if let Err(error) = self.names.push(text) {
                self.places.remove(id);
                return Err(error);
            }
        }
        Ok(place)
    }
}
