// A list that contracts see as the list that it is.
ghost use Rattle.std.specs.Prelude.{◌≡◌, ◌++◌, ◌∷◌, [], ◌↔◌, IsTrue, OnOk, OnErr, length};

use std::alloc::{AllocError, Global};
use std::marker::Model;

/// A list over a `Vec`, which it is made from and turned back into at no cost.
#[derive(Drop)]
pub struct ListVec<T> {
    vec: Vec<T>,
}

impl<T> Model for ListVec<T> {
    ghost use Rattle.std.specs.Prelude.{List};

    ghost Value = { List T };

    ghost view = { λ a. a.vec.items };
}

impl<T> ListVec<T> {
    /// A list with no item, which takes no memory.
    pub fn new(alloc: Global) -> ListVec<T>
        ensures { result ≡ [] }
    {
        ListVec {
            vec: Vec::new(alloc),
        }
    }

    /// The list of a vector's items.
    pub fn from_vec(vec: Vec<T>) -> ListVec<T>
        ensures { result ≡ vec.items }
    {
        ListVec { vec }
    }

    /// The vector of the items.
    pub fn into_vec(self) -> Vec<T>
        ensures { result.items ≡ self }
    {
        let ListVec { vec } = self;
        vec
    }

    /// The items.
    pub fn as_slice(&self) -> &[T]
        ensures { result.now ≡ self.now }
    {
        self.vec.as_slice()
    }

    /// How many items there are.
    pub fn len(&self) -> usize
        ensures { result ≡ length self.now }
    {
        self.vec.len()
    }

    /// Whether there is no item.
    pub fn is_empty(&self) -> bool
        ensures { IsTrue result ↔ (self.now ≡ []) }
    {
        self.vec.is_empty()
    }
}

impl<T: Drop> ListVec<T> {
    /// Adds an item at the end; where memory is refused, the list stays as it was.
    pub fn push(&mut self, item: T) -> Result<(), AllocError>
        ensures ok { OnOk result (self.new ≡ self.old ++ item ∷ []) }
        ensures err { OnErr result (self.new ≡ self.old) }
    {
        self.vec.push(item)?;
        Ok(())
    }
}
