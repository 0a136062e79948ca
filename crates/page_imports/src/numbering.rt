// Numbers of names, and the new names among them.
ghost use Rattle.std.specs.Prelude.{◌≡◌, ◌<◌, ◌^◌, ◌∷◌, ◌++◌, [], suc, IfErr, IfOk, OnOk};
ghost use Rattle.plain_tables.specs.Tables.{Tables};
ghost use Rattle.page_imports.specs.RowFits.{RefusesUnless};
ghost use Rattle.page_imports.specs.Names.{AreNumbered, IsNextName, NumbersOne, bytes_of};

use line_fills::PageLine;
use plain_tables::StoreError;
use sqlite_value::value::ValueRef;
use std::alloc::{AllocError, Global};
use std::cmp::Ordering;

/// A name that is not held yet, as a line of the table of names.
#[derive(Drop)]
pub(crate) struct NewName<'a> {
    name: &'a [u8],
}

impl PageLine for NewName<'_> {
    ghost use Rattle.std.specs.Prelude.{[], ◌∷◌};
    ghost use Rattle.sqlite_value.specs.declared.value.Value.TheVariants.{Blob, Null};

    ghost columns = { λ line. Null ∷ Blob line.name.now ∷ [] };

    fn width(&self) -> usize {
        2
    }

    fn value(&self, at: usize) -> ValueRef<'_> {
        match at {
            1 => ValueRef::Blob(self.name),
            _ => ValueRef::Null,
        }
    }

    fn compare(&self, other: &Self, _index: usize) -> Ordering {
        self.name.cmp(other.name)
    }
}

/// The numbers of names, of which the new ones get the next numbers in their order.
#[derive(Drop)]
pub(crate) struct Numbered<'a> {
    pub numbers: Vec<u32>,
    pub news: Vec<NewName<'a>>,
    next: u64,
}

impl<'a> Numbered<'a> {
    /// Has room for the numbers of so many names. The first new one gets the number `next`.
    pub(crate) fn new(alloc: Global, count: usize, next: u64) -> Result<Numbered<'a>, AllocError>
        ensures { (t : Tables) → IsNextName next t → IfOk result (λ it. AreNumbered t [] it) }
    {
        Ok(Numbered {
            numbers: Vec::with_capacity(alloc, count)?,
            news: Vec::new(alloc),
            next,
        })
    }

    /// Takes the number of one more name.
    fn take_held(&mut self, number: u32) -> Result<(), AllocError>
        ensures numbers { OnOk result (self.new.numbers.items ≡ self.old.numbers.items ++ number ∷ []) }
        ensures news { self.new.news ≡ self.old.news }
        ensures next { self.new.next ≡ self.old.next }
    {
        self.numbers.push(number)?;
        Ok(())
    }

    /// Takes one more name, which is new and gets the next number.
    fn take_new(&mut self, name: &'a [u8]) -> Result<(), StoreError>
        ensures numbers { OnOk result (self.new.numbers.items ≡ self.old.numbers.items ++ self.old.next ∷ []) }
        ensures news { OnOk result (bytes_of self.new.news.items ≡ bytes_of self.old.news.items ++ name.now ∷ []) }
        ensures next { OnOk result (self.new.next ≡ suc self.old.next) }
        ensures refused { IfErr result (RefusesUnless (self.old.next < 2 ^ 32)) }
    {
        let Ok(number) = u32::try_from(self.next) else {
            return Err(StoreError::Store);
        };
        if self.news.push(NewName { name }).is_err() {
            return Err(StoreError::Memory);
        }
        self.next = u64::from(number) + 1;
        self.take_held(number)?;
        Ok(())
    }

    /// Takes one more name, with its number if it is held.
    pub(crate) fn take(&mut self, name: &'a [u8], held: Option<u32>) -> Result<(), StoreError>
        ensures { NumbersOne self.old self.new name.now held result }
    {
        match held {
            Some(number) => {
                self.take_held(number)?;
                Ok(())
            }
            None => self.take_new(name),
        }
    }
}
