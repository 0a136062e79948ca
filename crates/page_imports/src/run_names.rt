// The number of a run, and the numbers of its names in the tables.
ghost use Rattle.std.specs.Prelude.{◌≡◌, ◌<◌, ◌↔◌, IsTrue, length, pos, slice_index_or};
ghost use Rattle.sqlite_value.specs.declared.value.Value.TheVariants.{Int};
ghost use Rattle.sqlite_value.specs.Value.{owned};

use sqlite_value::value::ValueRef;
use std::cmp::Ordering;

/// What all lines of a run have in common: its number, and the tables' numbers of the file's names.
#[derive(Drop)]
pub(crate) struct RunNames<'a> {
    pub run: u32,
    pub numbers: &'a [u32],
}

impl RunNames<'_> {
    /// Whether a name that the file has under a number of its own has one in the tables.
    pub(crate) fn has(&self, name: u32) -> bool
        ensures { IsTrue result ↔ (name < length self.now.numbers.now) }
    {
        (name as usize) < self.numbers.len()
    }

    /// The table's number of a name that the file has under a number of its own.
    pub(crate) fn number_of(&self, name: u32) -> u32
        ensures { result ≡ slice_index_or self.now.numbers.now name 0 }
    {
        self.numbers.get(name as usize).copied().unwrap_or(0)
    }

    /// How two names that the file has under numbers of its own stand by the tables' numbers.
    pub(crate) fn compare(&self, one: u32, two: u32) -> Ordering {
        self.number_of(one).cmp(&self.number_of(two))
    }
}

/// The table's number of a name, as a value.
#[inline(always)]
pub(crate) fn name_value(names: &RunNames<'_>, name: u32) -> ValueRef<'static>
    ensures { owned result ≡ Int (pos (slice_index_or names.now.numbers.now name 0)) }
{
    ValueRef::Int(i64::from(names.number_of(name)))
}
