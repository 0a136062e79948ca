// The lines of a run, as lines of its tables.
ghost use Rattle.std.specs.Prelude.{◌≡◌, pos};
ghost use Rattle.sqlite_value.specs.declared.value.Value.TheVariants.{Int};
ghost use Rattle.sqlite_value.specs.Value.{owned};

use crate::lines::PageLine;
use prof_store::{CoefRow, ColumnInt, DerivedRow, EventRow, StoredStack};
use sqlite_value::value::ValueRef;
use std::cmp::Ordering;

/// A number of 32 bits as a value.
#[inline(always)]
fn small(number: u32) -> ValueRef<'static>
    ensures { owned result ≡ Int (pos number) }
{
    ValueRef::Int(i64::from(number))
}

/// A number of a column as a value.
#[inline(always)]
fn whole(number: &ColumnInt) -> ValueRef<'static>
    ensures { owned result ≡ Int (pos number.now) }
{
    ValueRef::Int(number.as_i64())
}

impl PageLine for StoredStack<'_> {
    ghost use Rattle.prof_store.specs.Lines.{stack_row};
    ghost use Rattle.prof_store.specs.Tables.{stack_columns};

    ghost columns = { λ line. stack_columns (stack_row line) };

    #[inline(always)]
    fn width(&self) -> usize {
        3
    }

    #[inline(always)]
    fn value(&self, at: usize) -> ValueRef<'_> {
        match at {
            0 => small(self.run),
            1 => ValueRef::Blob(self.frames),
            2 => whole(&self.count),
            _ => ValueRef::Null,
        }
    }

    fn compare(&self, other: &Self, _index: usize) -> Ordering {
        if self.run != other.run {
            return self.run.cmp(&other.run);
        }
        self.frames.cmp(other.frames)
    }
}

impl PageLine for EventRow<'_> {
    ghost use Rattle.prof_store.specs.Lines.{event_row};
    ghost use Rattle.prof_store.specs.Tables.{event_columns};

    ghost columns = { λ line. event_columns (event_row line) };

    fn width(&self) -> usize {
        6
    }

    fn value(&self, at: usize) -> ValueRef<'_> {
        match at {
            0 => small(self.run),
            1 => small(self.place),
            2 => ValueRef::Blob(self.name),
            3 => whole(&self.self_cost),
            4 => whole(&self.call_cost),
            5 => match &self.stated {
                Some(text) => ValueRef::Text(text.as_bytes()),
                None => ValueRef::Null,
            },
            _ => ValueRef::Null,
        }
    }

    /// The first index is by place, the second by name.
    fn compare(&self, other: &Self, index: usize) -> Ordering {
        if self.run != other.run {
            return self.run.cmp(&other.run);
        }
        match index {
            0 => self.place.cmp(&other.place),
            _ => self.name.cmp(other.name),
        }
    }
}

impl PageLine for DerivedRow<'_> {
    ghost use Rattle.prof_store.specs.Lines.{derived_row};
    ghost use Rattle.prof_store.specs.Tables.{derived_columns};

    ghost columns = { λ line. derived_columns (derived_row line) };

    fn width(&self) -> usize {
        3
    }

    fn value(&self, at: usize) -> ValueRef<'_> {
        match at {
            0 => small(self.run),
            1 => small(self.place),
            2 => ValueRef::Blob(self.name),
            _ => ValueRef::Null,
        }
    }

    /// The first index is by place, the second by name.
    fn compare(&self, other: &Self, index: usize) -> Ordering {
        if self.run != other.run {
            return self.run.cmp(&other.run);
        }
        match index {
            0 => self.place.cmp(&other.place),
            _ => self.name.cmp(other.name),
        }
    }
}

impl PageLine for CoefRow {
    ghost use Rattle.prof_store.specs.Lines.{coef_row};
    ghost use Rattle.prof_store.specs.Tables.{coef_columns};

    ghost columns = { λ line. coef_columns (coef_row line) };

    fn width(&self) -> usize {
        4
    }

    fn value(&self, at: usize) -> ValueRef<'_> {
        match at {
            0 => small(self.run),
            1 => small(self.place),
            2 => small(self.event),
            3 => whole(&self.times),
            _ => ValueRef::Null,
        }
    }

    fn compare(&self, other: &Self, _index: usize) -> Ordering {
        if self.run != other.run {
            return self.run.cmp(&other.run);
        }
        if self.place != other.place {
            return self.place.cmp(&other.place);
        }
        self.event.cmp(&other.event)
    }
}
