// The events of a file.
ghost use Rattle.std.specs.Prelude.{◌≡◌, ◌≤◌, IfOk, IfSome, Option, Some, None, length, true};
ghost use Rattle.std.specs.Option.{ForSome};
ghost use Rattle.cg_text.specs.Fields.{fields_of};
ghost use Rattle.cg_text.specs.Distinct.{are_distinct};
ghost use Rattle.callgrind_reader.specs.Events.{first_of, same_names, events_fault};
ghost use Rattle.callgrind_reader.specs.Files.{names_or_none};

use crate::rows::field_count;
use cg_text::{Fault, ListVec, are_distinct, next_field};
use std::alloc::{AllocError, Global};

/// The most events that a file may have.
pub const MOST_EVENTS: usize = 64;

/// The fields of a text, each as a name.
fn read_names(alloc: Global, text: &[u8]) -> Result<ListVec<ListVec<u8>>, AllocError>
    ensures { IfOk result (λ names. names ≡ fields_of text.now) }
{
    let mut names = ListVec::new(alloc);
    let mut rest = text;
    while let Some((field, more)) = next_field(rest) {
        names.push(ListVec::from_vec(field.to_vec(alloc)?))?;
        rest = more;
    }
    Ok(names)
}

/// Whether two lists have the same names in the same order.
fn same_names(names: &[ListVec<u8>], others: &[ListVec<u8>]) -> bool
    ensures { result ≡ same_names names.now others.now }
{
    let mut left = names;
    let mut right = others;
    while let Some((name, names)) = left.split_first() {
        let Some((other, others)) = right.split_first() else {
            return false;
        };
        if name.as_slice() != other.as_slice() {
            return false;
        }
        left = names;
        right = others;
    }
    right.is_empty()
}

/// The events of a file, once an `events:` line has named them.
#[derive(Drop)]
pub struct Events {
    pub(crate) alloc: Global,
    pub(crate) names: Option<ListVec<ListVec<u8>>>,
    ghost few: { ForSome names (λ n. length n ≤ 64) },
    ghost distinct: { ForSome names (λ n. are_distinct n ≡ true) },
}

impl Events {
    /// No event is named yet.
    pub fn new(alloc: Global) -> Events
        ensures { result.names ≡ None }
    {
        Events { alloc, names: None }
    }

    /// The names of the events, none where no line named them.
    pub fn into_names(self) -> ListVec<ListVec<u8>>
        ensures names { result ≡ names_or_none self.names }
        ensures few { length result ≤ 64 }
        ensures distinct { are_distinct result ≡ true }
    {
        let Events { alloc, names } = self;
        match names {
            Some(names) => names,
            None => ListVec::new(alloc),
        }
    }

    /// Takes the value of an `events:` line, and answers its fault.
    pub fn take(&mut self, value: &[u8]) -> Result<Option<Fault>, AllocError>
        ensures fault { IfOk result (λ f. f ≡ events_fault (fields_of value.now) self.old.names) }
        ensures names { IfOk result (λ f. f ≡ None → self.new.names ≡ first_of self.old.names (fields_of value.now)) }
        ensures kept { IfSome self.old.names (λ n. self.new.names ≡ Some n) }
    {
        let count = field_count(value);
        if count == 0 {
            return Ok(Some(Fault::NoEvents));
        }
        if count > MOST_EVENTS {
            return Ok(Some(Fault::TooManyEvents));
        }
        let names = read_names(self.alloc, value)?;
        if !are_distinct(names.as_slice()) {
            return Ok(Some(Fault::EventTwice));
        }
        match &self.names {
            Some(earlier) => {
                if !same_names(earlier.as_slice(), names.as_slice()) {
                    return Ok(Some(Fault::EventsChanged));
                }
            }
            None => self.names = Some(names),
        }
        Ok(None)
    }
}
