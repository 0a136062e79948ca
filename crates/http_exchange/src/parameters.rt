// The parameters of a target (specs/Parameters.antt).
ghost use Rattle.std.specs.Prelude.{◌≡◌, IfNone, IfSome, Some, None};
ghost use Rattle.http_exchange.specs.Texts.{shown};
ghost use Rattle.http_exchange.specs.Parameters as spec;

use crate::names::{Name, name_in};
use crate::texts::cut;
use std::marker::Model;

/// What was given: for each name its value as it stands in the target.
#[derive(Drop)]
pub(crate) struct Given<'a> {
    values: [Option<&'a [u8]>; 11],
}

impl<'a> Model for Given<'a> {
    ghost use Rattle.std.specs.Prelude.{ℕ, List, Option, map};
    ghost use Rattle.http_exchange.specs.Texts.{shown};

    ghost Value = { List (Option (List ℕ)) };

    ghost view = { λ a. map shown a.values };
}

impl<'a> Given<'a> {
    /// Nothing.
    fn nothing() -> Given<'a>
        ensures { result ≡ spec.nothing_given }
    {
        Given { values: [None; 11] }
    }

    /// The value of a name, as it stands in the target.
    pub(crate) fn value(&self, name: Name) -> Option<&'a [u8]>
        ensures { shown result ≡ spec.value_of name self.now }
    {
        self.values[name.index()]
    }

    /// One more value; `None` where the name was given.
    fn with_value(self, name: Name, value: &'a [u8]) -> Option<Given<'a>>
        ensures { result ≡ spec.with_value (Some name) (Some value.now) self.entry }
    {
        if self.value(name).is_some() {
            return None;
        }
        let Given { mut values } = self;
        values[name.index()] = Some(value);
        Some(Given { values })
    }

    /// One more part; `None` where it is no name that is taken, `=` and a value, or the name was given.
    fn with_part(self, names: &[Name], part: &'a [u8]) -> Option<Given<'a>>
        ensures { result ≡ spec.with_part names.now part.now self.entry }
    {
        let (front, rest) = cut(part, b'=');
        let name = name_in(names, front)?;
        let value = rest?;
        self.with_value(name, value)
    }
}

/// What is given by all that follows the question mark of a target; `None` where it is malformed.
pub(crate) fn read_query<'a>(names: &[Name], query: Option<&'a [u8]>) -> Option<Given<'a>>
    ensures { result ≡ spec.given_by names.now (shown query.entry) }
{
    let mut given = Given::nothing();
    let mut rest = match query {
        Some(text) if !text.is_empty() => Some(text),
        _ => None,
    };
    'parts: while let Some(text) = rest {
        let (part, more) = cut(text, b'&');
        given = given.with_part(names, part)?;
        rest = more;
    }
    Some(given)
}
