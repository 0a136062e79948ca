// The names of a name space: what identifiers mean, and which names are in force.
ghost use Rattle.std.specs.Prelude.{◌≡◌, ℕ, ◌<◌, ◌≤◌, IfOk, OnOk, OnErr, IfSome, Some, None, unwrap_or};
ghost use Rattle.cg_text.specs.Names.{name_of};
ghost use Rattle.callgrind_reader.specs.Inside.{IsInside};
ghost use Rattle.callgrind_reader.specs.Table.{names_in};
ghost use Rattle.callgrind_reader.specs.Current.{given_text, place_given, text_of, Gives, CountsPlain, mark_of};
ghost use Rattle.callgrind_reader.specs.declared.tables.NameTable.{NameTable};

use crate::tables::NameTable;
use cg_text::{Fault, Role, UNKNOWN, name_spec};
use profile_records::{LentName, Mark};
use std::alloc::{AllocError, Global};

/// What a name line gives: the place of a name in the table, or a name that has no identifier.
#[derive(Clone, Copy)]
pub(crate) enum Given<'a> {
    Held(usize),
    Plain(&'a [u8]),
}

/// Takes what a name line says: its definition goes into the table. Answers the name or the line's
/// fault.
fn resolve<'a>(
    table: &mut NameTable,
    value: &'a [u8],
) -> Result<Result<Given<'a>, Fault>, AllocError>
    ensures gives { IfOk result (Gives (name_of value.now) table.old table.new) }
    ensures grows { names_in table.old ≤ names_in table.new }
{
    let spec = match name_spec(value) {
        Ok(spec) => spec,
        Err(fault) => return Ok(Err(fault)),
    };
    let Some(id) = spec.id else {
        return Ok(Ok(Given::Plain(spec.text.unwrap_or(UNKNOWN))));
    };
    let Some(text) = spec.text else {
        return match table.find(id) {
            Some(place) => Ok(Ok(Given::Held(place))),
            None => Ok(Err(Fault::UnknownId)),
        };
    };
    let place = table.find_or_define(id, text)?;
    if table.name(place) == text {
        Ok(Ok(Given::Held(place)))
    } else {
        Ok(Err(Fault::IdRedefined))
    }
}

/// A name in force: that of a place in the table, or else the last one that had no identifier, of
/// which so many were given.
#[derive(Drop)]
pub(crate) struct Current {
    place: Option<usize>,
    plain: Vec<u8>,
    count: u64,
}

impl Current {
    /// The name that was given. After 2^64 - 1 names without an identifier, one more is refused.
    fn set(&mut self, given: Given<'_>) -> Result<(), AllocError>
        ensures text { OnOk result ((table : NameTable) → text_of table self.new ≡ given_text table given.entry) }
        ensures place { OnOk result (self.new.place ≡ place_given given.entry) }
        ensures counts { OnOk result (CountsPlain given.entry self.old self.new) }
        ensures err { OnErr result (self.new.place ≡ self.old.place) }
    {
        match given {
            Given::Held(place) => self.place = Some(place),
            Given::Plain(text) => {
                let Some(count) = self.count.checked_add(1) else {
                    return Err(AllocError);
                };
                self.plain.clear();
                self.plain.extend_from_slice(text)?;
                self.count = count;
                self.place = None;
            }
        }
        Ok(())
    }

    /// The name, with its place as its mark, or else with the mark of names without an identifier.
    fn lent<'a>(&'a self, table: &'a NameTable, plain_mark: Mark) -> LentName<'a>
        requires { IsInside (names_in table.now) self.now.place }
        ensures text { text_of table.now self.now ≡ Some result.text.now }
        ensures mark { result.mark ≡ mark_of self.now.place plain_mark }
    {
        match self.place {
            Some(place) => LentName {
                text: table.name(place),
                mark: Mark::Held(place),
            },
            None => LentName {
                text: self.plain.as_slice(),
                mark: plain_mark,
            },
        }
    }
}

/// What is kept of a name space.
#[derive(Drop)]
pub struct Space {
    table: NameTable,
    own: Current,
    called: Current,
    is_called: bool,
    ghost own_inside: { IsInside (names_in table) own.place },
    ghost called_inside: { IsInside (names_in table) called.place },
}

impl Space {
    ghost use Rattle.std.specs.Prelude.{List, []};
    ghost use Rattle.cg_text.specs.declared.words.Namespace.{Namespace};
    ghost use Rattle.callgrind_reader.specs.Space.{SpaceIs, TakesName, called_name};
    ghost use Rattle.callgrind_reader.specs.Marks.{IsLent, SpaceStays};

    /// Nothing is named yet.
    pub fn new(alloc: Global) -> Result<Space, AllocError>
        ensures { IfOk result (λ s. (space : Namespace) → SpaceIs s space []) }
    {
        Ok(Space {
            table: NameTable::new(alloc),
            own: Current {
                place: None,
                plain: UNKNOWN.to_vec(alloc)?,
                count: 0,
            },
            called: Current {
                place: None,
                plain: Vec::new(alloc),
                count: 0,
            },
            is_called: false,
        })
    }

    /// The name in force.
    pub fn own(&self) -> LentName<'_>
        ensures text { text_of self.now.table self.now.own ≡ Some result.text.now }
        ensures lent { IsLent self.now result.mark result.text.now }
    {
        self.own.lent(&self.table, Mark::Own(self.own.count))
    }

    /// The name of what is called: the called name, or else another.
    pub fn called_or<'a>(&'a self, other: LentName<'a>) -> LentName<'a>
        ensures text { result.text.now ≡ unwrap_or (called_name self.now) other.entry.text.now }
        ensures lent { IsLent self.now other.entry.mark other.entry.text.now → IsLent self.now result.mark result.text.now }
    {
        if self.is_called {
            self.called
                .lent(&self.table, Mark::Called(self.called.count))
        } else {
            other
        }
    }

    /// Forgets the called name.
    pub fn forget_called(&mut self)
        ensures table { self.new.table ≡ self.old.table }
        ensures own { self.new.own ≡ self.old.own }
        ensures kept { self.new.called ≡ self.old.called }
        ensures called { called_name self.new ≡ None }
    {
        self.is_called = false;
    }

    /// Takes the value of a name line of this space, and answers its fault.
    pub fn take(&mut self, role: Role, value: &[u8]) -> Result<Option<Fault>, AllocError>
        ensures takes { IfOk result (TakesName role (name_of value.now) self.old self.new) }
        ensures marks { OnOk result (SpaceStays self.old self.new) }
    {
        let given = match resolve(&mut self.table, value)? {
            Ok(given) => given,
            Err(fault) => return Ok(Some(fault)),
        };
        match role {
            Role::Own => self.own.set(given)?,
            Role::Called => {
                self.called.set(given)?;
                self.is_called = true;
            }
            Role::Jumped => {}
        }
        Ok(None)
    }
}
