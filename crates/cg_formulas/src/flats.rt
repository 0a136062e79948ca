// The coefficients of derived events over the events of a file, and their values.
ghost use Rattle.std.specs.Prelude.{◌≡◌, ◌↔◌, ◌+◌, ◌*◌, ◌<◌, ◌≤◌, ◌^◌, ℕ, All, List, [], true, false, length, sum, position, is_some, IsTrue, IfOk, IfSome};
ghost use Rattle.std.specs.Map.{lookup};
ghost use Rattle.std.specs.Option.{option_copied};
ghost use Rattle.std.specs.Str.{bytes_eq};
ghost use Rattle.cg_formulas.specs.Formulas as specs;
ghost use Rattle.cg_text.specs.Distinct.{are_distinct};
ghost use Rattle.cg_formulas.specs.Formulas.{is_known, is_defined, coefficient, coefficients};
ghost use Rattle.cg_formulas.specs.Rows.{IsRow, counted};
ghost use Rattle.cg_formulas.specs.EventViews.{terms_in};

use crate::definitions::Definition;
use crate::rows::{add_times, total, weighed};
use crate::terms::terms;
use cg_text::{Fault, ListVec, are_distinct};
use std::alloc::{AllocError, Global};
use std::error::Error;
use std::fmt;

/// How many derived names a file may have.
pub(crate) const MOST_NAMES: usize = 64;

/// How often all events together may count in a derived event.
const MOST_COUNTS: u64 = 1_000_000;

/// The derived events of a file, each with one coefficient for each of its events.
#[derive(Drop)]
pub struct Flat {
    /// The names of the events.
    pub events: ListVec<ListVec<u8>>,
    /// The derived names, each with its coefficients.
    pub derived: ListVec<(ListVec<u8>, ListVec<u64>)>,
    ghost distinct: { are_distinct events ≡ true },
    ghost shape: { All (λ d. length d.1 ≡ length events) derived },
    ghost small: { All (λ d. sum d.1 ≤ 1000000) derived },
}

/// Why formulas yield no coefficients: their first fault with its line, or out of memory. Printed
/// as `line 4: F18 formula too large` or `out of memory`.
#[derive(Clone, Copy, Debug, PartialEq, Eq)]
pub enum FlatEnd {
    Fault(Fault, u64),
    Memory,
}

impl fmt::Display for FlatEnd {
    ghost use Rattle.std.specs.Prelude.{Some};
    ghost use Rattle.cg_formulas.specs.Errors.{flat_error_text};

    ghost output = { λ end. Some (flat_error_text end) };

    fn fmt<W: fmt::Write>(&self, f: &mut fmt::Formatter<W>) -> fmt::Result {
        match self {
            FlatEnd::Fault(fault, line) => write!(f, "line {line}: {fault}"),
            FlatEnd::Memory => write!(f, "out of memory"),
        }
    }
}

impl Error for FlatEnd {}

impl From<AllocError> for FlatEnd {
    ghost use Rattle.std.specs.Prelude.{◌≡◌};
    ghost use Rattle.cg_formulas.specs.declared.flats.FlatEnd.TheVariants as ends;

    ghost from_gives = { λ _ end. end ≡ ends.Memory };

    fn from(_error: AllocError) -> FlatEnd {
        FlatEnd::Memory
    }
}

/// The names, each with its bytes in memory of its own.
fn copied(alloc: Global, names: &[ListVec<u8>]) -> Result<ListVec<ListVec<u8>>, AllocError>
    ensures { IfOk result (λ copies. copies ≡ names.now) }
{
    let mut copies = ListVec::new(alloc);
    for name in names {
        copies.push(ListVec::from_vec(name.as_slice().to_vec(alloc)?))?;
    }
    Ok(copies)
}

/// Whether a derived event has one coefficient for each event, and they yield no more than the
/// most.
fn is_row(row: &[u64], events: usize) -> bool
    ensures { IsTrue result ↔ ((length row.now ≡ events) × (sum row.now ≤ 1000000)) }
{
    row.len() == events && total(row) <= MOST_COUNTS
}

/// Whether each derived event has a coefficient for each event, and none yields more than the most.
fn are_rows(derived: &[(ListVec<u8>, ListVec<u64>)], events: usize) -> bool
    ensures { IsTrue result ↔ All (λ d. (length d.1 ≡ events) × (sum d.1 ≤ 1000000)) derived.now }
{
    derived
        .iter()
        .all(|(_, row)| is_row(row.as_slice(), events))
}

/// How often each event counts in the event of a name: once, and the others not at all.
fn own_row(alloc: Global, events: &[ListVec<u8>], name: &[u8]) -> Result<ListVec<u64>, AllocError>
    ensures { IfOk result (λ row. row ≡ coefficients events.now name.now []) }
{
    let mut row = ListVec::new(alloc);
    for event in events {
        row.push(u64::from(event.as_slice() == name))?;
    }
    Ok(row)
}

impl Flat {
    ghost use Rattle.cg_formulas.specs.Flats.{flat_value, row_of, Flattens, TellsKnown, AddsName, AddsTerms, CountsTerms, DefinesNew, IsFlat};

    /// The coefficients that are given, if no event stands twice and each derived event has one for
    /// each event, which yield 1,000,000 at most. Takes no memory.
    pub fn of(
        events: ListVec<ListVec<u8>>,
        derived: ListVec<(ListVec<u8>, ListVec<u64>)>,
    ) -> Option<Flat>
        ensures given { IfSome result (λ flat. (flat.events ≡ events) × (flat.derived ≡ derived)) }
        ensures which { IsTrue (is_some result) ↔ IsFlat events derived }
    {
        if are_distinct(events.as_slice()) && are_rows(derived.as_slice(), events.len()) {
            Some(Flat { events, derived })
        } else {
            None
        }
    }

    /// No event is derived yet.
    pub(crate) fn new(alloc: Global, events: &[ListVec<u8>]) -> Result<Flat, AllocError>
        requires { are_distinct events.now ≡ true }
        ensures events { IfOk result (λ flat. flat.events ≡ events.now) }
        ensures derived { IfOk result (λ flat. flat.derived ≡ []) }
    {
        Ok(Flat {
            events: copied(alloc, events)?,
            derived: ListVec::new(alloc),
        })
    }

    /// Where the event of a name is.
    fn event_at(&self, name: &[u8]) -> Option<usize>
        ensures { result ≡ position (bytes_eq name.now) self.now.events }
    {
        self.events
            .as_slice()
            .iter()
            .position(|event| event.as_slice() == name)
    }

    /// The coefficients of a derived event.
    fn coefficients(&self, name: &[u8]) -> Option<&[u64]>
        ensures { option_copied result ≡ lookup (bytes_eq name.now) self.now.derived }
    {
        let mut rest = self.derived.as_slice();
        while let Some(((derived, coefficients), more)) = rest.split_first() {
            if name == derived.as_slice() {
                return Some(coefficients.as_slice());
            }
            rest = more;
        }
        None
    }

    /// How often each event counts in an event or a derived event; `None` where the name is neither.
    pub fn row(&self, alloc: Global, name: &[u8]) -> Result<Option<ListVec<u64>>, AllocError>
        ensures { IfOk result (λ row. row ≡ row_of self.now name.now) }
    {
        if let Some(_at) = self.event_at(name) {
            return Ok(Some(own_row(alloc, self.events.as_slice(), name)?));
        }
        match self.coefficients(name) {
            Some(row) => Ok(Some(ListVec::from_vec(row.to_vec(alloc)?))),
            None => Ok(None),
        }
    }

    /// The value of an event or a derived event, where each event has a cost; `None` where the name
    /// is neither.
    pub fn value(&self, name: &[u8], costs: &[u64]) -> Option<u128>
        requires one_each { length costs.now ≡ length self.now.events }
        requires small { All (λ c. c < 2 ^ 63) costs.now }
        ensures { result ≡ flat_value self.now name.now costs.now }
    {
        if let Some(at) = self.event_at(name) {
            return Some(u128::from(costs[at]));
        }
        let coefficients = self.coefficients(name)?;
        Some(weighed(coefficients, costs))
    }

    /// Adds a number of times what a name counts, and answers whether the name is known.
    fn add_term(&self, row: &mut [u64], number: u64, name: &[u8]) -> bool
        requires { length row.old ≡ length self.now.events }
        ensures wide { length row.new ≡ length row.old }
        ensures known { (back : List specs.Definition) → Flattens self.now back → result ≡ is_known self.now.events back name.now }
        ensures counts { IsTrue result → AddsName self.now number name.now row.old row.new }
    {
        if let Some(at) = self.event_at(name) {
            row[at] = row[at].saturating_add(number);
            return true;
        }
        let Some(coefficients) = self.coefficients(name) else {
            return false;
        };
        add_times(row, number, coefficients);
        true
    }

    /// Adds what the terms of a formula count, and answers whether their names are known.
    fn add_terms(&self, row: &mut [u64], formula: &[u8]) -> bool
        requires { length row.old ≡ length self.now.events }
        ensures wide { length row.new ≡ length row.old }
        ensures known { TellsKnown self.now (terms_in formula.now) result }
        ensures counts { IsTrue result → AddsTerms self.now (terms_in formula.now) row.old row.new }
    {
        for (number, name) in terms(formula) {
            if !self.add_term(row, number, name) {
                return false;
            }
        }
        true
    }

    /// What the terms of a formula count, or nothing where a name is not known.
    fn counted(&self, alloc: Global, formula: &[u8]) -> Result<Option<Vec<u64>>, AllocError>
        ensures wide { IfOk result (λ r. IfSome r (λ row. length row.items ≡ length self.now.events)) }
        ensures known { IfOk result (λ r. TellsKnown self.now (terms_in formula.now) (is_some r)) }
        ensures counts { IfOk result (λ r. IfSome r (λ row. CountsTerms self.now (terms_in formula.now) row.items)) }
    {
        let mut row = vec![in alloc; 0; self.events.len()]?;
        if self.add_terms(&mut row, formula) {
            Ok(Some(row))
        } else {
            Ok(None)
        }
    }

    /// Adds the derived event of a definition whose name is new, or answers its fault.
    pub(crate) fn define(&mut self, alloc: Global, definition: &Definition) -> Result<(), FlatEnd>
        ensures events { self.new.events ≡ self.old.events }
        ensures defines { DefinesNew result self.old definition.now self.new }
    {
        let name = definition.name.as_slice();
        if self.event_at(name).is_some() {
            return Err(FlatEnd::Fault(Fault::EventTwice, definition.line));
        }
        if self.derived.len() >= MOST_NAMES {
            return Err(FlatEnd::Fault(Fault::TooManyEvents, definition.line));
        }
        let Some(row) = self.counted(alloc, definition.formula.text.as_slice())? else {
            return Err(FlatEnd::Fault(Fault::FormulaUnknown, definition.line));
        };
        if total(&row) > MOST_COUNTS {
            return Err(FlatEnd::Fault(Fault::FormulaTooLarge, definition.line));
        }
        let name = ListVec::from_vec(name.to_vec(alloc)?);
        self.derived.push((name, ListVec::from_vec(row)))?;
        Ok(())
    }
}
