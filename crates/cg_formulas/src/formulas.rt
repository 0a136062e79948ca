// The formulas of `event:` lines, until the events are known.
ghost use Rattle.std.specs.Prelude.{◌≡◌, ◌<◌, ◌≤◌, List, [], true, false, not, length, OnOk, OnErr, IfSome, IfNone};
ghost use Rattle.cg_formulas.specs.Formulas as specs;
ghost use Rattle.cg_formulas.specs.Formulas.{define, is_defined, same_terms};
ghost use Rattle.cg_text.specs.Distinct.{are_distinct};
ghost use Rattle.cg_formulas.specs.EventViews.{plain_event, terms_in};
ghost use Rattle.cg_formulas.specs.Flats.{FlatIs};

use crate::definitions::Definition;
use crate::event_lines::{EventLine, Formula};
use crate::flats::{Flat, FlatEnd, MOST_NAMES};
use crate::terms::terms;
use cg_text::{Fault, ListVec};
use std::alloc::{AllocError, Global};
use std::mem;

/// The formulas of `event:` lines. What is kept does not grow with lines that say again what was said.
#[derive(Drop)]
pub struct Formulas {
    alloc: Global,
    /// The first definition of each name, up to the first name too many, by its shortest text.
    definitions: ListVec<Definition>,
    /// The first line that gives a name other terms than before.
    changed: Option<u64>,
    ghost few: { length definitions ≤ 65 },
}

/// Whether two formulas have the same terms in the same order.
fn same_terms(formula: &[u8], other: &[u8]) -> bool
    ensures { result ≡ same_terms (terms_in formula.now) (terms_in other.now) }
{
    let mut others = terms(other);
    for (number, name) in terms(formula) {
        let Some((other_number, other_name)) = others.next() else {
            return false;
        };
        if number != other_number || name != other_name {
            return false;
        }
    }
    others.next().is_none()
}

impl Formulas {
    ghost use Rattle.cg_formulas.specs.Held.{Holds, kept_of, terms_at, IsNearest, Redefines};

    /// No line was read.
    pub fn new(alloc: Global) -> Formulas
        ensures { Holds result [] }
    {
        Formulas {
            alloc,
            definitions: ListVec::new(alloc),
            changed: None,
        }
    }

    /// Where the nearest definition of a name is.
    #[tactic(auto, using(crate::proofs::HeldLemmas::kept_terms))]
    fn find(&self, name: &[u8]) -> Option<usize>
        ensures none { IfNone result (is_defined name.now (kept_of self.now) ≡ false) }
        ensures some { IfSome result (λ at. IsNearest self.now name.now at) }
    {
        let mut end = self.definitions.len();
        while end > 0 {
            end -= 1;
            if name == self.definitions.as_slice()[end].name.as_slice() {
                return Some(end);
            }
        }
        None
    }

    /// Keeps this formula in the place of another with the same terms.
    fn replace_formula(&mut self, at: usize, formula: Formula)
        requires { at < length self.old.definitions }
        ensures definitions { terms_at self.old at ≡ terms_in formula.text → kept_of self.new ≡ kept_of self.old }
        ensures changed { self.new.changed ≡ self.old.changed }
    {
        let none = ListVec::new(self.alloc);
        let mut definitions = mem::replace(&mut self.definitions, none).into_vec();
        definitions[at].formula = formula;
        self.definitions = ListVec::from_vec(definitions);
    }

    /// Takes a formula of a name that has one. Where its terms are the same, the shorter text is kept,
    /// so that no later line is compared with much more than it has.
    #[tactic(auto, using(crate::proofs::HeldLemmas::kept_terms))]
    fn redefine(&mut self, line: u64, at: usize, formula: Formula)
        requires { at < length self.old.definitions }
        ensures { Redefines self.old at line (terms_in formula.text) self.new }
    {
        let earlier = self.definitions.as_slice()[at].formula.text.as_slice();
        if !same_terms(earlier, formula.text.as_slice()) {
            self.changed = Some(line);
        } else if formula.text.len() < earlier.len() {
            self.replace_formula(at, formula);
        }
    }

    /// Takes an `event:` line; where memory is refused, nothing changes.
    pub fn add(&mut self, line: u64, event: EventLine) -> Result<(), AllocError>
        ensures ok { OnOk result ((back : List specs.Definition) → Holds self.old back → Holds self.new (define line (plain_event event) back)) }
        ensures err { OnErr result (self.new ≡ self.old) }
    {
        let EventLine { name, formula } = event;
        let Some(formula) = formula else {
            return Ok(());
        };
        if self.changed.is_some() || self.definitions.len() > MOST_NAMES {
            return Ok(());
        }
        match self.find(name.as_slice()) {
            Some(at) => self.redefine(line, at, formula),
            None => self.definitions.push(Definition {
                line,
                name,
                formula,
            })?,
        }
        Ok(())
    }

    /// The coefficients of the derived events over the events of a file, or the first fault of the
    /// formulas with its line.
    pub fn flatten(&self, events: &[ListVec<u8>]) -> Result<Flat, FlatEnd>
        requires { are_distinct events.now ≡ true }
        ensures { (back : List specs.Definition) → Holds self.now back → FlatIs result events.now back }
    {
        let mut flat = Flat::new(self.alloc, events)?;
        for definition in self.definitions.as_slice() {
            if let Err(end) = flat.define(self.alloc, definition) {
                // What is dropped at each way out is slow to prove.
                drop(flat);
                return Err(end);
            }
        }
        match self.changed {
            Some(line) => {
                drop(flat);
                Err(FlatEnd::Fault(Fault::EventTwice, line))
            }
            None => Ok(flat),
        }
    }
}
