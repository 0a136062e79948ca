// What header lines say of a file, and what cost lines settle of it.
ghost use Rattle.std.specs.Prelude.{◌≡◌, ℕ, ◌<◌, ◌≤◌, ◌^◌, List, [], IfOk, length};
ghost use Rattle.cg_text.specs.Readings.{Reading};
ghost use Rattle.callgrind_reader.specs.Positions.{or_line};
ghost use Rattle.callgrind_reader.specs.Totals.{header_key};
ghost use Rattle.cg_text.specs.declared.words.HeaderKey.TheVariants.{Event, Positions, Thread};
ghost use Rattle.callgrind_reader.specs.Files.{names_or_none, formulas_fault};

use crate::events::Events;
use crate::headers::{form_of, positions_fault, version_fault};
use crate::layouts::Layout;
use crate::rows::push_amounts;
use crate::stated::{Stated, StatedKey};
use cg_formulas::{FileHead, FlatEnd, Formulas, TextEnd, event_line};
use cg_text::{Fault, HeaderKey, ListVec, ReadEnd, amount, trim_start};
use std::alloc::{AllocError, Global};

/// What is known of a file's header.
#[derive(Drop)]
pub struct Header {
    pub(crate) events: Events,
    pub(crate) layout: Option<Layout>,
    pub(crate) formulas: Formulas,
    pub(crate) stated: Stated,
    pub(crate) thread: u64,
    amounts: Vec<u64>,
}

impl Header {
    ghost use Rattle.callgrind_reader.specs.Representation.{HeaderIs};
    ghost use Rattle.callgrind_reader.specs.Stated.{stated_lines};
    ghost use Rattle.callgrind_reader.specs.Headers.{HeaderKeeps, TakesHeader, StatesTotals, Settles};
    ghost use Rattle.callgrind_reader.specs.Ends.{ComesBy};

    /// No line was read.
    pub fn new(alloc: Global) -> Result<Header, AllocError>
        ensures header { IfOk result (λ h. HeaderIs h []) }
        ensures lines { IfOk result (λ h. stated_lines h.stated ≡ 0) }
    {
        Ok(Header {
            events: Events::new(alloc),
            layout: None,
            formulas: Formulas::new(alloc),
            stated: Stated::new(alloc)?,
            thread: 0,
            amounts: Vec::new(alloc),
        })
    }

    /// The positions of cost lines.
    pub fn layout(&self) -> Layout
        ensures { result ≡ or_line self.now.layout }
    {
        self.layout.unwrap_or(Layout::Line)
    }

    /// Settles the positions, at a cost line or `calls=` line.
    pub fn settle(&mut self)
        ensures { Settles self.old self.new }
    {
        self.layout = Some(self.layout());
    }

    /// Takes a `positions:` line, and answers its fault.
    fn positions_line(&mut self, value: &[u8]) -> Option<Fault>
        ensures takes { (line : ℕ) → TakesHeader line Positions value.now self.old result self.new }
        ensures keeps { HeaderKeeps self.old self.new }
    {
        let form = form_of(value);
        if let Some(fault) = positions_fault(form, self.layout) {
            return Some(fault);
        }
        if self.layout.is_none() {
            self.layout = form;
        }
        None
    }

    /// Takes a line that states totals, and answers its fault.
    fn stated_line(&mut self, key: StatedKey, value: &[u8]) -> Result<Option<Fault>, AllocError>
        requires { stated_lines self.old.stated < 2 ^ 63 }
        ensures takes { IfOk result (λ f. (line : ℕ) → TakesHeader line (header_key key) value.now self.old f self.new) }
        ensures keeps { HeaderKeeps self.old self.new }
    {
        self.amounts.clear();
        let fault = push_amounts(&mut self.amounts, value)?;
        if fault.is_none() {
            self.stated.add(key, &self.amounts);
        }
        Ok(fault)
    }

    /// Takes an `event:` line of this number, and answers its fault.
    fn formula_line(&mut self, line: u64, value: &[u8]) -> Result<Option<Fault>, AllocError>
        ensures takes { IfOk result (λ f. TakesHeader line Event value.now self.old f self.new) }
        ensures keeps { HeaderKeeps self.old self.new }
    {
        match event_line(self.events.alloc, value) {
            Ok(event) => {
                self.formulas.add(line, event)?;
                Ok(None)
            }
            Err(TextEnd::Fault(fault)) => Ok(Some(fault)),
            Err(TextEnd::Memory) => Err(AllocError),
        }
    }

    /// Takes a `thread:` line, and answers its fault.
    fn thread_line(&mut self, value: &[u8]) -> Option<Fault>
        ensures takes { (line : ℕ) → TakesHeader line Thread value.now self.old result self.new }
        ensures keeps { HeaderKeeps self.old self.new }
    {
        match amount(trim_start(value)) {
            Ok(thread) => {
                self.thread = thread;
                None
            }
            Err(fault) => Some(fault),
        }
    }

    /// Takes a header line of this number, and answers its fault.
    pub fn take(
        &mut self,
        line: u64,
        key: HeaderKey,
        value: &[u8],
    ) -> Result<Option<Fault>, AllocError>
        requires { stated_lines self.old.stated < 2 ^ 63 }
        ensures takes { IfOk result (λ f. TakesHeader line key value.now self.old f self.new) }
        ensures keeps { HeaderKeeps self.old self.new }
    {
        match key {
            HeaderKey::Version => Ok(version_fault(value)),
            HeaderKey::Positions => Ok(self.positions_line(value)),
            HeaderKey::Events => self.events.take(value),
            HeaderKey::Summary => self.stated_line(StatedKey::Summary, value),
            HeaderKey::Totals => self.stated_line(StatedKey::Totals, value),
            HeaderKey::Event => self.formula_line(line, value),
            HeaderKey::Thread => Ok(self.thread_line(value)),
            HeaderKey::Other => Ok(None),
        }
    }

    /// How many events there are.
    fn event_count(&self) -> usize
        ensures value { result ≡ length (names_or_none self.now.events.names) }
        ensures few { result ≤ 64 }
    {
        match &self.events.names {
            Some(names) => names.len(),
            None => 0,
        }
    }

    /// The totals that the lines so far state, one for each event.
    fn stated_totals(&self) -> Result<Option<ListVec<u128>>, AllocError>
        ensures { IfOk result (StatesTotals self.now) }
    {
        let count = self.event_count();
        if count == 0 {
            return Ok(None);
        }
        self.stated.first(self.events.alloc, count)
    }

    /// What the lines so far say of their file, or the first fault of their formulas.
    pub fn into_head(self) -> Result<FileHead, ReadEnd>
        ensures comes { (back : List Reading) → HeaderIs self back → ComesBy (formulas_fault back) result back }
        ensures few { IfOk result (λ head. length head.events ≤ 64) }
    {
        let stated = match self.stated_totals() {
            Ok(stated) => stated,
            Err(AllocError) => {
                drop(self);
                return Err(ReadEnd::Memory);
            }
        };
        let Header {
            events,
            layout: _,
            formulas,
            stated: _,
            thread: _,
            amounts: _,
        } = self;
        let events = events.into_names();
        match formulas.flatten(events.as_slice()) {
            Ok(derived) => Ok(FileHead {
                events,
                derived,
                stated,
            }),
            Err(end) => {
                drop((events, stated));
                Err(match end {
                    FlatEnd::Fault(fault, line) => ReadEnd::Fault(fault, line),
                    FlatEnd::Memory => ReadEnd::Memory,
                })
            }
        }
    }
}
