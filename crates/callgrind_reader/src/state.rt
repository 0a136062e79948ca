// What a reader knows of the lines so far.
ghost use Rattle.std.specs.Prelude.{◌≡◌, ℕ, ◌+◌, ◌<◌, ◌≤◌, ◌^◌, OnOk, OnErr, IfOk, IfSome, Option, Some, None, Ok, Err, List, [], ◌∷◌, fold, length, All};
ghost use Rattle.std.specs.Option.{ForSome};
ghost use Rattle.cg_text.specs.Readings.{Reading, reading_of};
ghost use Rattle.cg_text.specs.Kinds as kinds;
ghost use Rattle.cg_text.specs.Views.{plain_kind, kind_is};
ghost use Rattle.text_pieces.specs.LineIs.{IsLine};
ghost use Rattle.callgrind_reader.specs.Calls.{number_after, callee_of};
ghost use Rattle.profile_records.specs.Records.{Own, Called};
ghost use Rattle.callgrind_reader.specs.Lines.{record_of, record_with, cost_of};
ghost use Rattle.callgrind_reader.specs.Accept.{adds, breaks, broken};
ghost use Rattle.callgrind_reader.specs.Stated.{stated_lines};

use crate::header::Header;
use crate::names::Names;
use crate::places::Places;
use crate::rows::{call_count, cost_row};
use cg_formulas::FileHead;
use cg_text::{Fault, HeaderKey, LineKind, NameWord, ReadEnd, read_line};
use profile_records::{CallCost, SelfCost, Sink};
use std::alloc::{AllocError, Global};
use text_pieces::{Line, LineSink};

/// What a reader knows of the lines so far.
#[derive(Drop)]
pub struct State {
    pub(crate) lines: u64,
    pub(crate) header: Header,
    pub(crate) names: Names,
    pub(crate) places: Places,
    pub(crate) call: Option<(u64, u64)>,
    pub(crate) fault: Option<(Fault, u64)>,
    row: Vec<u64>,
    ghost counted: { ForSome call (λ c. c.1 < 2 ^ 63) },
    ghost few: { stated_lines header.stated ≤ lines },
}

/// Whether a line ends the wait for a cost line without being one.
fn breaks(reading: &Result<LineKind<'_>, Fault>) -> bool
    ensures { result ≡ breaks (kind_is reading.now) }
{
    match reading {
        Ok(LineKind::Nothing | LineKind::Cost { .. }) | Err(Fault::LineTooLong) => false,
        _ => true,
    }
}

/// What a line says.
#[tactic(auto, unfolding(cg_text::specs::Readings::reading_of))]
fn reading(line: Line<'_>) -> Result<LineKind<'_>, Fault>
    ensures { (text : List ℕ) → IsLine line.entry text → kind_is result ≡ reading_of text }
{
    match line {
        Line::Complete(bytes) => read_line(bytes),
        Line::TooLong => Err(Fault::LineTooLong),
    }
}

impl State {
    ghost use Rattle.callgrind_reader.specs.Representation.{NamesAre, Live, RepresentsAfter};
    ghost use Rattle.callgrind_reader.specs.Steps.{IsCounted, SameLine, Takes, Fits, FitsNow, FitsRow, Hands, ReadsLine, ReadsOn};
    ghost use Rattle.callgrind_reader.specs.Ends.{Comes};
    ghost use Rattle.callgrind_reader.specs.Marks.{MarksStay};

    /// No line was read.
    pub fn new(alloc: Global) -> Result<State, AllocError>
        ensures represents { IfOk result (λ s. RepresentsAfter s []) }
        ensures lines { IfOk result (λ s. s.lines ≡ 0) }
        ensures events { IfOk result (λ s. s.header.events.names ≡ None) }
    {
        let header = Header::new(alloc)?;
        let Ok(names) = Names::new(alloc) else {
            // What is dropped at each way out is slow to prove.
            drop(header);
            return Err(AllocError);
        };
        Ok(State {
            lines: 0,
            header,
            names,
            places: Places::new(),
            call: None,
            fault: None,
            row: Vec::new(alloc),
        })
    }

    /// Reads a header line that no fault comes before, and answers its fault.
    fn header_line(&mut self, key: HeaderKey, value: &[u8]) -> Result<Option<Fault>, AllocError>
        requires { IsCounted self.old }
        ensures takes { IfOk result (λ f. Takes self.old (Ok (kinds.Header key value.now)) f self.new) }
        ensures same { SameLine self.old self.new }
    {
        self.call = None;
        self.header.take(self.lines, key, value)
    }

    /// Reads a name line that no fault comes before, and answers its fault.
    fn name_line(&mut self, word: NameWord, value: &[u8]) -> Result<Option<Fault>, AllocError>
        ensures takes { IfOk result (λ f. Takes self.old (Ok (kinds.Name word value.now)) f self.new) }
        ensures same { SameLine self.old self.new }
        ensures header { self.new.header ≡ self.old.header }
    {
        self.call = None;
        self.names.take(word, value)
    }

    /// Reads a `calls=` line that no fault comes before, and answers its fault.
    fn calls_line(&mut self, value: &[u8]) -> Option<Fault>
        ensures takes { Takes self.old (Ok (kinds.Calls value.now)) result self.new }
        ensures same { SameLine self.old self.new }
    {
        match call_count(self.header.layout().width(), value) {
            Ok(count) => {
                self.header.settle();
                self.call = Some((self.lines, count));
                None
            }
            Err(fault) => Some(fault),
        }
    }

    /// Reads a jump that no fault comes before.
    fn jump_line(&mut self)
        ensures takes { Takes self.old (Ok kinds.Jump) None self.new }
        ensures same { SameLine self.old self.new }
        ensures header { self.new.header ≡ self.old.header }
    {
        self.call = None;
    }

    /// Hands on the record of a call's cost line, whose costs stand in the row.
    fn hand_call<S: Sink>(&self, line: u64, count: u64, sink: &mut S) -> Result<(), AllocError>
        requires fits { FitsRow S.Sink self.now sink.old }
        requires count { count < 2 ^ 63 }
        ensures { Hands S.Sink self.now (λ back. Called (callee_of count back) (cost_of line self.now.row.items back)) result sink.old sink.new }
    {
        sink.call(CallCost {
            at: self.lines,
            names: self.names.own(),
            line,
            thread: self.header.thread,
            called: self.names.called(),
            count,
            costs: &self.row,
        })
    }

    /// Hands on the record of a cost line that is no call's, whose costs stand in the row.
    fn hand_self<S: Sink>(&self, line: u64, sink: &mut S) -> Result<(), AllocError>
        requires { FitsRow S.Sink self.now sink.old }
        ensures { Hands S.Sink self.now (λ back. Own (cost_of line self.now.row.items back)) result sink.old sink.new }
    {
        sink.self_cost(SelfCost {
            at: self.lines,
            names: self.names.own(),
            line,
            thread: self.header.thread,
            costs: &self.row,
        })
    }

    /// Hands on the record of a cost line, whose costs stand in the row; the called names of a call
    /// are then forgotten.
    fn hand_record<S: Sink>(&mut self, line: u64, sink: &mut S) -> Result<(), AllocError>
        requires { FitsRow S.Sink self.old sink.old }
        ensures hands { Hands S.Sink self.old (λ back. record_with self.old.call (cost_of line self.old.row.items back) back) result sink.old sink.new }
        ensures names { OnOk result ((back : List Reading) (text : List ℕ) → Live self.old back → NamesAre self.new.names (Ok (kinds.Cost text) ∷ back)) }
        ensures marks { MarksStay self.old.names self.new.names }
        ensures same { SameLine self.old self.new }
        ensures header { self.new.header ≡ self.old.header }
        ensures places { self.new.places ≡ self.old.places }
    {
        match self.call {
            Some((_, count)) => {
                self.hand_call(line, count, sink)?;
                self.names.forget_called();
            }
            None => self.hand_self(line, sink)?,
        }
        Ok(())
    }

    /// Reads a cost line that no fault comes before, and answers its fault.
    fn cost_line<S: Sink>(&mut self, text: &[u8], sink: &mut S) -> Result<Option<Fault>, AllocError>
        requires { FitsNow S.Sink self.old sink.old }
        ensures { ReadsLine S.Sink self.old self.new (Ok (kinds.Cost text.now)) result sink.old sink.new }
    {
        let Some(events) = &self.header.events.names else {
            return Ok(Some(Fault::NoEvents));
        };
        let events = events.len();
        let layout = self.header.layout();
        let placed = match cost_row(&mut self.row, events, layout, self.places, text)? {
            Ok(placed) => placed,
            Err(fault) => return Ok(Some(fault)),
        };
        self.hand_record(placed.line, sink)?;
        self.places = placed.places;
        self.header.settle();
        self.call = None;
        Ok(None)
    }

    /// Reads a line of a kind that no fault comes before, and answers its fault.
    #[tactic(auto, using(crate::proofs::MarksLemmas::marks_rules))]
    fn apply<S: Sink>(
        &mut self,
        kind: LineKind<'_>,
        sink: &mut S,
    ) -> Result<Option<Fault>, AllocError>
        requires counted { IsCounted self.old }
        requires fits { FitsNow S.Sink self.old sink.old }
        ensures { ReadsLine S.Sink self.old self.new (Ok (plain_kind kind.entry)) result sink.old sink.new }
    {
        match kind {
            LineKind::Nothing => Ok(None),
            LineKind::Cost { text } => self.cost_line(text, sink),
            LineKind::Header { key, value } => self.header_line(key, value),
            LineKind::Name { word, value } => self.name_line(word, value),
            LineKind::Calls { value } => Ok(self.calls_line(value)),
            LineKind::Jump => {
                self.jump_line();
                Ok(None)
            }
        }
    }

    /// Reads a line that no fault comes before and that ends no wait, and answers its fault.
    fn take<S: Sink>(
        &mut self,
        reading: Result<LineKind<'_>, Fault>,
        sink: &mut S,
    ) -> Result<Option<Fault>, AllocError>
        requires counted { IsCounted self.old }
        requires fits { FitsNow S.Sink self.old sink.old }
        ensures { ReadsLine S.Sink self.old self.new (kind_is reading.entry) result sink.old sink.new }
    {
        match reading {
            Ok(kind) => self.apply(kind, sink),
            Err(fault) => Ok(Some(fault)),
        }
    }

    /// The `calls=` line that a line leaves without its cost line.
    fn broken_call(&self, reading: &Result<LineKind<'_>, Fault>) -> Option<u64>
        ensures { result ≡ broken self.now.call (breaks (kind_is reading.now)) }
    {
        match self.call {
            Some((at, _)) if breaks(reading) => Some(at),
            _ => None,
        }
    }

    /// Takes what a line says.
    #[tactic(auto, using(crate::proofs::SeenLemmas::seen_rules))]
    pub fn read<S: Sink>(
        &mut self,
        reading: Result<LineKind<'_>, Fault>,
        sink: &mut S,
    ) -> Result<(), AllocError>
        requires few { self.old.lines < 2 ^ 62 }
        requires fits { Fits S.Sink self.old sink.old }
        ensures { ReadsOn S.Sink self.old self.new (kind_is reading.entry) result sink.old sink.new }
    {
        self.lines += 1;
        if self.fault.is_some() {
            return Ok(());
        }
        if let Some(at) = self.broken_call(&reading) {
            self.fault = Some((Fault::CallWithoutCost, at));
            return Ok(());
        }
        if let Some(fault) = self.take(reading, sink)? {
            self.fault = Some((fault, self.lines));
        }
        Ok(())
    }

    /// What the file is read as if no more lines come: its head, or its first fault.
    pub fn head(self) -> Result<FileHead, ReadEnd>
        ensures comes { (back : List Reading) → RepresentsAfter self back → Comes result back }
        ensures few { IfOk result (λ head. length head.events ≤ 64) }
    {
        let State {
            header,
            names,
            call,
            fault,
            row,
            ..
        } = self;
        // What is dropped at each way out is slow to prove.
        drop(names);
        drop(row);
        if let Some((fault, line)) = fault {
            return Err(ReadEnd::Fault(fault, line));
        }
        if let Some((line, _)) = call {
            return Err(ReadEnd::Fault(Fault::CallWithoutCost, line));
        }
        header.into_head()
    }
}

impl<S: Sink> LineSink<S> for State {
    ghost use Rattle.profile_records.specs.Records.{Record};
    ghost use Rattle.callgrind_reader.specs.Representation.{RepresentsAfter};
    ghost use Rattle.callgrind_reader.specs.Steps.{Fits};

    ghost Reading = { Reading };

    ghost reading_of = { reading_of };

    ghost Record = { Record };

    ghost adds = { adds };

    ghost represents = { RepresentsAfter };

    ghost lines = { λ s. s.lines };

    ghost fits = { Fits S.Sink };

    ghost Meaning = { S.Meaning };

    ghost meaning = { S.meaning };

    ghost step = { S.step };

    fn take_line(&mut self, line: Line<'_>, sink: &mut S) -> Result<(), AllocError> {
        self.read(reading(line), sink)
    }
}
