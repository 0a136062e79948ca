// What can be wrong with a profile file.
ghost use Rattle.std.specs.Prelude.{◌≡◌};
ghost use Rattle.cg_text.specs.Faults.{fault_text};

use std::alloc::AllocError;
use std::error::Error;
use std::fmt;

/// A fault of a profile file. Printed as its code and its text, as `F12 position range`.
#[derive(Clone, Copy, Debug, PartialEq, Eq)]
pub enum Fault {
    /// A line of more than `LINE_LIMIT` bytes.
    LineTooLong,
    /// A line of no kind that the format has.
    UnknownLine,
    /// A field that is no number where one has to stand.
    BadNumber,
    /// A number of 2^64 or more; a cost, a count or a stated total of 2^63 or more.
    NumberTooLarge,
    /// A `version:` that is neither 0 nor 1.
    Version,
    /// A cost line with no `events:` line before it, or an `events:` line without a name.
    NoEvents,
    /// A name twice in an `events:` line, or a derived event defined again by other terms.
    EventTwice,
    /// A second `events:` line with another list.
    EventsChanged,
    /// A `positions:` line of another form, or one that comes too late.
    PositionsForm,
    /// A cost line or `calls=` line with too few fields.
    ShortLine,
    /// A cost line with more costs than there are events.
    TooManyCosts,
    /// A position below zero or above its bound.
    PositionRange,
    /// A reference to an identifier that no earlier line defines.
    UnknownId,
    /// A second definition of an identifier with another name.
    IdRedefined,
    /// A `calls=` line that no cost line follows.
    CallWithoutCost,
    /// An `event:` line of another form.
    FormulaForm,
    /// A term that is neither an event nor a derived event defined before.
    FormulaUnknown,
    /// Coefficients that add up to more than 1,000,000.
    FormulaTooLarge,
    /// A line of a folded file that is no stack and count.
    FoldedLine,
    /// More than 64 events, or more than 64 derived events.
    TooManyEvents,
}

impl Fault {
    /// The code and the text.
    pub fn as_str(self) -> &'static str
        ensures { result.now ≡ fault_text self }
    {
        match self {
            Fault::LineTooLong => "F1 line too long",
            Fault::UnknownLine => "F2 unknown line",
            Fault::BadNumber => "F3 bad number",
            Fault::NumberTooLarge => "F4 number too large",
            Fault::Version => "F5 version",
            Fault::NoEvents => "F6 no events",
            Fault::EventTwice => "F7 event twice",
            Fault::EventsChanged => "F8 events changed",
            Fault::PositionsForm => "F9 positions form",
            Fault::ShortLine => "F10 short line",
            Fault::TooManyCosts => "F11 too many costs",
            Fault::PositionRange => "F12 position range",
            Fault::UnknownId => "F13 unknown identifier",
            Fault::IdRedefined => "F14 identifier redefined",
            Fault::CallWithoutCost => "F15 call without cost",
            Fault::FormulaForm => "F16 formula form",
            Fault::FormulaUnknown => "F17 formula unknown",
            Fault::FormulaTooLarge => "F18 formula too large",
            Fault::FoldedLine => "F19 folded line",
            Fault::TooManyEvents => "F20 too many events",
        }
    }
}

impl fmt::Display for Fault {
    ghost use Rattle.std.specs.Prelude.{Some};
    ghost use Rattle.cg_text.specs.Faults.{fault_text};

    ghost output = { λ fault. Some (fault_text fault) };

    fn fmt<W: fmt::Write>(&self, f: &mut fmt::Formatter<W>) -> fmt::Result {
        let text = self.as_str();
        write!(f, "{text}")
    }
}

impl Error for Fault {}

/// Why a reader gives no head: the file's first fault with its line, or out of memory. Printed as
/// `line 3: F12 position range` or `out of memory`.
#[derive(Clone, Copy, Debug, PartialEq, Eq)]
pub enum ReadEnd {
    Fault(Fault, u64),
    Memory,
}

impl fmt::Display for ReadEnd {
    ghost use Rattle.std.specs.Prelude.{Some};
    ghost use Rattle.cg_text.specs.Errors.{error_text};

    ghost output = { λ end. Some (error_text end) };

    fn fmt<W: fmt::Write>(&self, f: &mut fmt::Formatter<W>) -> fmt::Result {
        match self {
            ReadEnd::Fault(fault, line) => write!(f, "line {line}: {fault}"),
            ReadEnd::Memory => write!(f, "out of memory"),
        }
    }
}

impl Error for ReadEnd {}

impl From<AllocError> for ReadEnd {
    ghost use Rattle.std.specs.Prelude.{◌≡◌};
    ghost use Rattle.cg_text.specs.declared.faults.ReadEnd.TheVariants as ends;

    ghost from_gives = { λ _ end. end ≡ ends.Memory };

    fn from(_error: AllocError) -> ReadEnd {
        ReadEnd::Memory
    }
}
