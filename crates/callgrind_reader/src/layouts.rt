// Which positions a cost line has.
ghost use Rattle.std.specs.Prelude.{◌≡◌};
ghost use Rattle.callgrind_reader.specs.Positions.{width, has_address, has_line};

/// The positions that a cost line begins with.
#[derive(Clone, Copy, Debug, PartialEq, Eq)]
pub enum Layout {
    /// A line number.
    Line,
    /// An address and a line number.
    InstrLine,
    /// An address.
    Instr,
}

impl Layout {
    /// How many positions a cost line begins with.
    pub fn width(self) -> usize
        ensures { result ≡ width self }
    {
        match self {
            Layout::Line | Layout::Instr => 1,
            Layout::InstrLine => 2,
        }
    }

    /// Whether an address is one of them.
    #[inline(always)]
    pub fn has_address(self) -> bool
        ensures { result ≡ has_address self }
    {
        matches!(self, Layout::InstrLine | Layout::Instr)
    }

    /// Whether a line number is one of them.
    #[inline(always)]
    pub fn has_line(self) -> bool
        ensures { result ≡ has_line self }
    {
        matches!(self, Layout::Line | Layout::InstrLine)
    }
}
