// The names of parameters (specs/Parameters.antt).
ghost use Rattle.std.specs.Prelude.{◌≡◌, ◌<◌};
ghost use Rattle.http_exchange.specs.Parameters as spec;

/// The name of a parameter.
#[derive(Clone, Copy, Debug, PartialEq, Eq)]
pub(crate) enum Name {
    Label,
    Event,
    Function,
    Object,
    File,
    Run,
    Group,
    LessRun,
    LessGroup,
    Limit,
    Threshold,
}

impl Name {
    /// Its text, as it stands in a target.
    fn text(self) -> &'static str
        ensures { result.now ≡ spec.name_text self }
    {
        match self {
            Name::Label => "label",
            Name::Event => "event",
            Name::Function => "function",
            Name::Object => "object",
            Name::File => "file",
            Name::Run => "run",
            Name::Group => "group",
            Name::LessRun => "less_run",
            Name::LessGroup => "less_group",
            Name::Limit => "limit",
            Name::Threshold => "threshold",
        }
    }

    /// Its place among the names.
    pub(crate) fn index(self) -> usize
        ensures index { result ≡ spec.index_of self }
        ensures below { result < 11 }
    {
        match self {
            Name::Label => 0,
            Name::Event => 1,
            Name::Function => 2,
            Name::Object => 3,
            Name::File => 4,
            Name::Run => 5,
            Name::Group => 6,
            Name::LessRun => 7,
            Name::LessGroup => 8,
            Name::Limit => 9,
            Name::Threshold => 10,
        }
    }
}

/// The name of this text, among names.
pub(crate) fn name_in(names: &[Name], text: &[u8]) -> Option<Name>
    ensures { result ≡ spec.name_in names.now text.now }
{
    for name in names {
        if name.text().as_bytes() == text {
            return Some(*name);
        }
    }
    None
}
