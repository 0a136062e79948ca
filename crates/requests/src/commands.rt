// What a warehouse is told to do.
ghost use Rattle.std.specs.Prelude.{◌≡◌};
ghost use Rattle.requests.specs.Plain.{only_reads, plain_command};

use crate::queries::Query;
use crate::selections::Selection;
use cg_text::ListVec;
use profile_records::Kind;

/// A command. R is where the bytes of a file, or of a source that is annotated, come from: a source that is read, the
/// path of one, or nothing where they come beside the command.
#[derive(Drop)]
pub enum Command<R, N> {
    /// Import a file, under a label.
    Import {
        kind: Kind,
        label: N,
        source: R,
    },
    /// Drop the run of a number.
    Remove(u32),
    MakeGroup(N),
    DropGroup(N),
    /// The run is to be a member of the group.
    Join(N, u32),
    Leave(N, u32),
    /// The run is to be the baseline of the group.
    SetBaseline(N, u32),
    Ask(Query<N>),
    /// Show what each line of a source costs in an event, by the name of its file in the runs.
    Annotate {
        selection: Selection<N>,
        event: N,
        file: N,
        source: R,
    },
}

impl<R, N> Command<R, N> {
    /// Whether it changes nothing, whatever it finds.
    pub fn only_reads(&self) -> bool
        ensures { result ≡ only_reads self.now }
    {
        match self {
            Command::Ask(_) | Command::Annotate { .. } => true,
            Command::Import { .. }
            | Command::Remove(_)
            | Command::MakeGroup(_)
            | Command::DropGroup(_)
            | Command::Join(..)
            | Command::Leave(..)
            | Command::SetBaseline(..) => false,
        }
    }
}

impl Command<(), ListVec<u8>> {
    /// The same, with its names lent.
    pub fn lent(&self) -> Command<(), &[u8]>
        ensures { plain_command result ≡ self.now }
    {
        match self {
            Command::Import {
                kind,
                label,
                source: (),
            } => Command::Import {
                kind: *kind,
                label: label.as_slice(),
                source: (),
            },
            Command::Remove(number) => Command::Remove(*number),
            Command::MakeGroup(name) => Command::MakeGroup(name.as_slice()),
            Command::DropGroup(name) => Command::DropGroup(name.as_slice()),
            Command::Join(name, number) => Command::Join(name.as_slice(), *number),
            Command::Leave(name, number) => Command::Leave(name.as_slice(), *number),
            Command::SetBaseline(name, number) => Command::SetBaseline(name.as_slice(), *number),
            Command::Ask(query) => Command::Ask(query.lent()),
            Command::Annotate {
                selection,
                event,
                file,
                source: (),
            } => Command::Annotate {
                selection: selection.lent(),
                event: event.as_slice(),
                file: file.as_slice(),
                source: (),
            },
        }
    }
}
