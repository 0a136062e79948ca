// What is done over the store that is opened for it.
ghost use Rattle.std.specs.Prelude.{◌≡◌, ◌≤◌, ℕ, List, Option};
ghost use Rattle.std.specs.List.{list_all};
ghost use Rattle.program_stores.specs.Jobs as specs;
ghost use Rattle.requests.specs.Plain.{only_reads};

use command_line::WordsCommand;
use prof_http::Service;
use std::io;
use std::io::Write;

/// Where a command prints: one for each time that it is tried.
pub trait Outputs {
    type Out: Write + Drop;

    /// What stands in one that is new, where that is known.
    ghost fresh: { Option (List ℕ) };

    /// One more.
    fn next(&self) -> Self::Out
        ensures { Self.Out.contents result ≡ fresh };
}

/// Whether commands change nothing, whatever the store holds.
fn only_read(commands: &[WordsCommand<'_>]) -> bool
    ensures { result ≡ list_all only_reads commands.now }
{
    commands.iter().all(|command| command.only_reads())
}

/// What is done over the store at a path.
#[derive(Clone, Copy)]
pub(crate) enum Job<'c, 'a> {
    Run(&'c [WordsCommand<'a>]),
    Serve(Service),
}

impl Job<'_, '_> {
    /// How many cells of small runs are kept in memory for it, 4 MB by a server.
    pub(crate) fn cells_to_keep(&self) -> usize
        ensures value { result ≡ specs.cells_to_keep self.now }
        ensures few { result ≤ 65536 }
    {
        match self {
            Job::Run(_) => 0,
            Job::Serve(_) => 65_536,
        }
    }

    /// Whether it changes nothing, whatever the store holds.
    pub(crate) fn only_reads(&self) -> bool
        ensures { result ≡ specs.changes_nothing self.now }
    {
        match self {
            Job::Run(commands) => only_read(commands),
            Job::Serve(_) => false,
        }
    }
}

/// What a job came to.
#[derive(Drop)]
pub(crate) struct Done<S: Drop, W: Drop> {
    /// Its status, or why what it prints was not printed whole.
    pub(crate) came_to: io::Result<u8>,
    pub(crate) out: W,
    pub(crate) store: S,
}
