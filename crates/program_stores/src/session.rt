// Commands over an opened store, each with its answer printed as it is there.
ghost use Rattle.std.specs.Prelude.{◌≡◌, Ok, [], ◌∷◌};
ghost use Rattle.run_stores.specs.Calls.{IsFaithful};
ghost use Rattle.byte_io.specs.Imported.{WereRead};
ghost use Rattle.histories.specs.History.{Ask};
ghost use Rattle.histories.specs.declared.answers.Answer as given;
ghost use Rattle.requests.specs.Plain.{plain_request, plain_selection};
ghost use Rattle.requests.specs.declared.queries.Query.TheVariants.{Csv};
ghost use Rattle.warehouse.specs.Answered.{IsGivenFor};
ghost use Rattle.program_stores.specs.Sessions.{Prints, Wants, WasPerformed, WasTold, path_in, status_after};
ghost use Rattle.program_stores.specs.Works.{WerePrinted};
ghost use Rattle.std.specs.Result.{result_and};
ghost use Rattle.warehouse.specs.Taken.{CameTo};

use crate::remarks::{Remark, keep_remark};
use byte_io::{TextSink, write_text};
use command_line::WordsCommand;
use cost_exports::{CellSums, Unwritten, write_csv};
use file_reading::SeenFile;
use histories::{Answer, Limits, Refusal};
use requests::{Command, Query, Selection};
use run_stores::RunStore;
use std::alloc::AllocError;
use std::io;
use std::io::Write;
use std::rt::Files;
use warehouse::{Warehouse, is_refused, line_of};

/// The path of the file that a command reads; an empty one where it reads none.
fn path_of<'a>(command: &WordsCommand<'a>) -> &'a str
    ensures { result.now ≡ path_in (plain_request command.now) }
{
    match command {
        Command::Import { source, .. } | Command::Annotate { source, .. } => source,
        _ => "",
    }
}

/// A warehouse, where its answers are printed, and the status that those so far come to.
#[derive(Drop)]
struct Session<'a, R, W: Drop, S: RunStore> {
    rt: &'a R,
    out: W,
    warehouse: Warehouse<S>,
    status: u8,
}

/// Prints a text that is made a piece at a time.
impl<'a, R: Files + AllocGlobal, W: Write + Drop, S: RunStore> TextSink for Session<'a, R, W, S> {
    ghost use Rattle.std.specs.Prelude.{◌≡◌, ℕ, take};
    ghost use Rattle.std.specs.Io.KnownBytes.{Appends};

    ghost takes = { λ old piece new. Appends (W.contents old.out) (W.contents new.out) piece × (new.warehouse ≡ old.warehouse) × (new.status ≡ old.status) };

    ghost stops = { λ old piece new. ((n : ℕ) × Appends (W.contents old.out) (W.contents new.out) (take n piece))
        × (new.warehouse ≡ old.warehouse) × (new.status ≡ old.status) };

    fn take_piece(&mut self, piece: &[u8]) -> io::Result<()> {
        write_text(&mut self.out, piece)
    }
}

impl<'a, R: Files + AllocGlobal, W: Write + Drop, S: RunStore> Session<'a, R, W, S> {
    /// No command was run yet.
    fn new(rt: &'a R, out: W, warehouse: Warehouse<S>) -> Session<'a, R, W, S>
        ensures warehouse { result.warehouse ≡ warehouse }
        ensures status { result.status ≡ 0 }
        ensures out { result.out ≡ out }
    {
        Session {
            rt,
            out,
            warehouse,
            status: 0,
        }
    }

    /// The status of what was answered, or why that was not printed; where it was printed, and the store.
    fn finish(self, ended: io::Result<()>) -> (io::Result<u8>, W, S)
        ensures came_to { result.0 ≡ result_and ended (Ok self.entry.status) }
        ensures out { result.1 ≡ self.entry.out }
        ensures store { result.2 ≡ self.entry.warehouse.store }
    {
        let Session {
            rt: _,
            out,
            warehouse,
            status,
        } = self;
        (ended.and(Ok(status)), out, warehouse.into_store())
    }

    /// Prints an answer: a text from where it lies, since it may be long. Where there is no memory for a line,
    /// it says so, and the command stands.
    fn print(&mut self, answer: &Answer) -> io::Result<()>
        ensures status { self.new.status ≡ self.old.status }
        ensures warehouse { self.new.warehouse ≡ self.old.warehouse }
        ensures printed { Prints result (answer.now ∷ []) (W.contents self.old.out) (W.contents self.new.out) }
    {
        let alloc = self.rt.alloc();
        if let Answer::Text(text) = answer {
            return text.write(alloc, self);
        }
        match line_of(alloc, answer) {
            Ok(line) => write_text(&mut self.out, line.as_slice()),
            Err(AllocError) => write_text(&mut self.out, b"refused: out of memory\n"),
        }
    }

    /// Keeps what an answer says of the status, and prints it.
    fn tell(&mut self, answer: Answer) -> io::Result<()>
        ensures status { self.new.status ≡ status_after self.old.status (answer ∷ []) }
        ensures warehouse { self.new.warehouse ≡ self.old.warehouse }
        ensures printed { Prints result (answer ∷ []) (W.contents self.old.out) (W.contents self.new.out) }
    {
        if is_refused(&answer) {
            self.status = 1;
        }
        self.print(&answer)
    }

    /// Writes the text of sums as it is made. Where there is no memory from the start, it says so, and the
    /// session goes on.
    fn write_sums(&mut self, sums: &CellSums) -> io::Result<()>
        ensures warehouse { self.new.warehouse ≡ self.old.warehouse }
        ensures told { (answer : given.Answer) × IsGivenFor answer (Ok sums.now) × (self.new.status ≡ status_after self.old.status (answer ∷ []))
            × Prints result (answer ∷ []) (W.contents self.old.out) (W.contents self.new.out) }
    {
        let alloc = self.rt.alloc();
        match write_csv(alloc, sums, self) {
            Ok(()) => Ok(()),
            Err(Unwritten::Memory) => self.tell(Answer::Refused(Refusal::Memory)),
            Err(Unwritten::Failed(error)) => Err(error),
        }
    }

    /// Asks what places cost, and writes it as CSV.
    fn ask_csv(&mut self, selection: &Selection<&[u8]>) -> io::Result<()>
        ensures limits { self.new.warehouse.limits ≡ self.old.warehouse.limits }
        ensures answered { IsFaithful S.StoreState self.new.warehouse.store
            → WasTold S.StoreState W.contents (Ask (Csv (plain_selection selection.now))) result self.old self.new }
    {
        match self.warehouse.csv(self.rt.alloc(), selection) {
            Ok(sums) => self.write_sums(&sums),
            Err(answer) => self.tell(answer),
        }
    }

    /// Does a command, and prints its answer. What was found of its file is kept beside it.
    fn perform<'c>(
        &mut self,
        command: &WordsCommand<'c>,
        remarks: &mut Vec<Remark<'c>>,
    ) -> io::Result<()>
        ensures limits { self.new.warehouse.limits ≡ self.old.warehouse.limits }
        ensures answered { IsFaithful S.StoreState self.new.warehouse.store
            → WasPerformed S.StoreState W.contents (WereRead R.File.remaining) (plain_request command.now) result self.old self.new }
    {
        let alloc = self.rt.alloc();
        match command {
            Command::Ask(Query::Csv(selection)) => self.ask_csv(selection),
            Command::Ask(query) => {
                let answer = self.warehouse.ask(alloc, query);
                self.tell(answer)
            }
            Command::Import {
                kind,
                label,
                source: path,
            } => {
                let mut source = SeenFile::new(self.rt, *path);
                let answer = self.warehouse.import(alloc, *kind, *label, &mut source);
                keep_remark(remarks, *path, command, &answer, &source);
                self.tell(answer)
            }
            _ => {
                let path = path_of(command);
                let mut source = SeenFile::new(self.rt, path);
                let answer = self.warehouse.perform(alloc, command, &mut source);
                keep_remark(remarks, path, command, &answer, &source);
                self.tell(answer)
            }
        }
    }
}

/// Does commands over an opened store, one after another, each with its answer printed. It stops where printing fails. It hands
/// back the status that the answers come to, or why printing failed; where they were printed, and the store. What was found of
/// their files is kept beside them.
pub fn work_over<'a, R: Files + AllocGlobal, W: Write + Drop, S: RunStore>(
    rt: &R,
    out: W,
    store: S,
    commands: &[WordsCommand<'a>],
    remarks: &mut Vec<Remark<'a>>,
) -> (io::Result<u8>, W, S)
    ensures { IsFaithful S.StoreState result.2
        → CameTo S.StoreState (λ _ steps. WerePrinted W.contents (Wants R.File.remaining commands.now) result.0 out result.1 steps) store result.2 }
{
    let mut session = Session::new(rt, out, Warehouse::new(store, Limits::standard()));
    for command in commands {
        if let Err(error) = session.perform(command, remarks) {
            return session.finish(Err(error));
        }
    }
    session.finish(Ok(()))
}
