// Commands, one by one and in lists.
ghost use Rattle.std.specs.Prelude.{◌≡◌, [], IfOk, OnErr};
ghost use Rattle.run_stores.specs.Calls.{IsFaithful, Tells};
ghost use Rattle.histories.specs.Formats.{today};
ghost use Rattle.histories.specs.History.{Ask, Import};
ghost use Rattle.histories.specs.Requests.{command_read};
ghost use Rattle.histories.specs.declared.answers.Answer.{Answer};
ghost use Rattle.requests.specs.Plain.{plain_command, plain_query, plain_selection};
ghost use Rattle.requests.specs.declared.queries.Query.TheVariants.{Csv};
ghost use Rattle.histories.specs.Answered.{Answers};
ghost use Rattle.histories.specs.FromTables.{OrFailed};
ghost use Rattle.warehouse.specs.Answered.{IsGivenFor, IsShort, IsShortFor, ReadsNone, WasAnswered, WasAnsweredOver, WasRun};
ghost use Rattle.warehouse.specs.FromTables.{AnswersIn, IsFoundOf, IsFoundWithSource, IsFoundOver, WasImported};

use crate::answering::{annotate_in, answer, keep_short};
use crate::refusals::unread_answer;
use crate::warehouse::Warehouse;
use byte_io::Source;
use cost_exports::CellSums;
use file_reading::parse_file;
use histories::{Answer, Refusal, answer_of};
use profile_records::Kind;
use requests::{Command, Query, Selection};
use run_stores::RunStore;
use std::alloc::{AllocError, Global};
use std::collections::VecDeque;
use store_commands::{GroupChange, change_in, import_parsed, label_of, remove_in};
use store_reports::csv_sums;

impl<S: RunStore> Warehouse<S> {
    /// Imports the file that a source gives, a piece at a time. The source is read to its end even
    /// after a fault of the file, unless a read fails, memory is refused or the file is too long; under
    /// a label out of form it is not read.
    pub fn import<R: Source>(
        &mut self,
        alloc: Global,
        kind: Kind,
        label: &[u8],
        source: &mut R,
    ) -> Answer
        ensures limits { self.new.limits ≡ self.old.limits }
        ensures answered { WasAnsweredOver S.StoreState R.reads self.old.limits (Import (today kind) label.now) source.old source.new
            result self.old.store self.new.store }
        ensures found { WasImported S.StoreState R.reads self.old.limits kind label.now source.old source.new result self.old.store self.new.store }
    {
        let Some(label) = label_of(label) else {
            return Answer::Refused(Refusal::BadName);
        };
        match parse_file(alloc, kind, self.limits.bytes, source) {
            Ok(parsed) => {
                let store = &mut self.store;
                let imported = import_parsed(store, alloc, self.limits, kind, label, &parsed);
                // (faster to prove than at the end)
                drop(parsed);
                answer_of(imported)
            }
            Err(unread) => unread_answer(unread),
        }
    }

    /// Answers a question. A text that is longer than it may be is refused as one that there is no memory for.
    pub fn ask(&mut self, alloc: Global, query: &Query<&[u8]>) -> Answer
        ensures limits { self.new.limits ≡ self.old.limits }
        ensures short { IsShort self.old.most result }
        ensures answered { IsFaithful S.StoreState self.new.store
            → Answers S.StoreState self.old.limits (Ask (plain_query query.now)) result self.old.store self.new.store }
        ensures found { Tells S.StoreState self.old.store self.new.store (λ t. OrFailed (AnswersIn (plain_query query.now) t) result) }
    {
        let answered = answer(&mut self.store, alloc, self.most, query);
        answer_of(keep_short(answered, self.most))
    }

    /// Sums up what places cost over the runs of a selection, so that who asks can write their text as it is
    /// made: that text is the answer to the question, or where there is no memory for it the refusal of that.
    /// A question that is refused is answered as such.
    pub fn csv(&mut self, alloc: Global, selection: &Selection<&[u8]>) -> Result<CellSums, Answer>
        ensures limits { self.new.limits ≡ self.old.limits }
        ensures answered { (answer : Answer) → IsGivenFor answer result → IsFaithful S.StoreState self.new.store
            → Answers S.StoreState self.old.limits (Ask (Csv (plain_selection selection.now))) answer self.old.store self.new.store }
        ensures found { (answer : Answer) → IsGivenFor answer result
            → Tells S.StoreState self.old.store self.new.store (λ t. OrFailed (AnswersIn (Csv (plain_selection selection.now)) t) answer) }
    {
        match csv_sums(&mut self.store, alloc, selection) {
            Ok(Ok(sums)) => Ok(sums),
            Ok(Err(refusal)) => Err(Answer::Refused(refusal)),
            Err(failure) => Err(answer_of(Err(failure))),
        }
    }

    /// Does what a command says that reads no source, and answers it.
    fn act<P>(&mut self, alloc: Global, command: &Command<P, &[u8]>) -> Answer
        requires { ReadsNone command.now }
        ensures limits { self.new.limits ≡ self.old.limits }
        ensures short { IsShortFor self.old.most command.now result }
        ensures answered { IsFaithful S.StoreState self.new.store
            → Answers S.StoreState self.old.limits (command_read (plain_command command.now) []) result self.old.store self.new.store }
        ensures found { IsFoundOf S.StoreState self.old.limits (plain_command command.now) result self.old.store self.new.store }
    {
        let (store, limits) = (&mut self.store, self.limits);
        match command {
            Command::Remove(number) => remove_in(store, *number),
            Command::MakeGroup(name) => change_in(store, limits, name, GroupChange::Make),
            Command::DropGroup(name) => change_in(store, limits, name, GroupChange::Drop),
            Command::Join(name, number) => {
                change_in(store, limits, name, GroupChange::Join(*number))
            }
            Command::Leave(name, number) => {
                change_in(store, limits, name, GroupChange::Leave(*number))
            }
            Command::SetBaseline(name, number) => {
                change_in(store, limits, name, GroupChange::SetBaseline(*number))
            }
            Command::Ask(query) => self.ask(alloc, query),
            _ => unreachable!(),
        }
    }

    /// Does what a command says, and answers it. Where it imports a file or annotates a source, the bytes of that come
    /// from `source`, which is read a piece at a time and to its end, unless a read fails, memory is refused or it is
    /// longer than it may be; no other command reads it. A refused command changes nothing. Over tables that another
    /// program filled, and that represent no history, a question is answered by what their lines say, and an import, a
    /// removal or a change of a group makes of them what it says; or it is refused. A text that is longer than it may be
    /// is refused as one that there is no memory for.
    pub fn perform<P, R: Source>(
        &mut self,
        alloc: Global,
        command: &Command<P, &[u8]>,
        source: &mut R,
    ) -> Answer
        ensures limits { self.new.limits ≡ self.old.limits }
        ensures short { IsShortFor self.old.most command.now result }
        ensures unread { ReadsNone command.now → source.new ≡ source.old }
        ensures answered { WasAnsweredOver S.StoreState R.reads self.old.limits (command_read (plain_command command.now)) source.old source.new
            result self.old.store self.new.store }
        ensures found { IsFoundOver S.StoreState R.reads self.old.limits (plain_command command.now) source.old source.new
            result self.old.store self.new.store }
    {
        let store = &mut self.store;
        match command {
            Command::Import { kind, label, .. } => self.import(alloc, *kind, label, source),
            Command::Annotate {
                selection,
                event,
                file,
                ..
            } => annotate_in(store, alloc, self.most, selection, event, file, source),
            other => self.act(alloc, other),
        }
    }

    /// The same, where the source of a command comes with it.
    pub fn apply<R: Source + Drop>(&mut self, alloc: Global, command: Command<R, &[u8]>) -> Answer
        ensures limits { self.new.limits ≡ self.old.limits }
        ensures short { IsShortFor self.old.most command.entry result }
        ensures answered { WasAnswered S.StoreState R.reads self.old.limits command.entry result self.old.store self.new.store }
        ensures found { IsFoundWithSource S.StoreState R.reads self.old.limits command.entry result self.old.store self.new.store }
    {
        let store = &mut self.store;
        match command {
            Command::Import {
                kind,
                label,
                mut source,
            } => self.import(alloc, kind, label, &mut source),
            Command::Annotate {
                selection,
                event,
                file,
                mut source,
            } => annotate_in(
                store,
                alloc,
                self.most,
                &selection,
                event,
                file,
                &mut source,
            ),
            other => self.act(alloc, &other),
        }
    }

    /// Does what each command says, in turn, and answers each. The room for all answers is taken
    /// first: an error means that no command was run.
    pub fn run<R: Source + Drop>(
        &mut self,
        alloc: Global,
        commands: Vec<Command<R, &[u8]>>,
    ) -> Result<Vec<Answer>, AllocError>
        ensures limits { self.new.limits ≡ self.old.limits }
        ensures answered { IsFaithful S.StoreState self.new.store
            → IfOk result (λ answers. WasRun S.StoreState R.reads self.old.limits commands.entry.items answers.items self.old.store self.new.store) }
        ensures err { OnErr result (self.new ≡ self.old) }
    {
        let count = commands.len();
        let mut answers = Vec::with_capacity(alloc, count)?;
        let mut rest = VecDeque::from(commands);
        'commands: for _ in 0..count {
            let Some(command) = rest.pop_front() else {
                return Ok(answers);
            };
            let answer = self.apply(alloc, command);
            answers.push_reserved(answer);
        }
        Ok(answers)
    }
}
