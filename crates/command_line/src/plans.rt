// What the program is told to do, and the commands that it says (specs/Commands.antt).
ghost use Rattle.std.specs.Prelude.{◌≡◌, Some, IfOk, [], ◌∷◌, map};
ghost use Rattle.requests.specs.Plain.{plain_query, plain_request};
ghost use Rattle.requests.specs.declared.commands.Command.TheVariants as asks;
ghost use Rattle.command_line.specs.Commands.{AsksForCalls, HasCommands, IsOneCommand, IsQuestion, commands_by, store_of};

use cg_text::ListVec;
use clap::error::ErrorKind;
use cost_rows::Key;
use profile_records::Kind;
use report_texts::Cut;
use requests::{Command, Query, Selection};
use std::alloc::{AllocError, Global};

/// What the program is told to do.
#[derive(Drop)]
pub enum Plan<'a> {
    /// Print the total of the file at a path.
    Total {
        path: &'a str,
    },
    /// Import files.
    Import {
        db: &'a str,
        kind: Kind,
        files: ListVec<&'a str>,
    },
    /// Remove runs.
    Remove {
        db: &'a str,
        numbers: ListVec<u32>,
    },
    /// List the runs.
    Runs {
        db: &'a str,
    },
    /// Make a group, or drop it.
    Group {
        db: &'a str,
        drop: bool,
        name: &'a str,
    },
    /// Add a run to a group.
    Join {
        db: &'a str,
        name: &'a str,
        number: u32,
    },
    /// Remove a run from a group.
    Leave {
        db: &'a str,
        name: &'a str,
        number: u32,
    },
    /// Make a run the baseline of a group.
    Baseline {
        db: &'a str,
        name: &'a str,
        number: u32,
    },
    /// List the groups.
    Groups {
        db: &'a str,
    },
    /// Report the costs of an event by a key: the fewest rows that come to `threshold` percent of the
    /// total, and of them at most `limit`, where one was given.
    By {
        db: &'a str,
        selection: Selection<&'a [u8]>,
        event: &'a str,
        limit: Option<u32>,
        threshold: u8,
        key: Key,
    },
    /// Report what functions cost with all that they call.
    Inclusive {
        db: &'a str,
        selection: Selection<&'a [u8]>,
        event: &'a str,
    },
    /// Report who calls a function of an object.
    Callers {
        db: &'a str,
        selection: Selection<&'a [u8]>,
        event: &'a str,
        object: &'a str,
        function: &'a str,
    },
    /// Report whom a function of an object calls.
    Callees {
        db: &'a str,
        selection: Selection<&'a [u8]>,
        event: &'a str,
        object: &'a str,
        function: &'a str,
    },
    /// Report by a key what the selected runs cost less what others do. Where no others are selected,
    /// they are the baseline of the selected group.
    Subtract {
        db: &'a str,
        selection: Selection<&'a [u8]>,
        less: Option<Selection<&'a [u8]>>,
        event: &'a str,
        key: Key,
    },
    /// Compare the sums of runs with the totals that their files state.
    Verify {
        db: &'a str,
        selection: Selection<&'a [u8]>,
    },
    /// Show the source at a path with the cost of each line, by the name of the file in the runs.
    Annotate {
        db: &'a str,
        selection: Selection<&'a [u8]>,
        event: &'a str,
        file: &'a str,
        source: &'a str,
    },
    /// Write the self costs of all events as CSV.
    Csv {
        db: &'a str,
        selection: Selection<&'a [u8]>,
    },
    /// Write the stacks of folded runs.
    Folded {
        db: &'a str,
        selection: Selection<&'a [u8]>,
    },
    /// Answer so many requests over HTTP at a port, each by at most so many bytes of text, and with a line on standard
    /// error where `log` is true. Port 0 means any that is free.
    Serve {
        db: &'a str,
        port: u16,
        requests: u32,
        most_bytes: u32,
        log: bool,
    },
}

/// Why there is no plan.
#[derive(Drop)]
pub enum PlanEnd {
    /// A growth was refused.
    Memory,
    /// Both a run and a group were selected.
    RunAndGroup,
    /// Both a run and a group were selected whose costs are taken off.
    LessRunAndLessGroup,
    /// Help was asked for, or the words are at fault.
    Clap(clap::Error),
}

impl From<AllocError> for PlanEnd {
    ghost use Rattle.std.specs.Prelude.{◌≡◌};
    ghost use Rattle.command_line.specs.declared.plans.PlanEnd.TheVariants as ends;

    ghost from_gives = { λ _ end. end ≡ ends.Memory };

    fn from(_error: AllocError) -> PlanEnd {
        PlanEnd::Memory
    }
}

impl From<clap::Error> for PlanEnd {
    ghost use Rattle.command_line.specs.Plans.{IsEndBy};

    ghost from_gives = { IsEndBy };

    fn from(error: clap::Error) -> PlanEnd {
        if error.kind() == ErrorKind::OutOfMemory {
            PlanEnd::Memory
        } else {
            PlanEnd::Clap(error)
        }
    }
}

/// A command, by the path of the file that it reads, and the words of a command line.
pub type WordsCommand<'a> = Command<&'a str, &'a [u8]>;

/// How much of a report is shown.
fn cut_of(limit: Option<u32>, threshold: u8) -> Cut
    ensures limit { result.limit ≡ limit }
    ensures threshold { result.threshold ≡ threshold }
{
    Cut {
        limit: limit.map(u64::from),
        threshold,
    }
}

/// The import of each file, under its path as its label.
fn imports<'a>(
    alloc: Global,
    kind: Kind,
    files: &[&'a str],
) -> Result<ListVec<WordsCommand<'a>>, AllocError>
    ensures { IfOk result (λ commands. map plain_request commands ≡ map (λ file. asks.Import kind file.now file.now) files.now) }
{
    let mut commands = ListVec::new(alloc);
    for file in files {
        commands.push(Command::Import {
            kind,
            label: file.as_bytes(),
            source: *file,
        })?;
    }
    Ok(commands)
}

/// The removal of each run.
fn removals<'a>(alloc: Global, numbers: &[u32]) -> Result<ListVec<WordsCommand<'a>>, AllocError>
    ensures { IfOk result (λ commands. map plain_request commands ≡ map asks.Remove numbers.now) }
{
    let mut commands = ListVec::new(alloc);
    for number in numbers {
        let removal: WordsCommand<'a> = Command::Remove(*number);
        commands.push(removal)?;
    }
    Ok(commands)
}

/// The same runs, of a name that is lent.
fn again<'a>(selection: &Selection<&'a [u8]>) -> Selection<&'a [u8]>
    ensures { result ≡ selection.now }
{
    match selection {
        Selection::All => Selection::All,
        Selection::Run(number) => Selection::Run(*number),
        Selection::Group(name) => Selection::Group(*name),
    }
}

/// The path of the store and the question of a plan that asks for calls.
fn calls_query<'a>(plan: &Plan<'a>) -> (&'a str, Query<&'a [u8]>)
    requires { AsksForCalls plan.now }
    ensures store { store_of plan.now ≡ Some result.0.now }
    ensures query { commands_by plan.now ≡ asks.Ask (plain_query result.1) ∷ [] }
{
    match plan {
        Plan::Callers {
            db,
            selection,
            event,
            object,
            function,
        } => {
            let query = Query::Callers {
                selection: again(selection),
                event: event.as_bytes(),
                object: object.as_bytes(),
                function: function.as_bytes(),
            };
            (*db, query)
        }
        Plan::Callees {
            db,
            selection,
            event,
            object,
            function,
        } => {
            let query = Query::Callees {
                selection: again(selection),
                event: event.as_bytes(),
                object: object.as_bytes(),
                function: function.as_bytes(),
            };
            (*db, query)
        }
        _ => unreachable!(),
    }
}

/// The path of the store and the question of a plan that asks one.
fn query_of<'a>(plan: &Plan<'a>) -> (&'a str, Query<&'a [u8]>)
    requires { IsQuestion plan.now }
    ensures store { store_of plan.now ≡ Some result.0.now }
    ensures query { commands_by plan.now ≡ asks.Ask (plain_query result.1) ∷ [] }
{
    match plan {
        Plan::Runs { db } => (*db, Query::Runs),
        Plan::Groups { db } => (*db, Query::Groups),
        Plan::By {
            db,
            selection,
            event,
            limit,
            threshold,
            key,
        } => {
            let event = event.as_bytes();
            let cut = cut_of(*limit, *threshold);
            let query = Query::By {
                selection: again(selection),
                key: *key,
                event,
                cut,
            };
            (*db, query)
        }
        Plan::Inclusive {
            db,
            selection,
            event,
        } => {
            let event = event.as_bytes();
            let selection = again(selection);
            (*db, Query::Inclusive { selection, event })
        }
        Plan::Subtract {
            db,
            selection,
            less,
            event,
            key,
        } => {
            let query = Query::Subtract {
                first: again(selection),
                second: less.as_ref().map(again),
                key: *key,
                event: event.as_bytes(),
            };
            (*db, query)
        }
        Plan::Verify { db, selection } => (*db, Query::Verify(again(selection))),
        Plan::Csv { db, selection } => (*db, Query::Csv(again(selection))),
        Plan::Folded { db, selection } => (*db, Query::Folded(again(selection))),
        calls => calls_query(calls),
    }
}

/// The path of the store and the command of a plan that says one.
fn command_of<'a>(plan: &Plan<'a>) -> (&'a str, WordsCommand<'a>)
    requires { IsOneCommand plan.now }
    ensures store { store_of plan.now ≡ Some result.0.now }
    ensures command { commands_by plan.now ≡ plain_request result.1 ∷ [] }
{
    match plan {
        Plan::Group {
            db,
            drop: false,
            name,
        } => (*db, Command::MakeGroup(name.as_bytes())),
        Plan::Group {
            db,
            drop: true,
            name,
        } => (*db, Command::DropGroup(name.as_bytes())),
        Plan::Join { db, name, number } => (*db, Command::Join(name.as_bytes(), *number)),
        Plan::Leave { db, name, number } => (*db, Command::Leave(name.as_bytes(), *number)),
        Plan::Baseline { db, name, number } => (
            *db,
            Command::SetBaseline(name.as_bytes(), *number),
        ),
        Plan::Annotate {
            db,
            selection,
            event,
            file,
            source,
        } => {
            let command = Command::Annotate {
                selection: again(selection),
                event: event.as_bytes(),
                file: file.as_bytes(),
                source: *source,
            };
            (*db, command)
        }
        question => {
            let (db, query) = query_of(question);
            (db, Command::Ask(query))
        }
    }
}

/// The path of the store and the commands of a plan that has such.
pub fn commands_of<'a>(
    alloc: Global,
    plan: &Plan<'a>,
) -> Result<(&'a str, ListVec<WordsCommand<'a>>), AllocError>
    requires { HasCommands plan.now }
    ensures store { IfOk result (λ found. store_of plan.now ≡ Some found.0.now) }
    ensures commands { IfOk result (λ found. map plain_request found.1 ≡ commands_by plan.now) }
{
    match plan {
        Plan::Import { db, kind, files } => Ok((*db, imports(alloc, *kind, files.as_slice())?)),
        Plan::Remove { db, numbers } => Ok((*db, removals(alloc, numbers.as_slice())?)),
        one => {
            let (db, command) = command_of(one);
            let mut commands = ListVec::new(alloc);
            commands.push(command)?;
            Ok((db, commands))
        }
    }
}
