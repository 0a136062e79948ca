// Commands, and what each of them prints.
use crate::bytes::Bytes;
use crate::changes::endless_over;
use crate::exchanges::exchanges_over;
use prof_library::{
    Command, Cut, Key, Kind, Limits, PageRuns, Query, RunStore, Selection, Store, Warehouse,
    line_of,
};
use sqlite::{Alter, Connection, FileStore, Options};
use sqlite_disk::{Disk, Files, Memory};
use std::alloc::Global;
use std::test::Fail;

/// What a row asks for: rows are constants, so that none of them costs a proof.
#[derive(Clone, Copy)]
pub(crate) enum Asked {
    /// The import of a Callgrind file.
    Import(&'static [u8]),
    /// That of an empty one, under a label of its own.
    ImportNothing,
    /// That of one which gives a byte at a time.
    ImportSlowly(&'static [u8]),
    /// That of one which gives a byte at a time, and of which each read after so many fails.
    ImportFailing(&'static [u8], u64),
    /// That of folded stacks.
    ImportFolded(&'static [u8]),
    Remove(u32),
    MakeGroup(&'static [u8]),
    DropGroup(&'static [u8]),
    Join(&'static [u8], u32),
    Leave(&'static [u8], u32),
    SetBaseline(&'static [u8], u32),
    /// The costs of an event beside the lines of a source, which is a file of the runs: event, file, source.
    Annotate(&'static [u8], &'static [u8], &'static [u8]),
    Ask(Question),
}

/// A question, of all runs where it names none.
#[derive(Clone, Copy)]
pub(crate) enum Question {
    Runs,
    Groups,
    Verify,
    Csv,
    Folded,
    By(Key, &'static [u8]),
    /// The same with a limit on its rows and a threshold.
    CutBy(Key, &'static [u8], u64, u8),
    Inclusive(&'static [u8]),
    /// The callers of a function of no known object: event, function.
    Callers(&'static [u8], &'static [u8]),
    /// Those that it calls.
    Callees(&'static [u8], &'static [u8]),
    /// A run less another, by function.
    Less(u32, u32, &'static [u8]),
    /// A group less its baseline, by function.
    LessBaseline(&'static [u8], &'static [u8]),
}

/// What is asked for, and what is printed.
pub(crate) type Step = (Asked, &'static str);

/// How many bytes a file gives at most at a time.
const PIECE: usize = 4096;

/// A file that is read to its end.
fn sound(left: &'static [u8], most: usize) -> Bytes {
    Bytes {
        left,
        most,
        sound: u64::MAX,
    }
}

fn import(kind: Kind, label: &'static [u8], source: Bytes) -> Command<Bytes, &'static [u8]> {
    Command::Import {
        kind,
        label,
        source,
    }
}

fn by(key: Key, event: &'static [u8], limit: Option<u64>, threshold: u8) -> Query<&'static [u8]> {
    Query::By {
        selection: Selection::All,
        key,
        event,
        cut: Cut { limit, threshold },
    }
}

fn less(
    first: Selection<&'static [u8]>,
    second: Option<Selection<&'static [u8]>>,
    event: &'static [u8],
) -> Query<&'static [u8]> {
    Query::Subtract {
        first,
        second,
        key: Key::Function,
        event,
    }
}

fn query_of(question: Question) -> Query<&'static [u8]> {
    let (selection, object) = (Selection::All, b"???".as_slice());
    match question {
        Question::Runs => Query::Runs,
        Question::Groups => Query::Groups,
        Question::Verify => Query::Verify(selection),
        Question::Csv => Query::Csv(selection),
        Question::Folded => Query::Folded(selection),
        Question::By(key, event) => by(key, event, None, 100),
        Question::CutBy(key, event, limit, threshold) => by(key, event, Some(limit), threshold),
        Question::Inclusive(event) => Query::Inclusive { selection, event },
        Question::Callers(event, function) => Query::Callers {
            selection,
            event,
            object,
            function,
        },
        Question::Callees(event, function) => Query::Callees {
            selection,
            event,
            object,
            function,
        },
        Question::Less(first, second, event) => {
            less(Selection::Run(first), Some(Selection::Run(second)), event)
        }
        Question::LessBaseline(group, event) => less(Selection::Group(group), None, event),
    }
}

fn command_of(asked: Asked) -> Command<Bytes, &'static [u8]> {
    match asked {
        Asked::Import(file) => import(Kind::Callgrind, b"a.out", sound(file, PIECE)),
        Asked::ImportNothing => import(Kind::Callgrind, b"empty.out", sound(b"", PIECE)),
        Asked::ImportSlowly(file) => import(Kind::Callgrind, b"a.out", sound(file, 1)),
        Asked::ImportFailing(left, sound) => {
            let source = Bytes {
                left,
                most: 1,
                sound,
            };
            import(Kind::Callgrind, b"a.out", source)
        }
        Asked::ImportFolded(file) => import(Kind::Folded, b"a.folded", sound(file, PIECE)),
        Asked::Remove(run) => Command::Remove(run),
        Asked::MakeGroup(name) => Command::MakeGroup(name),
        Asked::DropGroup(name) => Command::DropGroup(name),
        Asked::Join(name, run) => Command::Join(name, run),
        Asked::Leave(name, run) => Command::Leave(name, run),
        Asked::SetBaseline(name, run) => Command::SetBaseline(name, run),
        Asked::Annotate(event, file, left) => Command::Annotate {
            selection: Selection::All,
            event,
            file,
            source: sound(left, PIECE),
        },
        Asked::Ask(question) => Command::Ask(query_of(question)),
    }
}

/// Makes a store in an empty database. (It is written over any: what is called at the type of one in files takes long to
/// prove.)
fn make_in<S: Alter + Drop>(conn: Connection<S>) -> (bool, Connection<S>) {
    match Store::create(conn) {
        Ok(store) => (true, store.into_connection()),
        Err((_, conn)) => (false, conn),
    }
}

/// The database in files.
fn database_in<D: Disk + Drop>(
    alloc: Global,
    files: Files<D>,
) -> Result<Connection<FileStore<D>>, &'static str> {
    if !files.may_be_used() {
        return Err("no files");
    }
    match Connection::open_files(alloc, files, Options::new(7)) {
        Ok(conn) => Ok(conn),
        Err(_) => Err("no database"),
    }
}

/// The files of a database that is closed.
fn closed<D: Disk + Drop>(conn: Connection<FileStore<D>>) -> Result<Files<D>, &'static str> {
    match conn.close_files() {
        Ok(files) => Ok(files),
        Err((_, store)) => {
            drop(store.close());
            Err("the log is not copied")
        }
    }
}

/// Files with a store that is made in them.
fn made_in<D: Disk + Drop>(alloc: Global, files: Files<D>) -> Result<Files<D>, &'static str> {
    let (is_made, conn) = make_in(database_in(alloc, files)?);
    let files = closed(conn)?;
    if is_made { Ok(files) } else { Err("no store") }
}

/// The store in files, by its pages.
fn opened_in<D: Disk + Drop>(alloc: Global, files: Files<D>) -> Result<PageRuns<D>, &'static str> {
    if !files.may_be_used() {
        return Err("no files");
    }
    match PageRuns::open(alloc, files, Options::new(7), 0) {
        Ok(store) => Ok(store),
        Err(_) => Err("no store by its pages"),
    }
}

/// An empty store in memory.
fn empty_store(alloc: Global) -> Result<PageRuns<Memory>, &'static str> {
    let files = Files {
        log: Memory::new(alloc),
        db: Memory::new(alloc),
    };
    opened_in(alloc, made_in(alloc, files)?)
}

/// The file that a command reads, or none.
fn source_of(command: &Command<Bytes, &'static [u8]>) -> Bytes {
    match command {
        Command::Import { source, .. } | Command::Annotate { source, .. } => *source,
        _ => sound(b"", 1),
    }
}

/// Commands over a store, one after another: what one should have printed and did not is the failure.
fn print_over<S: RunStore + Drop>(
    alloc: Global,
    store: S,
    limits: Limits,
    steps: &[Step],
) -> Result<(), Fail> {
    let mut warehouse = Warehouse::new(store, limits);
    for (asked, wanted) in steps {
        let command = command_of(*asked);
        let mut source = source_of(&command);
        let answer = warehouse.perform(alloc, &command, &mut source);
        let line = line_of(alloc, &answer)?;
        if line.as_slice() != wanted.as_bytes() {
            Err(*wanted)?;
        }
    }
    Ok(())
}

/// What is done over an empty store.
#[derive(Drop)]
pub(crate) enum Visit<'s> {
    /// Commands under limits, and what each of them prints.
    Steps(Limits, &'s [Step]),
    /// The import of a file that has no end.
    Endless,
    /// Requests of a client.
    Exchanges,
}

/// Does it over a store.
fn visit_over<S: RunStore + Drop>(alloc: Global, store: S, visit: Visit<'_>) -> Result<(), Fail> {
    match visit {
        Visit::Steps(limits, steps) => print_over(alloc, store, limits, steps),
        Visit::Endless => endless_over(alloc, store),
        Visit::Exchanges => exchanges_over(alloc, store),
    }
}

/// The same over the store in files of any kind: the checker gives up where a store over files of one kind is handed on. (Each
/// such call takes it half a minute: so there is one.)
fn visit_in<D: Disk + Drop>(
    alloc: Global,
    store: PageRuns<D>,
    visit: Visit<'_>,
) -> Result<(), Fail> {
    visit_over(alloc, store, visit)
}

/// The same over an empty store in memory.
pub(crate) fn visit_empty(alloc: Global, visit: Visit<'_>) -> Result<(), Fail> {
    let store = empty_store(alloc)?;
    visit_in(alloc, store, visit)
}

/// Commands over an empty store, under the limits of the program.
pub(crate) fn print(alloc: Global, steps: &[Step]) -> Result<(), Fail> {
    print_within(alloc, Limits::standard(), steps)
}

/// Commands over an empty store, under these limits.
pub(crate) fn print_within(alloc: Global, limits: Limits, steps: &[Step]) -> Result<(), Fail> {
    visit_empty(alloc, Visit::Steps(limits, steps))
}
