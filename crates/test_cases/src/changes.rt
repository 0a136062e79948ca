// The changes of a store.
use crate::given::Given;
use byte_io::Unread;
use file_reading::{ParsedFile, parse_file};
use run_stores::{Kind, RunStore, StoreError, SummedFile, is_group_name};
use std::alloc::Global;

/// The manual's example of calls.
pub(crate) const CALLS: &[u8] =
    b"# callgrind format\nevents: Instructions\n\nfl=file1.c\nfn=main\n16 20\ncfn=func1\ncalls=1 50\n16 400\ncfi=file2.c\ncfn=func2\ncalls=3 20\n16 400\n\nfn=func1\n51 100\ncfi=file2.c\ncfn=func2\ncalls=2 20\n51 300\n\nfl=file2.c\nfn=func2\n20 700\n";

/// Stacks in which a frame calls itself.
const STACKS: &[u8] = b"a;b;a 3\na;b 2\n";

/// The group that is changed.
const GROUP: &str = "g";

/// How long a file may be.
const LONGEST: u64 = 4096;

/// What is done to a store.
#[derive(Clone, Copy)]
pub(crate) enum Change {
    Import(Kind, &'static [u8]),
    DropRun(u32),
    PutGroup,
    Join(u32),
    SetBaseline(u32),
    Leave(u32),
    DropGroup,
    /// The log is copied into the database file: no row changes.
    Checkpoint,
}

/// What the tests do, each over what the one before left.
pub(crate) const CHANGES: [Change; 12] = [
    Change::Import(Kind::Callgrind, CALLS),
    Change::Import(Kind::Folded, STACKS),
    Change::PutGroup,
    Change::Join(1),
    Change::Leave(1),
    Change::Join(1),
    Change::Join(2),
    Change::SetBaseline(1),
    Change::Checkpoint,
    Change::DropRun(1),
    Change::DropGroup,
    Change::Checkpoint,
];

/// Puts a file that was read as the next run.
fn put_file<S: RunStore>(
    store: &mut S,
    alloc: Global,
    kind: Kind,
    parsed: &ParsedFile,
) -> Result<(), StoreError> {
    let Ok((head, rows)) = &parsed.file else {
        return Err(StoreError::Store);
    };
    let file = SummedFile::of(alloc, head, rows)?;
    let number = store.next_run()?;
    store.put_run(alloc, number, kind, &parsed.digest, "a", &file)
}

/// Imports a text as the next run.
fn import<S: RunStore>(
    store: &mut S,
    alloc: Global,
    kind: Kind,
    text: &'static [u8],
) -> Result<(), StoreError> {
    let mut source = Given::sound(text, 4096);
    match parse_file(alloc, kind, LONGEST, &mut source) {
        Ok(parsed) => {
            let put = put_file(store, alloc, kind, &parsed);
            drop(parsed);
            put
        }
        Err(Unread::Memory) => Err(StoreError::Memory),
        Err(_) => Err(StoreError::Store),
    }
}

/// Makes the group.
fn put_group<S: RunStore>(store: &mut S) -> Result<(), StoreError> {
    if is_group_name(GROUP) {
        store.put_group(GROUP)
    } else {
        Err(StoreError::Store)
    }
}

/// Changes the rows of a store.
pub(crate) fn change_rows<S: RunStore>(
    store: &mut S,
    alloc: Global,
    change: Change,
) -> Result<(), StoreError> {
    match change {
        Change::Import(kind, text) => import(store, alloc, kind, text),
        Change::DropRun(run) => store.drop_run(run),
        Change::PutGroup => put_group(store),
        Change::Join(run) => store.join(GROUP, run),
        Change::SetBaseline(run) => store.set_baseline(GROUP, run),
        Change::Leave(run) => store.leave(GROUP, run),
        Change::DropGroup => store.drop_group(GROUP),
        Change::Checkpoint => Ok(()),
    }
}
