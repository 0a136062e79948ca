// Imports, removals and groups, and what is refused.
use crate::bytes::Endless;
use crate::files::{ADDRESSES, CALLS, GREATEST, ONE, TOTALS};
use crate::steps::{Asked, Question, Step, Visit, print, print_within, visit_empty};
use prof_library::{Answer, Kind, Limits, Refusal, RunStore, Warehouse, status_of};
use std::alloc::Global;
use std::test::Fail;

const A_FILE_IS_HELD_ONCE: &[Step] = &[
    (Asked::Import(TOTALS), "run 1\n"),
    (Asked::Import(TOTALS), "held 1\n"),
    (Asked::ImportFolded(TOTALS), "held 1\n"),
    (Asked::Remove(1), "done\n"),
    (Asked::Import(TOTALS), "run 2\n"),
];

const SELF_COSTS_HAVE_ROOM_TOGETHER: &[Step] = &[
    (Asked::Import(GREATEST), "run 1\n"),
    (Asked::Import(ONE), "refused: overflow of self cost Ir\n"),
    (Asked::Remove(1), "done\n"),
    (Asked::Import(ONE), "run 2\n"),
    (
        Asked::Import(b"events: Ir\n1 9223372036854775808\n"),
        "refused: line 2: F4 number too large\n",
    ),
];

const COSTS_AND_COUNTS_OF_CALLS_HAVE_ROOM_TOGETHER: &[Step] = &[
    (
        Asked::Import(b"events: Ir\nfn=f\ncalls=1 1\n1 9223372036854775807\ncalls=1 1\n1 1\n"),
        "refused: overflow of call cost Ir\n",
    ),
    (
        Asked::Import(b"events: Ir\nfn=f\ncalls=9223372036854775807 1\n1\ncalls=1 1\n1\n"),
        "refused: overflow of call count\n",
    ),
];

const GROUPS_LOSE_A_RUN_THAT_IS_REMOVED: &[Step] = &[
    (Asked::Import(CALLS), "run 1\n"),
    (Asked::MakeGroup(b"g"), "done\n"),
    (Asked::MakeGroup(b"h"), "done\n"),
    (Asked::Join(b"g", 1), "done\n"),
    (Asked::Join(b"h", 1), "done\n"),
    (Asked::SetBaseline(b"g", 1), "done\n"),
    (Asked::Ask(Question::Groups), "g 1 1\nh - 1\n"),
    (Asked::Remove(1), "done\n"),
    (Asked::Ask(Question::Groups), "g - -\nh - -\n"),
    (
        Asked::Ask(Question::LessBaseline(b"g", b"Instructions")),
        "refused: no baseline\n",
    ),
    (Asked::MakeGroup(b""), "refused: bad name\n"),
];

const FILES_WITH_FAULTS: &[Step] = &[
    (
        Asked::Import(b"events: Ir\nfn=f\ncalls=1 50\n"),
        "refused: line 3: F15 call without cost\n",
    ),
    (
        Asked::Import(b"events: Ir\nfn=f\n-5 1\n"),
        "refused: line 3: F12 position range\n",
    ),
    (
        Asked::Import(b"events: Ir\nfn=(9)\n"),
        "refused: line 2: F13 unknown identifier\n",
    ),
    (
        Asked::Import(b"events: Ir\n1 2 3\n"),
        "refused: line 2: F11 too many costs\n",
    ),
];

const A_RUN_THAT_IS_NOT_HELD: &[Step] = &[(Asked::Remove(5), "refused: no such run\n")];

const TWO_RUNS_OF_THREE_NUMBERS: &[Step] = &[
    (Asked::Import(TOTALS), "run 1\n"),
    (Asked::Import(CALLS), "run 2\n"),
    (Asked::Import(ADDRESSES), "refused: full\n"),
    // What is held, a fault, and a sum that does not fit come before a lack of room.
    (Asked::Import(TOTALS), "held 1\n"),
    (
        Asked::Import(b"events: Ir\n1 2 3\n"),
        "refused: line 2: F11 too many costs\n",
    ),
    (
        Asked::Import(b"events: Bc\n1 9223372036854775807\n2 1\n"),
        "refused: overflow of self cost Bc\n",
    ),
    (Asked::Remove(1), "done\n"),
    (Asked::Import(ADDRESSES), "refused: run numbers spent\n"),
    (Asked::Import(CALLS), "held 2\n"),
];

const ONE_GROUP_AND_NO_MORE: &[Step] = &[
    (Asked::MakeGroup(b"g"), "done\n"),
    (Asked::MakeGroup(b"g"), "refused: group exists\n"),
    (Asked::MakeGroup(b"h"), "refused: full\n"),
    (Asked::DropGroup(b"h"), "refused: no such group\n"),
    (Asked::Join(b"h", 7), "refused: no such group\n"),
    (Asked::Join(b"g", 7), "refused: no such run\n"),
    (Asked::Import(TOTALS), "run 1\n"),
    (Asked::Leave(b"g", 1), "done\n"),
    (Asked::Join(b"g", 1), "done\n"),
    (Asked::Join(b"g", 1), "done\n"),
    (Asked::Ask(Question::Groups), "g - 1\n"),
    (Asked::DropGroup(b"g"), "done\n"),
    (Asked::MakeGroup(b"g"), "done\n"),
    (Asked::Ask(Question::Groups), "g - -\n"),
];

/// A file of 15 bytes.
const SMALL: &[u8] = b"events: Ir\n1 1\n";

/// Where a file has at most 15 bytes. Behind the last byte is one read more, which may fail.
const FIFTEEN_BYTES: &[Step] = &[
    (Asked::ImportFailing(SMALL, 15), "refused: read failed\n"),
    (Asked::ImportFailing(SMALL, 16), "run 1\n"),
    (Asked::ImportSlowly(SMALL), "held 1\n"),
    (Asked::Import(SMALL), "held 1\n"),
];

/// Where it has at most 14: the byte above them says so, if it is read.
const FOURTEEN_BYTES: &[Step] = &[
    (Asked::ImportSlowly(SMALL), "refused: too long\n"),
    (Asked::Import(SMALL), "refused: too long\n"),
    (Asked::ImportFailing(SMALL, 15), "refused: too long\n"),
    (Asked::ImportFailing(SMALL, 14), "refused: read failed\n"),
];

/// The rows of changes, each over an empty store.
const ROWS: [&[Step]; 6] = [
    A_FILE_IS_HELD_ONCE,
    SELF_COSTS_HAVE_ROOM_TOGETHER,
    COSTS_AND_COUNTS_OF_CALLS_HAVE_ROOM_TOGETHER,
    GROUPS_LOSE_A_RUN_THAT_IS_REMOVED,
    FILES_WITH_FAULTS,
    A_RUN_THAT_IS_NOT_HELD,
];

pub fn rows_of_changes(alloc: Global) -> Result<(), Fail> {
    for steps in ROWS {
        print(alloc, steps)?;
    }
    Ok(())
}

/// The limits of the program, but for the length of a file.
fn of_bytes(bytes: u16) -> Limits {
    let standard = Limits::standard();
    Limits {
        bytes: u64::from(bytes),
        runs: standard.runs,
        groups: standard.groups,
        numbers: standard.numbers,
    }
}

pub fn rows_under_small_limits(alloc: Global) -> Result<(), Fail> {
    let standard = Limits::standard();
    let two_runs = Limits {
        bytes: standard.bytes,
        runs: 2,
        groups: standard.groups,
        numbers: 3,
    };
    print_within(alloc, two_runs, TWO_RUNS_OF_THREE_NUMBERS)?;
    let one_group = Limits {
        bytes: standard.bytes,
        runs: standard.runs,
        groups: 1,
        numbers: standard.numbers,
    };
    print_within(alloc, one_group, ONE_GROUP_AND_NO_MORE)?;
    print_within(alloc, of_bytes(15), FIFTEEN_BYTES)?;
    print_within(alloc, of_bytes(14), FOURTEEN_BYTES)
}

pub fn statuses_of_answers() -> Result<(), Fail> {
    if status_of(&[Answer::Done]) != 0 {
        Err("another status of a command that was done")?;
    }
    if status_of(&[Answer::Done, Answer::Refused(Refusal::NoSuchRun)]) != 1 {
        Err("another status of a refusal")?;
    }
    Ok(())
}

/// A file that has no end is too long.
pub(crate) fn endless_over<S: RunStore + Drop>(alloc: Global, store: S) -> Result<(), Fail> {
    let mut warehouse = Warehouse::new(store, of_bytes(15));
    let answer = warehouse.import(alloc, Kind::Callgrind, b"a.out", &mut Endless);
    if !matches!(answer, Answer::Refused(Refusal::TooLong)) {
        Err("an endless file is not too long")?;
    }
    Ok(())
}

pub fn a_file_without_an_end(alloc: Global) -> Result<(), Fail> {
    visit_empty(alloc, Visit::Endless)
}
