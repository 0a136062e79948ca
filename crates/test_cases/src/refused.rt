// A list of commands of which one allocation is refused, by tests/by_hand/refuse_each: what meets it is refused as
// out of memory and changes nothing, the others are answered, and the next call is whole.
use crate::changes::CALLS;
use crate::given::Given;
use crate::holding::holds;
use crate::stores::new_pages;
use cost_rows::Key;
use page_runs::PageRuns;
use report_texts::Cut;
use run_stores::RunStore;
use sqlite_disk::Disk;
use std::alloc::{AllocError, Global};
use std::test::Fail;
use warehouse::{Answer, Command, Kind, Limits, Query, Refusal, Selection, Warehouse};

/// What the functions of the manual's example cost.
const COSTS: &[u8] =
    b"by function Instructions\n820 100.00% total\n700 85.36% ???:func2\n100 12.19% ???:func1\n20 2.43% ???:main\n0 0.00% (rest)\n";

/// It is imported, a group is made, the run joins it, and the groups and the costs are asked for.
fn commands<'a>(alloc: Global) -> Result<Vec<Command<Given, &'a [u8]>>, AllocError> {
    let import = Command::Import {
        kind: Kind::Callgrind,
        label: b"a".as_slice(),
        source: Given::sound(CALLS, 100),
    };
    let by_function = Query::By {
        selection: Selection::All,
        key: Key::Function,
        event: b"Instructions".as_slice(),
        cut: Cut {
            limit: None,
            threshold: 100,
        },
    };
    Ok(vec![in alloc;
        import,
        Command::MakeGroup(b"g".as_slice()),
        Command::Join(b"g".as_slice(), 1),
        Command::Ask(Query::Groups),
        Command::Ask(by_function),
    ]?)
}

/// A letter for a text: of the group with the run, without it, of no group, or of the costs.
fn letter_of_text(text: &[u8]) -> u8 {
    if text == b"g - 1\n".as_slice() {
        b'1'
    } else if text == b"g - -\n".as_slice() {
        b'-'
    } else if text.is_empty() {
        b'0'
    } else if text == COSTS {
        b'c'
    } else {
        b'?'
    }
}

/// A letter for an answer.
fn letter(answer: &Answer) -> u8 {
    match answer {
        Answer::Run(1) => b'r',
        Answer::Held(1) => b'h',
        Answer::Done => b'd',
        Answer::Text(text) => match text.as_slice() {
            Some(bytes) => letter_of_text(bytes),
            None => b'?',
        },
        Answer::Refused(Refusal::Memory) => b'm',
        Answer::Refused(Refusal::GroupTaken) => b't',
        Answer::Refused(Refusal::NoSuchRun) => b'n',
        Answer::Refused(Refusal::NoSuchGroup) => b'o',
        Answer::Refused(Refusal::NoSuchEvent) => b'e',
        _ => b'?',
    }
}

/// The letters of the answers to the list, or none where the list was refused.
fn ran<S: RunStore>(alloc: Global, house: &mut Warehouse<S>) -> Result<[u8; 5], AllocError> {
    let answers = house.run(alloc, commands(alloc)?)?;
    let mut letters = [b'?'; 5];
    for (place, answer) in letters.iter_mut().zip(answers.iter()) {
        *place = letter(answer);
    }
    Ok(letters)
}

/// What the list is answered when it is run again, by what it was answered first.
fn wanted(first: Result<[u8; 5], AllocError>) -> [u8; 5] {
    let Ok(first) = first else {
        return *b"rdd1c";
    };
    for (letters, again) in [
        (*b"rdd1c", *b"htd1c"),
        (*b"mdn-e", *b"rtd1c"),
        (*b"rmo0c", *b"hdd1c"),
        (*b"rdm-c", *b"htd1c"),
        (*b"rddmc", *b"htd1c"),
        (*b"rdd1m", *b"htd1c"),
    ] {
        if first == letters {
            return again;
        }
    }
    *b"-----"
}

/// Whether the list is answered a second time as it has to be, or a third time where memory was refused to the second.
fn is_answered_again<S: RunStore>(
    alloc: Global,
    house: &mut Warehouse<S>,
) -> Result<bool, AllocError> {
    let first = ran(alloc, house);
    let second = match ran(alloc, house) {
        Ok(letters) if !letters.contains(&b'm') => letters,
        _ => ran(alloc, house)?,
    };
    Ok(second == wanted(first))
}

/// The same over a store. (It is written over any: what is called at the type of one takes a third of a minute to prove at each
/// call.)
fn is_answered_over<S: RunStore + Drop>(alloc: Global, store: S) -> Result<bool, AllocError> {
    let mut house = Warehouse::new(store, Limits::standard());
    is_answered_again(alloc, &mut house)
}

/// The same over the store in files. (The checker gives up where a store over files of one kind is handed on.)
fn is_answered_in<D: Disk + Drop>(alloc: Global, store: PageRuns<D>) -> Result<bool, AllocError> {
    is_answered_over(alloc, store)
}

pub fn memory_refused_to_run(alloc: Global) -> Result<(), Fail> {
    let store = new_pages(alloc)?;
    let is_answered = is_answered_in(alloc, store);
    holds(is_answered?, "another answer behind a refusal")
}
