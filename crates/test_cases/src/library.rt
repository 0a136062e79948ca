// Public calls that a library's user has and the program does not make.
ghost use Rattle.callgrind_reader.specs.Reads.{IsSpent, Takes};

use crate::holding::holds;
use callgrind_reader::{Reader, Sink};
use cg_formulas::{FileHead, Flat};
use cg_text::{ListVec, fields};
use cost_reports::verify;
use cost_rows::{ArcRow, CellRow, FileRows};
use std::alloc::{AllocError, Global};
use std::test::Fail;

pub fn fields_stand_between_blanks() -> Result<(), Fail> {
    let mut found = fields(b" ab\t\tc  d ");
    for wanted in [b"ab".as_slice(), b"c", b"d"] {
        holds(found.next() == Some(wanted), "another field")?;
    }
    holds(found.next().is_none(), "one field more")?;
    Ok(())
}

/// A name at the end of a list.
fn push_name(
    alloc: Global,
    names: &mut ListVec<ListVec<u8>>,
    name: &[u8],
) -> Result<(), AllocError> {
    names.push(ListVec::from_vec(name.to_vec(alloc)?))
}

/// Two names of events.
fn two_events(
    alloc: Global,
    first: &[u8],
    second: &[u8],
) -> Result<ListVec<ListVec<u8>>, AllocError> {
    let mut events = ListVec::new(alloc);
    push_name(alloc, &mut events, first)?;
    push_name(alloc, &mut events, second)?;
    Ok(events)
}

/// The value of an event where `Ir` costs 3 and `L1m` costs 4, and `Est = Ir + 10 L1m`.
fn value(alloc: Global, name: &[u8]) -> Result<Option<u128>, AllocError> {
    let events = two_events(alloc, b"Ir", b"L1m")?;
    let mut derived = ListVec::new(alloc);
    let numbers = ListVec::from_vec(vec![in alloc; 1, 10]?);
    derived.push((ListVec::from_vec(b"Est".to_vec(alloc)?), numbers))?;
    let flat = Flat::of(events, derived).ok_or(AllocError)?;
    let costs = [3, 4];
    if flat.events.len() != costs.len() {
        return Err(AllocError);
    }
    Ok(flat.value(name, &costs))
}

pub fn derived_events_have_a_value(alloc: Global) -> Result<(), Fail> {
    holds(value(alloc, b"L1m")? == Some(4), "another cost of L1m")?;
    holds(value(alloc, b"Est")? == Some(43), "another value of Est")?;
    holds(value(alloc, b"Dr")? == None, "a value of no event")?;
    Ok(())
}

/// A cost line of 20 and 1, and three calls that cost 400 of the first event.
const CALLS: &[u8] = b"events: Ir Dr\nfl=a.c\nfn=main\n16 20 1\ncfn=g\ncalls=3 50\n17 400\n";

/// Whether a row is the cost of an event at line 16 of `main`.
fn is_cost(row: Option<CellRow<&[u8]>>, event: usize, cost: u128) -> bool {
    let Some(row) = row else {
        return false;
    };
    row.object == b"???".as_slice()
        && row.file == b"a.c".as_slice()
        && row.function == b"main".as_slice()
        && row.line == 16
        && row.event == event
        && row.cost == cost
}

/// Whether a row is the three calls from line 17 of `main` to `g`.
fn is_call(row: Option<ArcRow<&[u8], &[u128]>>) -> bool {
    let Some(row) = row else {
        return false;
    };
    row.function == b"main".as_slice()
        && row.line == 17
        && row.called_object == b"???".as_slice()
        && row.called_file == b"a.c".as_slice()
        && row.called_function == b"g".as_slice()
        && row.count == 3
        && row.costs == [400].as_slice()
}

/// Whether rows are the two costs and the calls of `CALLS`.
fn are_of_calls(rows: &FileRows) -> bool {
    let mut cells = rows.cells();
    let mut calls = rows.arcs();
    is_cost(cells.next(), 0, 20)
        && is_cost(cells.next(), 1, 1)
        && cells.next().is_none()
        && is_call(calls.next())
        && calls.next().is_none()
}

/// Reads a text into a sink. (The sink is lent: what is dropped at each way out is slow to prove.)
fn read_into<S: Sink>(reader: Reader, text: &'static [u8], sink: &mut S) -> Result<(), Fail>
    requires { (IsSpent reader → ⊥) → Takes reader (S.last sink.old) (S.width sink.old) (S.known sink.old) }
{
    let mut reader = reader;
    // (a reader that is let go by a call is faster to prove)
    if text.len() as u64 > reader.room() {
        drop(reader);
        return Err(Fail::from(AllocError));
    }
    if let Err(end) = reader.feed(text, sink) {
        drop(reader);
        return Err(Fail::from(end));
    }
    match reader.finish(sink) {
        Ok(_) => Ok(()),
        Err(_) => Err("a fault")?,
    }
}

fn rows_of(alloc: Global, text: &'static [u8]) -> Result<FileRows, Fail> {
    let reader = Reader::new(alloc)?;
    let mut rows = FileRows::new(alloc);
    read_into(reader, text, &mut rows)?;
    Ok(rows)
}

pub fn rows_of_a_file_have_their_names(alloc: Global) -> Result<(), Fail> {
    let rows = rows_of(alloc, CALLS)?;
    holds(are_of_calls(&rows), "other rows")
}

/// Whether a head is verified so where the sum of its first event is 9.
fn is_verified(alloc: Global, head: &FileHead, wanted: &[u8]) -> bool {
    let Ok(found) = verify(alloc, 3, head, &[9]) else {
        return false;
    };
    match found.text(alloc, 1000) {
        Ok(text) => text.as_slice() == wanted,
        Err(AllocError) => false,
    }
}

/// An event behind the last sum has none, and its name may have any byte.
pub fn sums_may_be_fewer_than_events(alloc: Global) -> Result<(), Fail> {
    let events = two_events(alloc, b"Ir", b"D\nr")?;
    let derived = Flat::of(ListVec::new(alloc), ListVec::new(alloc)).ok_or(AllocError)?;
    let head = FileHead {
        events,
        derived,
        stated: None,
    };
    let is_so = is_verified(alloc, &head, b"3 Ir 9 none none\n3 D\\x0ar 0 none none\n");
    holds(is_so, "another text")
}
