// The records of a file, as a sink of one's own takes them.
ghost use Rattle.std.specs.Prelude.{◌≡◌, None};

use crate::files::RELATIVE;
use prof_library::{CallCost, Reader, SelfCost, Sink};
use std::alloc::{AllocError, Global};
use std::test::Fail;

/// A record, in numbers: its line, the source line, the first cost, and how many calls, none for a self record.
type Record = (u64, u64, u64, Option<u64>);

/// The records that came.
#[derive(Drop)]
struct Listed {
    records: Vec<Record>,
    last: u64,
    width: Option<u64>,
}

impl Listed {
    fn new(alloc: Global) -> Listed
        ensures last { result.last ≡ 0 }
        ensures width { result.width ≡ None }
    {
        Listed {
            records: Vec::new(alloc),
            last: 0,
            width: None,
        }
    }
}

/// What it means nobody has to know: the test looks at it.
impl Sink for Listed {
    ghost use Rattle.std.specs.Prelude.{None};

    ghost Meaning = { Unit {0} };

    ghost meaning = { λ _. tt };

    ghost step = { λ _ _. tt };

    ghost last = { λ s. s.last };

    ghost width = { λ s. s.width };

    ghost known = { λ _ _ _. None };

    fn self_cost(&mut self, r: SelfCost<'_>) -> Result<(), AllocError> {
        let cost = r.costs.first().copied().unwrap_or(0);
        self.records.push((r.at, r.line, cost, None))?;
        self.last = r.at;
        self.width = Some(r.costs.len() as u64);
        Ok(())
    }

    fn call(&mut self, r: CallCost<'_>) -> Result<(), AllocError> {
        let cost = r.costs.first().copied().unwrap_or(0);
        self.records.push((r.at, r.line, cost, Some(r.count)))?;
        self.last = r.at;
        self.width = Some(r.costs.len() as u64);
        Ok(())
    }
}

/// The records that the front of a file gives.
fn records_of(alloc: Global, front: &'static [u8]) -> Result<Vec<Record>, Fail> {
    let mut reader = Reader::new(alloc)?;
    let mut listed = Listed::new(alloc);
    let fits = front.len() as u64 <= reader.room();
    let fed = if fits {
        reader.feed(front, &mut listed)
    } else {
        Ok(())
    };
    // (a reader that is let go by a call is faster to prove)
    drop(reader);
    let records = listed.records;
    if !fits {
        Err("a large file")?;
    }
    fed?;
    Ok(records)
}

pub fn records_come_in_the_order_of_their_lines(alloc: Global) -> Result<(), Fail> {
    let records = records_of(alloc, RELATIVE)?;
    let wanted = [
        (4, 10, 5, None),
        (7, 12, 7, Some(2)),
        (8, 13, 1, None),
        (10, 13, 4, None),
    ];
    if records.as_slice() != wanted.as_slice() {
        Err("other records")?;
    }
    Ok(())
}

pub fn a_record_comes_with_its_line(alloc: Global) -> Result<(), Fail> {
    let records = records_of(alloc, b"events: Ir\nfl=a.c\nfn=f\n1 50\n")?;
    if records.as_slice() != [(4, 1, 50, None)].as_slice() {
        Err("other records than the first")?;
    }
    Ok(())
}
