// The total of a file: the sums of its self costs, by event.
ghost use Rattle.std.specs.Prelude.{◌≤◌, ℕ, IfOk, List, [], length};
ghost use Rattle.cg_text.specs.Errors.{error_text};
ghost use Rattle.cg_text.specs.declared.faults.ReadEnd.TheVariants as ends;
ghost use Rattle.file_reading.specs.Readers.{IsTotalOf, IsRefusal};

use crate::lines::{refused_line, total_lines};
use crate::sums::CostSums;
use byte_io::ByteSink;
use callgrind_reader::Reader;
use cg_text::{Fault, ListVec, ReadEnd};
use std::alloc::{AllocError, Global};

/// The total of a file as it is printed.
#[derive(Drop)]
pub struct TotalText {
    pub text: ListVec<u8>,
    /// Whether the file was read and has no fault.
    pub accepted: bool,
}

/// The one line of a file that is not accepted.
pub fn refused(alloc: Global, reason: &str) -> Result<TotalText, AllocError>
    ensures { IfOk result (IsRefusal reason.now) }
{
    let text = refused_line(alloc, reason)?;
    Ok(TotalText {
        text,
        accepted: false,
    })
}

/// The one line of a file with this fault at this line.
fn refused_fault(alloc: Global, fault: Fault, line: u64) -> Result<TotalText, AllocError>
    ensures { IfOk result (IsRefusal (error_text (ends.Fault fault line))) }
{
    let reason = ReadEnd::Fault(fault, line).to_string(alloc)?;
    refused(alloc, reason.as_str())
}

/// The total of a file that is read in pieces. It keeps of the file what its reader keeps, and a sum
/// for each event.
#[derive(Drop)]
pub struct Total {
    reader: Reader,
    sums: CostSums,
}

impl Total {
    ghost use Rattle.file_reading.specs.Running.{IsReady, SumsUp, HasTaken};

    /// Nothing was read.
    pub fn new(alloc: Global) -> Result<Total, AllocError>
        ensures { IfOk result (λ t. HasTaken t []) }
    {
        Ok(Total {
            reader: Reader::new(alloc)?,
            sums: CostSums::new(alloc),
        })
    }

    /// Ends the file.
    pub fn finish(self, alloc: Global) -> Result<TotalText, AllocError>
        requires { IsReady self }
        ensures { (text : List ℕ) → SumsUp self text → IfOk result (IsTotalOf text) }
    {
        let Total { reader, mut sums } = self;
        let head = match reader.finish(&mut sums) {
            Ok(head) => head,
            Err(ReadEnd::Memory) => return Err(AllocError),
            Err(ReadEnd::Fault(fault, line)) => return refused_fault(alloc, fault, line),
        };
        let text = total_lines(alloc, head.events.as_slice(), sums.as_slice())?;
        Ok(TotalText {
            text,
            accepted: true,
        })
    }
}

impl ByteSink for Total {
    ghost use Rattle.file_reading.specs.Running.{HasTaken};

    ghost Form = { Unit {0} };

    ghost has_taken = { λ t _ text. HasTaken t text };

    /// Takes the next piece. Once memory was refused, it is refused again.
    fn feed(&mut self, piece: &[u8]) -> Result<(), AllocError> {
        self.reader.feed(piece, &mut self.sums)?;
        Ok(())
    }
}

/// The total of a file with these bytes.
pub fn total_text(alloc: Global, bytes: &[u8]) -> Result<TotalText, AllocError>
    requires { length bytes.now ≤ 1073741824 }
    ensures { IfOk result (IsTotalOf bytes.now) }
{
    let mut total = Total::new(alloc)?;
    match total.feed(bytes) {
        Ok(()) => total.finish(alloc),
        Err(end) => {
            drop(total);
            Err(end)
        }
    }
}
