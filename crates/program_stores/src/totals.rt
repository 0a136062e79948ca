// The total of a file is printed (specs/Works.antt).
ghost use Rattle.program_stores.specs.Works.{TotalPrinted};

use byte_io::write_text;
use file_reading::TotalText;
use std::alloc::AllocError;
use std::io;
use std::io::Write;

/// Prints what a total came to, and answers the status.
pub fn print_total<W: Write>(out: &mut W, total: Result<TotalText, AllocError>) -> io::Result<u8>
    ensures { TotalPrinted total result (W.contents out.old) (W.contents out.new) }
{
    match total {
        Ok(total) => {
            write_text(out, total.text.as_slice())?;
            Ok(u8::from(!total.accepted))
        }
        Err(AllocError) => {
            write_text(out, b"refused: out of memory\n")?;
            Ok(1)
        }
    }
}
