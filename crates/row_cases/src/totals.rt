// Totals of files.
use crate::files::{JUMPS, TOTALS};
use prof_library::total_text;
use std::alloc::Global;
use std::test::Fail;

/// Fails where the total of a file is printed otherwise.
fn prints(alloc: Global, file: &'static [u8], wanted: &'static str) -> Result<(), Fail> {
    if file.len() > 4096 {
        Err("a large file")?;
    }
    let total = total_text(alloc, file)?;
    if !total.accepted || total.text.as_slice() != wanted.as_bytes() {
        Err(wanted)?;
    }
    Ok(())
}

pub fn totals_of_files(alloc: Global) -> Result<(), Fail> {
    prints(alloc, TOTALS, "Cycles 110\nInstructions 26\nFlops 2\n")?;
    prints(alloc, b"", "")?;
    prints(alloc, JUMPS, "Ir 3\n")
}
