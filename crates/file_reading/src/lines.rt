// The lines of a total.
ghost use Rattle.std.specs.Prelude.{◌≡◌, ◌++◌, OnOk, IfOk, slice_index};
ghost use Rattle.file_reading.specs.TotalLines.{total_line, total_lines, refused_line};

use byte_io::push_escaped;
use cg_text::ListVec;
use std::alloc::{AllocError, Global};

/// Adds the line of an event.
fn push_total_line(
    text: &mut Vec<u8>,
    alloc: Global,
    event: &[u8],
    sum: u128,
) -> Result<(), AllocError>
    ensures { OnOk result (text.new.items ≡ text.old.items ++ total_line event.now sum) }
{
    push_escaped(text, event)?;
    let ending = format!(in alloc; " {sum}\n")?;
    text.extend_from_slice(ending.as_bytes())?;
    Ok(())
}

/// The line of each event with its sum, which is 0 for an event past the last sum.
pub fn total_lines(
    alloc: Global,
    events: &[ListVec<u8>],
    sums: &[u128],
) -> Result<ListVec<u8>, AllocError>
    ensures { IfOk result (λ text. text ≡ total_lines (λ k. slice_index sums.now k) 0 events.now) }
{
    let mut text = Vec::new(alloc);
    for (k, event) in events.iter().enumerate() {
        let sum = sums.get(k).copied().unwrap_or(0);
        push_total_line(&mut text, alloc, event.as_slice(), sum)?;
    }
    Ok(ListVec::from_vec(text))
}

/// The one line of what is not accepted.
pub fn refused_line(alloc: Global, reason: &str) -> Result<ListVec<u8>, AllocError>
    ensures { IfOk result (λ text. text ≡ refused_line reason.now) }
{
    let line = format!(in alloc; "refused: {reason}\n")?;
    Ok(ListVec::from_vec(line.into_bytes()))
}
