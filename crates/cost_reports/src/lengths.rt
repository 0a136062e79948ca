// How long a text may be.
ghost use Rattle.std.specs.Prelude.{◌≡◌, ◌≤◌, OnOk, IfOk, length};

use cg_text::ListVec;
use std::alloc::AllocError;

/// Refuses a text of more than `most` bytes, as one that there is no memory for.
pub fn check_length(bytes: usize, most: usize) -> Result<(), AllocError>
    ensures { OnOk result (bytes ≤ most) }
{
    if bytes > most {
        return Err(AllocError);
    }
    Ok(())
}

/// Hands on a text that is whole, unless it has more than `most` bytes.
pub fn whole_text(text: Vec<u8>, most: usize) -> Result<ListVec<u8>, AllocError>
    ensures text { IfOk result (λ whole. whole ≡ text.items) }
    ensures short { IfOk result (λ whole. length whole ≤ most) }
{
    check_length(text.len(), most)?;
    Ok(ListVec::from_vec(text))
}
