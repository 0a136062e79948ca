// The text of stacks.
ghost use Rattle.std.specs.Prelude.{◌≡◌, ◌++◌, ◌≤◌, OnOk, IfOk, length};
ghost use Rattle.report_texts.specs.Folded.{folded_text, stack_line};

use crate::stack_sums::StackSums;
use cg_text::ListVec;
use cost_reports::{check_length, push_number, whole_text};
use std::alloc::{AllocError, Global};

/// Adds the line of a stack.
fn push_stack(text: &mut Vec<u8>, stack: &[u8], count: u128) -> Result<(), AllocError>
    ensures { OnOk result (text.new.items ≡ text.old.items ++ stack_line (stack.now, count)) }
{
    text.extend_from_slice(stack)?;
    text.push(b' ')?;
    push_number(text, count)?;
    text.push(b'\n')?;
    Ok(())
}

/// A line for each stack with its count, the bytes of stacks as they are. A text of more than `most` bytes is refused
/// as one that there is no memory for; there is no other refusal.
pub fn folded_text(alloc: Global, most: usize, sums: &StackSums) -> Result<ListVec<u8>, AllocError>
    ensures text { IfOk result (λ text. text ≡ folded_text sums.now) }
    ensures short { IfOk result (λ text. length text ≤ most) }
{
    let mut text = Vec::new(alloc);
    for (stack, count) in sums.iter() {
        push_stack(&mut text, stack, *count)?;
        check_length(text.len(), most)?;
    }
    whole_text(text, most)
}
