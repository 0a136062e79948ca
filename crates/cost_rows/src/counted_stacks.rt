// The rows of a folded file.
use crate::file_rows::FileRows;
use crate::records::merge_leaf;
use profile_records::{StackSink, leaf};
use std::alloc::AllocError;

impl StackSink for FileRows {
    ghost use Rattle.cost_rows.specs.Content.{Content, with_stack};
    ghost use Rattle.cost_rows.specs.Rows.{content_of};

    ghost Meaning = { Content };

    ghost meaning = { content_of };

    ghost step = { with_stack };

    ghost last = { λ r. r.last };

    fn stack(&mut self, at: u64, stack: &[u8], count: u64) -> Result<(), AllocError> {
        let function = leaf(stack);
        match self.stacks.find(stack)? {
            Some(slot) => {
                merge_leaf(
                    &mut self.names,
                    &mut self.guesses,
                    &mut self.cells,
                    function,
                    &[count],
                )?;
                self.stacks.add(slot, count);
            }
            None => {
                self.stacks.put(stack, count)?;
                if let Err(refused) = merge_leaf(
                    &mut self.names,
                    &mut self.guesses,
                    &mut self.cells,
                    function,
                    &[count],
                ) {
                    self.stacks.forget(stack);
                    return Err(refused);
                }
            }
        }
        self.last = at;
        Ok(())
    }
}
