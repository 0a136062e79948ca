// The numbers of the names that sums tell.
ghost use Rattle.std.specs.Prelude.{◌≡◌, ◌++◌, IfOk, OnOk};
ghost use Rattle.selected_runs.specs.Sums.{numbers_told, told};

use crate::part_sums::PartSums;
use crate::parts::NumberPart;
use crate::sums::NumberSums;
use cost_rows::Key;
use std::alloc::{AllocError, Global};

/// Adds the numbers of the names that a key tells of a part.
pub(crate) fn push_told(
    numbers: &mut Vec<u32>,
    key: Key,
    part: &NumberPart,
) -> Result<(), AllocError>
    ensures { OnOk result (numbers.new.items ≡ numbers.old.items ++ told key part.now) }
{
    match key {
        Key::Object => numbers.push(part.object)?,
        Key::File => numbers.push(part.file)?,
        Key::Function => {
            numbers.push(part.object)?;
            numbers.push(part.function)?;
        }
        Key::Line => numbers.push(part.file)?,
        Key::Thread => {}
    }
    Ok(())
}

/// The numbers that sums tell.
fn numbers_of(alloc: Global, key: Key, sums: &PartSums) -> Result<Vec<u32>, AllocError>
    ensures { IfOk result (λ numbers. numbers.items ≡ numbers_told key sums.now) }
{
    let mut numbers = Vec::new(alloc);
    for (part, _) in sums.iter() {
        push_told(&mut numbers, key, part)?;
    }
    Ok(numbers)
}

impl NumberSums {
    /// The numbers of the names that the key tells, of each sum, one after another: a number may come more than
    /// once. Memory is the only refusal.
    pub fn numbers(&self, alloc: Global) -> Result<Vec<u32>, AllocError>
        ensures { IfOk result (λ numbers. numbers.items ≡ numbers_told self.now.key self.now.sums) }
    {
        numbers_of(alloc, self.key, &self.sums)
    }
}
