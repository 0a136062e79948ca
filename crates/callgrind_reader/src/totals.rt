// Sums of columns.
ghost use Rattle.std.specs.Prelude.{◌≡◌, ℕ, ◌+◌, ◌*◌, ◌<◌, ◌≤◌, ◌^◌, All, IfOk, Option, Some, None, nat_lt, if◌then◌else◌, length, slice_index, take, vec_len};
ghost use Rattle.callgrind_reader.specs.Costs.{AreAmounts};

use crate::events::MOST_EVENTS;
use cg_text::ListVec;
use std::alloc::{AllocError, Global};

/// Sums over the lines of a key, one for each column that can have an event.
#[derive(Drop)]
pub struct Sums {
    pub(crate) sums: Vec<u128>,
    pub(crate) lines: u64,
    ghost wide: { vec_len sums ≡ 64 },
    ghost small: { All (λ s. s ≤ lines * 2 ^ 63) sums.items },
}

impl Sums {
    /// No line is added yet.
    pub fn new(alloc: Global) -> Result<Sums, AllocError>
        ensures sums { IfOk result (λ s. (k : ℕ) → k < 64 → slice_index s.sums.items k ≡ 0) }
        ensures lines { IfOk result (λ s. s.lines ≡ 0) }
    {
        Ok(Sums {
            sums: vec![in alloc; 0; MOST_EVENTS]?,
            lines: 0,
        })
    }

    /// Adds the amounts of a line.
    pub fn add(&mut self, amounts: &[u64])
        requires small { AreAmounts amounts.now }
        requires few { self.old.lines < 2 ^ 63 }
        ensures sums { (k : ℕ) → k < 64 → slice_index self.new.sums.items k ≡ slice_index self.old.sums.items k + slice_index amounts.now k }
        ensures lines { self.new.lines ≡ self.old.lines + 1 }
    {
        self.lines += 1;
        for k in 0..MOST_EVENTS {
            if k < amounts.len() {
                self.sums[k] += u128::from(amounts[k]);
            }
        }
    }

    /// The sums of the first columns, if a line was added.
    pub fn first(&self, alloc: Global, count: usize) -> Result<Option<ListVec<u128>>, AllocError>
        requires { count ≤ 64 }
        ensures { IfOk result (λ sums. sums ≡ (if nat_lt 0 self.now.lines then Some (take count self.now.sums.items) else None)) }
    {
        if self.lines == 0 {
            return Ok(None);
        }
        let sums = self.sums[..count].to_vec(alloc)?;
        Ok(Some(ListVec::from_vec(sums)))
    }
}
