// A file whose reads are given by hand.
ghost use Rattle.std.specs.Prelude.{◌≤◌, length, IfSome};

use warehouse::{ReadFault, Source};

/// Gives the bytes that are left, at most `most` at a time; each read after `sound` of them fails.
#[derive(Drop)]
pub(crate) struct Given {
    pub(crate) left: &'static [u8],
    pub(crate) most: usize,
    pub(crate) sound: u64,
}

impl Given {
    /// All that is left, in pieces of so many bytes. No guarantee: the tests see what it gives.
    pub(crate) fn sound(left: &'static [u8], most: usize) -> Given {
        Given {
            left,
            most,
            sound: u64::MAX,
        }
    }

    fn give(&mut self, buf: &mut [u8]) -> Option<usize>
        ensures { IfSome result (λ n. n ≤ length buf.new) }
    {
        self.sound = self.sound.checked_sub(1)?;
        let count = self.left.len().min(self.most).min(buf.len());
        let (front, rest) = self.left.split_at(count);
        buf[..count].copy_from_slice(front);
        self.left = rest;
        Some(count)
    }
}

impl Source for Given {
    ghost reads = { λ from outcome to. Unit {0} };

    fn read(&mut self, buf: &mut [u8]) -> Result<usize, ReadFault> {
        self.give(buf).ok_or(ReadFault)
    }
}
