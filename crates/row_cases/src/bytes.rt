// A file in memory.
ghost use Rattle.std.specs.Prelude.{◌≤◌, length, IfSome};

use prof_library::{ReadFault, Source};

/// The bytes that are left of a file, which gives at most `most` of them at a time; each read after `sound` of them fails.
#[derive(Clone, Copy)]
pub(crate) struct Bytes {
    pub(crate) left: &'static [u8],
    pub(crate) most: usize,
    pub(crate) sound: u64,
}

impl Bytes {
    /// No guarantee: the tests see what it gives.
    fn give(&mut self, buf: &mut [u8]) -> Option<usize>
        ensures { IfSome result (λ n. n ≤ length buf.new) }
    {
        self.sound = self.sound.checked_sub(1)?;
        let count = self.left.len().min(self.most).min(buf.len());
        let (front, rest) = self.left.split_at(count);
        buf[..count].copy_from_slice(front);
        self.left = rest;
        Some(count)
    }
}

impl Source for Bytes {
    ghost reads = { λ from outcome to. Unit {0} };

    fn read(&mut self, buf: &mut [u8]) -> Result<usize, ReadFault> {
        self.give(buf).ok_or(ReadFault)
    }
}

/// A file that never ends.
#[derive(Drop)]
pub(crate) struct Endless;

impl Source for Endless {
    ghost reads = { λ from outcome to. Unit {0} };

    fn read(&mut self, buf: &mut [u8]) -> Result<usize, ReadFault> {
        Ok(buf.len())
    }
}
