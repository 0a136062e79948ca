// A file of one kind or of another.
ghost use Rattle.store_paths.specs.Either.{fair_by, left_by, shown_by, stays_by};

use sqlite_disk::{Disk, Tally};
use std::io;

/// A file of one kind or of another. What is asked of it is asked of what it holds.
#[derive(Drop)]
pub enum EitherDisk<A, B> {
    One(A),
    Other(B),
}

impl<A: Disk, B: Disk> Disk for EitherDisk<A, B> {
    ghost seen = { shown_by A.Disk.seen B.Disk.seen };

    ghost may_leave = { left_by A.Disk.may_leave B.Disk.may_leave };

    ghost is_usable = { shown_by A.Disk.is_usable B.Disk.is_usable };

    ghost faults = { shown_by A.Disk.faults B.Disk.faults };

    ghost tally_of = { shown_by A.Disk.tally_of B.Disk.tally_of };

    ghost is_clean = { shown_by A.Disk.is_clean B.Disk.is_clean };

    ghost key_of = { shown_by A.Disk.key_of B.Disk.key_of };

    ghost is_fair = { shown_by A.Disk.is_fair B.Disk.is_fair };

    ghost is_frozen = { shown_by A.Disk.is_frozen B.Disk.is_frozen };

    ghost is_rotten = { shown_by A.Disk.is_rotten B.Disk.is_rotten };

    ghost is_mixing = { shown_by A.Disk.is_mixing B.Disk.is_mixing };

    ghost seen_may_stay = { stays_by A.Disk.may_leave B.Disk.may_leave A.Disk.seen_may_stay B.Disk.seen_may_stay };

    ghost fair_if_clean = { fair_by A.Disk.fair_if_clean B.Disk.fair_if_clean };

    fn mixes(&self) -> bool {
        match self {
            EitherDisk::One(file) => file.mixes(),
            EitherDisk::Other(file) => file.mixes(),
        }
    }

    fn key(&self) -> u64 {
        match self {
            EitherDisk::One(file) => file.key(),
            EitherDisk::Other(file) => file.key(),
        }
    }

    fn tally(&self) -> Tally {
        match self {
            EitherDisk::One(file) => file.tally(),
            EitherDisk::Other(file) => file.tally(),
        }
    }

    fn may_be_used(&self) -> bool {
        match self {
            EitherDisk::One(file) => file.may_be_used(),
            EitherDisk::Other(file) => file.may_be_used(),
        }
    }

    fn len(&mut self) -> io::Result<usize> {
        match self {
            EitherDisk::One(file) => file.len(),
            EitherDisk::Other(file) => file.len(),
        }
    }

    fn read_at(&mut self, at: usize, buf: &mut [u8]) -> io::Result<()> {
        match self {
            EitherDisk::One(file) => file.read_at(at, buf),
            EitherDisk::Other(file) => file.read_at(at, buf),
        }
    }

    fn read_checked(&mut self, key: u64, want: u64, at: usize, buf: &mut [u8]) -> io::Result<()> {
        match self {
            EitherDisk::One(file) => file.read_checked(key, want, at, buf),
            EitherDisk::Other(file) => file.read_checked(key, want, at, buf),
        }
    }

    fn write_at(&mut self, at: usize, bytes: &[u8]) -> io::Result<()> {
        match self {
            EitherDisk::One(file) => file.write_at(at, bytes),
            EitherDisk::Other(file) => file.write_at(at, bytes),
        }
    }

    fn set_len(&mut self, len: usize) -> io::Result<()> {
        match self {
            EitherDisk::One(file) => file.set_len(len),
            EitherDisk::Other(file) => file.set_len(len),
        }
    }

    fn sync(&mut self) -> io::Result<()> {
        match self {
            EitherDisk::One(file) => file.sync(),
            EitherDisk::Other(file) => file.sync(),
        }
    }
}
