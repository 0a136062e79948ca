// A disk of which the one below is only read.
ghost use Rattle.std.specs.Prelude.{◌≡◌, ◌+◌, Some, None, refl, true};
ghost use Rattle.sqlite_disk.specs.Tally.{both_counts};
ghost use Rattle.store_paths.specs.HeldShown.{contents_of, damage_of};
ghost use Rattle.store_paths.specs.Untouched.{IsUntouched, first_of};

use crate::bytes::{copy_out, count, fault, overwrite, resize};
use sqlite_disk::{Disk, Start, Tally, digest_of};
use std::io;
use std::marker::PhantomData;

/// A log that is held in memory, or a database file that is only read. No call changes the disk below or
/// syncs it: at each moment that one shows what the file held first, as `S` says it.
#[derive(Drop)]
pub struct ReadOnly<D: Disk, S: Start> {
    below: D,
    /// The bytes of a log, which was read whole. Of a database file none are held.
    held: Option<Vec<u8>>,
    faults: u64,
    caught: u64,
    start: PhantomData<S>,
    ghost untouched: { IsUntouched D.Disk (first_of S.Start held) below },
}

impl<D: Disk, S: Start> ReadOnly<D, S> {
    ghost use Rattle.store_paths.specs.ReadOnly.{below_of, held_of, IsFresh};

    /// A log of which these bytes were read.
    pub(crate) fn over_log(below: D, bytes: Vec<u8>) -> ReadOnly<D, S>
        requires { IsUntouched D.Disk S.Start.log below }
        ensures below { below_of result ≡ below }
        ensures held { held_of result ≡ Some bytes }
        ensures fresh { IsFresh result }
    {
        ReadOnly {
            below,
            held: Some(bytes),
            faults: 0,
            caught: 0,
            start: PhantomData,
        }
    }

    /// A database file.
    pub(crate) fn over_file(below: D) -> ReadOnly<D, S>
        requires { IsUntouched D.Disk S.Start.db below }
        ensures below { below_of result ≡ below }
        ensures held { held_of result ≡ None }
        ensures fresh { IsFresh result }
    {
        ReadOnly {
            below,
            held: None,
            faults: 0,
            caught: 0,
            start: PhantomData,
        }
    }

    /// The disk below, which is as it was found.
    pub fn into_below(self) -> D
        ensures below { result ≡ below_of self }
        ensures untouched { IsUntouched D.Disk (first_of S.Start (held_of self)) result }
    {
        self.below
    }
}

impl<D: Disk, S: Start> Disk for ReadOnly<D, S> {
    ghost seen = { λ it. contents_of (D.Disk.seen it.below) it.held };

    // What is held has no crash of its kind. A crash loses it, and leaves the file below as `untouched` says.
    ghost may_leave = { λ it left. left ≡ contents_of (D.Disk.seen it.below) it.held };

    ghost is_usable = { λ _. true };

    ghost faults = { λ it. D.Disk.faults it.below + it.faults };

    ghost tally_of = { λ it. both_counts (D.Disk.tally_of it.below) (record { caught = it.caught; refused = 0 }) };

    ghost is_rotten = { λ it. damage_of (D.Disk.is_rotten it.below) it.held };

    ghost is_clean = { λ it. D.Disk.is_clean it.below };

    ghost key_of = { λ it. D.Disk.key_of it.below };

    ghost is_fair = { λ it. D.Disk.is_fair it.below };

    ghost fair_if_clean = { λ it. D.Disk.fair_if_clean it.below };

    ghost seen_may_stay = { λ it. refl };

    fn mixes(&self) -> bool {
        false
    }

    fn key(&self) -> u64 {
        self.below.key()
    }

    fn tally(&self) -> Tally {
        self.below.tally().plus(Tally {
            caught: self.caught,
            refused: 0,
        })
    }

    fn may_be_used(&self) -> bool {
        true
    }

    fn len(&mut self) -> io::Result<usize> {
        match &self.held {
            None => self.below.len(),
            Some(bytes) => Ok(bytes.len()),
        }
    }

    fn read_at(&mut self, at: usize, buf: &mut [u8]) -> io::Result<()> {
        match &self.held {
            None => self.below.read_at(at, buf),
            Some(bytes) if copy_out(bytes, at, buf) => Ok(()),
            // It is a fault, as the file may have more bytes than were read of it.
            Some(_) => Err(fault(&mut self.faults, io::ErrorKind::UnexpectedEof)),
        }
    }

    fn read_checked(&mut self, key: u64, want: u64, at: usize, buf: &mut [u8]) -> io::Result<()> {
        let Some(bytes) = &self.held else {
            return self.below.read_checked(key, want, at, buf);
        };
        if !copy_out(bytes, at, buf) {
            return Err(io::ErrorKind::UnexpectedEof.into());
        }
        if digest_of(key, buf) != want {
            self.caught = self.caught.saturating_add(1);
            return Err(fault(&mut self.faults, io::ErrorKind::InvalidData));
        }
        Ok(())
    }

    fn write_at(&mut self, at: usize, bytes: &[u8]) -> io::Result<()> {
        match &mut self.held {
            Some(held) => count(overwrite(held, at, bytes), &mut self.faults),
            None => Err(fault(&mut self.faults, io::ErrorKind::ReadOnlyFilesystem)),
        }
    }

    fn set_len(&mut self, len: usize) -> io::Result<()> {
        match &mut self.held {
            Some(held) => count(resize(held, len), &mut self.faults),
            None => Err(fault(&mut self.faults, io::ErrorKind::ReadOnlyFilesystem)),
        }
    }

    // Nothing was written that could be lost.
    fn sync(&mut self) -> io::Result<()> {
        Ok(())
    }
}
