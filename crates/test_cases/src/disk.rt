// A file in memory of which only so many changes are made, alone or together with another.
ghost use Rattle.std.specs.Prelude.{◌≡◌, length, true, false, refl, is_ok, OnOk, OnErr, IfOk, IfSome, IsErr, ◌≤◌, ◌+◌, ◌<◌};
ghost use Rattle.sqlite_disk.specs.Disk.{Holds, Torn, Mixed, Cut, CountsFault};
ghost use Rattle.sqlite_disk.specs.Refusal.{finds_no_room};

use sqlite_disk::{Disk, Tally, digest_of};
use std::alloc::{AllocError, Global};
use std::cell::Cell;
use std::io;
use std::rc::Rc;

/// A file whose machine stops: from then on each call fails. One sync makes all that was written before it last,
/// as of the program's files.
#[derive(Drop)]
pub struct Stopping {
    pub(crate) written: Vec<u8>,
    /// What was synced last.
    pub(crate) synced: Vec<u8>,
    /// How many pieces of writes, cuts and syncs are still made, by all files that share it.
    changes: Rc<Cell<u64>>,
    usable: bool,
    faults: u64,
    caught: u64,
}

impl Stopping {
    /// A file with these bytes, all of them synced, and room for so many: while that is enough, no change takes memory.
    pub fn new(
        alloc: Global,
        bytes: &[u8],
        room: usize,
        changes: Rc<Cell<u64>>,
    ) -> Result<Stopping, AllocError>
        ensures written { IfOk result (λ file. file.written.items ≡ bytes.now) }
        ensures synced { IfOk result (λ file. file.synced.items ≡ bytes.now) }
    {
        Ok(Stopping {
            written: with_room(alloc, bytes, room)?,
            synced: with_room(alloc, bytes, room)?,
            changes,
            usable: true,
            faults: 0,
            caught: 0,
        })
    }

    /// What was written, and what of it was synced.
    pub fn into_bytes(self) -> (Vec<u8>, Vec<u8>)
        ensures { result ≡ (self.written, self.synced) }
    {
        let Stopping {
            written,
            synced,
            changes: _,
            usable: _,
            faults: _,
            caught: _,
        } = self;
        (written, synced)
    }
}

/// Bytes in a list with room for so many.
fn with_room(alloc: Global, bytes: &[u8], room: usize) -> Result<Vec<u8>, AllocError>
    ensures { IfOk result (λ list. list.items ≡ bytes.now) }
{
    let mut list = Vec::with_capacity(alloc, room)?;
    list.extend_from_slice(bytes)?;
    Ok(list)
}

/// Takes what a call needs of the changes that are left; where none is left, reads fail too.
fn spend(changes: &Cell<u64>, needed: u64, faults: &mut u64) -> io::Result<()>
    ensures faults { CountsFault result faults.old faults.new }
    ensures kind { finds_no_room result ≡ false }
{
    let left = changes.get();
    changes.set(left.saturating_sub(needed));
    if left == 0 {
        return stopped(faults);
    }
    Ok(())
}

/// How many bytes of a write are one change.
const PIECE: usize = 4096;

/// Takes what a write of so many bytes needs of the changes that are left, one for each piece. Where too few are left, the
/// machine stops in the middle of it: behind so many bytes.
fn stop_within(changes: &Cell<u64>, len: usize) -> Option<usize>
    ensures { IfSome result (λ count. count ≤ len) }
{
    let left = changes.get();
    let needed = len.div_ceil(PIECE).max(1) as u64;
    changes.set(left.saturating_sub(needed));
    if left < needed {
        Some((left as usize).saturating_mul(PIECE).min(len))
    } else {
        None
    }
}

/// The call fails, since the machine has stopped.
fn stopped(faults: &mut u64) -> io::Result<()>
    ensures err { IsErr result }
    ensures faults { CountsFault result faults.old faults.new }
    ensures kind { finds_no_room result ≡ false }
{
    *faults = faults.saturating_add(1);
    Err(io::Error::other("stopped"))
}

/// A want of memory is a fault of the file.
fn counted(outcome: Result<(), AllocError>, faults: &mut u64) -> io::Result<()>
    ensures variant { is_ok result ≡ is_ok outcome }
    ensures kind { finds_no_room result ≡ false }
    ensures faults { CountsFault result faults.old faults.new }
{
    if outcome.is_err() {
        *faults = faults.saturating_add(1);
        return Err(io::Error::from(io::ErrorKind::OutOfMemory));
    }
    Ok(())
}

fn read(file: &[u8], at: usize, buf: &mut [u8]) -> io::Result<()>
    ensures read { OnOk result (Holds file.now at buf.new) }
    ensures len { length buf.new ≡ length buf.old }
    ensures refused { OnErr result (length file.now < at + length buf.old) }
{
    if at > file.len() || buf.len() > file.len() - at {
        return Err(io::ErrorKind::UnexpectedEof.into());
    }
    buf.copy_from_slice(&file[at..at + buf.len()]);
    Ok(())
}

fn resize(file: &mut Vec<u8>, len: usize) -> Result<(), AllocError>
    ensures len { OnOk result (length file.new.items ≡ len) }
    ensures others { Cut len file.old.items file.new.items }
    ensures err { OnErr result (file.new.items ≡ file.old.items) }
{
    file.resize(len, 0)
}

fn overwrite(file: &mut Vec<u8>, at: usize, bytes: &[u8]) -> Result<(), AllocError>
    ensures written { OnOk result (Holds file.new.items at bytes.now) }
    ensures others { Torn at (length bytes.now) file.old.items file.new.items }
    ensures err { OnErr result (file.new.items ≡ file.old.items) }
{
    let end = at.checked_add(bytes.len()).ok_or(AllocError)?;
    if end > file.len() {
        resize(file, end)?;
    }
    file[at..end].copy_from_slice(bytes);
    Ok(())
}

/// Writes the first bytes of what was to be written.
fn overwrite_front(file: &mut Vec<u8>, at: usize, bytes: &[u8], count: usize)
    requires { count ≤ length bytes.now }
    ensures { Mixed at bytes.now file.old.items file.new.items }
{
    let _is_written = overwrite(file, at, &bytes[..count]);
}

fn replace(file: &mut Vec<u8>, bytes: &[u8]) -> Result<(), AllocError>
    ensures { OnOk result (file.new.items ≡ bytes.now) }
{
    resize(file, bytes.len())?;
    file.copy_from_slice(bytes);
    Ok(())
}

impl Disk for Stopping {
    ghost use Rattle.std.specs.Prelude.{List, ℕ};

    ghost seen = { λ f. f.written.items };

    ghost may_leave = { λ f c. c ≡ f.written.items };

    ghost is_usable = { λ f. f.usable };

    ghost faults = { λ f. f.faults };

    ghost is_clean = { λ _. true };

    ghost tally_of = { λ f. record { caught = f.caught; refused = 0 } };

    ghost key_of = { λ _. 0 };

    ghost is_fair = { λ _ _. true };

    ghost fair_if_clean = { λ _ _ _. refl };

    ghost seen_may_stay = { λ _. refl };

    ghost is_mixing = { λ _. true };

    fn mixes(&self) -> bool {
        true
    }

    fn key(&self) -> u64 {
        0
    }

    fn tally(&self) -> Tally {
        Tally {
            caught: self.caught,
            refused: 0,
        }
    }

    fn may_be_used(&self) -> bool {
        self.usable
    }

    fn len(&mut self) -> io::Result<usize> {
        spend(&self.changes, 0, &mut self.faults)?;
        Ok(self.written.len())
    }

    fn read_at(&mut self, at: usize, buf: &mut [u8]) -> io::Result<()> {
        spend(&self.changes, 0, &mut self.faults)?;
        read(&self.written, at, buf)
    }

    fn read_checked(&mut self, key: u64, want: u64, at: usize, buf: &mut [u8]) -> io::Result<()> {
        spend(&self.changes, 0, &mut self.faults)?;
        read(&self.written, at, buf)?;
        if digest_of(key, buf) != want {
            self.faults = self.faults.saturating_add(1);
            self.caught = self.caught.saturating_add(1);
            return Err(io::ErrorKind::InvalidData.into());
        }
        Ok(())
    }

    fn write_at(&mut self, at: usize, bytes: &[u8]) -> io::Result<()> {
        match stop_within(&self.changes, bytes.len()) {
            Some(count) => {
                overwrite_front(&mut self.written, at, bytes, count);
                stopped(&mut self.faults)
            }
            None => counted(overwrite(&mut self.written, at, bytes), &mut self.faults),
        }
    }

    fn set_len(&mut self, len: usize) -> io::Result<()> {
        spend(&self.changes, 1, &mut self.faults)?;
        counted(resize(&mut self.written, len), &mut self.faults)
    }

    fn sync(&mut self) -> io::Result<()> {
        self.usable = false;
        spend(&self.changes, 1, &mut self.faults)?;
        counted(replace(&mut self.synced, &self.written), &mut self.faults)?;
        self.usable = true;
        Ok(())
    }
}
