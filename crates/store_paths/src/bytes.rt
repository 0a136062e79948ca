// The bytes of a file, held in memory.
ghost use Rattle.std.specs.Prelude.{◌≡◌, ◌+◌, ◌≤◌, ◌↔◌, length, false, is_ok, IsTrue, IfSome, OnOk};
ghost use Rattle.sqlite_disk.specs.Disk.{Holds, Torn, Cut, MoreFaults, CountsFault};
ghost use Rattle.sqlite_disk.specs.Refusal.{is_full_kind, is_no_room, finds_no_room};
ghost use Rattle.sqlite_wal.specs.Reads.{IsClean, OnlyReads};

use sqlite_disk::Disk;
use std::alloc::{AllocError, Global};
use std::io::{self, Error, ErrorKind};

/// Reads a file whole; none where it is longer than `most` bytes, cannot be read, or memory runs out.
pub(crate) fn read_whole<D: Disk>(alloc: Global, file: &mut D, most: usize) -> Option<Vec<u8>>
    requires { IsTrue (D.Disk.is_usable file.old) }
    ensures whole { IfSome result (λ bytes. IsClean D.Disk file.new → bytes.items ≡ D.Disk.seen file.old) }
    ensures most { IfSome result (λ bytes. length bytes.items ≤ most) }
    ensures faults { IfSome result (λ bytes. D.Disk.faults file.new ≡ D.Disk.faults file.old) }
    ensures tally { D.Disk.tally_of file.new ≡ D.Disk.tally_of file.old }
    ensures reads { OnlyReads D.Disk file.old file.new }
{
    let Ok(len) = file.len() else {
        return None;
    };
    if len > most {
        return None;
    }
    let mut bytes = Vec::new(alloc);
    if bytes.resize(len, 0).is_err() || file.read_at(0, &mut bytes).is_err() {
        return None;
    }
    Some(bytes)
}

/// Copies bytes out, where all of them are there.
pub(crate) fn copy_out(bytes: &[u8], at: usize, buf: &mut [u8]) -> bool
    ensures there { IsTrue result ↔ (at + length buf.old ≤ length bytes.now) }
    ensures copied { IsTrue result → Holds bytes.now at buf.new }
{
    if at > bytes.len() || buf.len() > bytes.len() - at {
        return false;
    }
    buf.copy_from_slice(&bytes[at..at + buf.len()]);
    true
}

pub(crate) fn resize(file: &mut Vec<u8>, len: usize) -> Result<(), AllocError>
    ensures len { OnOk result (length file.new.items ≡ len) }
    ensures others { Cut len file.old.items file.new.items }
{
    file.resize(len, 0)
}

pub(crate) fn overwrite(file: &mut Vec<u8>, at: usize, bytes: &[u8]) -> Result<(), AllocError>
    ensures written { OnOk result (Holds file.new.items at bytes.now) }
    ensures others { Torn at (length bytes.now) file.old.items file.new.items }
{
    let end = at.checked_add(bytes.len()).ok_or(AllocError)?;
    if end > file.len() {
        resize(file, end)?;
    }
    file[at..end].copy_from_slice(bytes);
    Ok(())
}

/// The error of a call that fails, which is counted.
pub(crate) fn fault(faults: &mut u64, kind: ErrorKind) -> Error
    requires { is_full_kind kind ≡ false }
    ensures kind { is_no_room result ≡ false }
    ensures faults { MoreFaults faults.old faults.new × (faults.old ≤ faults.new) }
{
    *faults = faults.saturating_add(1);
    Error::from(kind)
}

pub(crate) fn count(outcome: Result<(), AllocError>, faults: &mut u64) -> io::Result<()>
    ensures variant { is_ok result ≡ is_ok outcome }
    ensures kind { finds_no_room result ≡ false }
    ensures faults { CountsFault result faults.old faults.new }
{
    if outcome.is_err() {
        return Err(fault(faults, ErrorKind::OutOfMemory));
    }
    Ok(())
}
