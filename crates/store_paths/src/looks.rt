// What a file is by its name, and when it was written last.
ghost use Rattle.std.specs.Prelude.{◌≡◌, ◌↔◌, IsTrue};

use std::fs::Metadata;
use std::os::unix::fs::MetadataExt;
use std::rt::HostRuntime;
use std::time::{Duration, SystemTime, UNIX_EPOCH};
use std::{fs, io, thread};

const SECOND: u128 = 1_000_000_000;

const MILLISECOND: u128 = 1_000_000;

/// How long a tick of a file system's clock may be, twice: two writes within one leave the same times.
const TICK_IN_MILLIS: u64 = 20;

/// Which file it is, how long, and when its bytes and when its entry were changed last, in seconds and nanoseconds.
#[derive(Clone, Copy, Debug, PartialEq, Eq)]
pub struct Look {
    device: u64,
    inode: u64,
    length: u64,
    written: (i64, i64),
    changed: (i64, i64),
}

impl Look {
    /// No guarantee: of files and clocks the checker knows nothing, here and below.
    pub(crate) fn of(found: &Metadata) -> Look {
        Look {
            device: found.dev(),
            inode: found.ino(),
            length: found.len(),
            written: (found.mtime(), found.mtime_nsec()),
            changed: (found.ctime(), found.ctime_nsec()),
        }
    }

    /// Whether it is of the same file, whatever was written to that.
    pub(crate) fn is_same_file(&self, other: &Look) -> bool
        ensures { IsTrue result ↔ ((self.now.device ≡ other.now.device) × (self.now.inode ≡ other.now.inode)) }
    {
        self.device == other.device && self.inode == other.inode
    }

    /// Whether it was written so lately, by the clock, that another write may leave the same times.
    fn is_young(&self, rt: &HostRuntime) -> io::Result<bool> {
        let Ok(now) = SystemTime::now(rt)?.duration_since(UNIX_EPOCH) else {
            return Ok(false);
        };
        let (Ok(seconds), Ok(nanos)) = (
            u64::try_from(self.written.0),
            u64::try_from(self.written.1),
        ) else {
            return Ok(false);
        };
        let written = u128::from(seconds) * SECOND + u128::from(nanos);
        Ok(now.as_nanos().abs_diff(written) < u128::from(TICK_IN_MILLIS) * MILLISECOND)
    }
}

/// A look at what stands at a path, and whether it is one regular file that has no other name. No link is followed.
pub(crate) fn look_at(rt: &HostRuntime, path: &str) -> io::Result<(Look, bool)> {
    let found = fs::symlink_metadata(rt, path)?;
    Ok((Look::of(&found), found.is_file() && found.nlink() == 1))
}

/// A look that any later write changes, as `look_at`: where the file was written just now, it is taken once the clock
/// has gone on. None where it was written again meanwhile.
pub(crate) fn first_look(rt: &HostRuntime, path: &str) -> io::Result<Option<(Look, bool)>> {
    let (look, is_plain) = look_at(rt, path)?;
    if !look.is_young(rt)? {
        return Ok(Some((look, is_plain)));
    }
    thread::sleep(rt, Duration::from_millis(TICK_IN_MILLIS));
    let (later, is_plain) = look_at(rt, path)?;
    if later == look {
        Ok(Some((later, is_plain)))
    } else {
        Ok(None)
    }
}
