// Where an answer is printed, once it is known to be that of one commit.
ghost use Rattle.std.specs.Prelude.{◌≡◌};

use crate::opening::Standing;
use std::io;
use std::io::{ErrorKind, Write};
use std::rt::HostRuntime;

/// Where an answer is printed, if nobody has written the database file before its first byte: all has to be read by
/// then. No byte is printed of another answer.
#[derive(Drop)]
pub struct IfStands<'a, W: Drop> {
    out: W,
    rt: &'a HostRuntime,
    /// What the file was; none where nobody else may write it.
    standing: Option<Standing>,
    /// What was seen at the first byte.
    stood: Option<bool>,
}

impl<'a, W: Write + Drop> IfStands<'a, W> {
    /// Nothing is printed yet. With no `standing`, nobody else may write the file, and all is printed.
    pub fn new(out: W, rt: &'a HostRuntime, standing: Option<Standing>) -> IfStands<'a, W>
        ensures { result.out ≡ out }
    {
        IfStands {
            out,
            rt,
            standing,
            stood: None,
        }
    }

    /// Whether nobody had written the file, when the first byte was to be printed, or else up to now. That it is so no
    /// clause says: of files the checker knows nothing.
    pub fn has_stood(&mut self) -> bool
        ensures { self.new.out ≡ self.old.out }
    {
        if let Some(stood) = self.stood {
            return stood;
        }
        let stood = match &self.standing {
            Some(standing) => matches!(standing.stands(self.rt), Ok(true)),
            None => true,
        };
        self.stood = Some(stood);
        stood
    }

    /// Where it was printed.
    pub fn into_out(self) -> W
        ensures { result ≡ self.entry.out }
    {
        self.out
    }
}

impl<'a, W: Write + Drop> Write for IfStands<'a, W> {
    ghost contents = { λ it. W.contents it.out };

    fn write(&mut self, buf: &[u8]) -> io::Result<usize> {
        if self.has_stood() {
            self.out.write(buf)
        } else {
            Err(ErrorKind::Other.into())
        }
    }

    fn flush(&mut self) -> io::Result<()> {
        self.out.flush()
    }
}
