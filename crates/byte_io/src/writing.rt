// A text is written.
ghost use Rattle.std.specs.Prelude.{◌≤◌, ℕ, length, take, IfOk, OnOk, OnErr};
ghost use Rattle.std.specs.Io.KnownBytes.{Appends, Keeps};

use std::io;
use std::io::{ErrorKind, Write};

/// Writes the first bytes of a text, and answers how many; none where it was interrupted. A writer that
/// takes none of a text fails.
fn write_some<W: Write>(out: &mut W, text: &[u8]) -> io::Result<usize>
    ensures within { IfOk result (λ count. count ≤ length text.now) }
    ensures first { IfOk result (λ count. Appends (W.contents out.old) (W.contents out.new) (take count text.now)) }
    ensures none { OnErr result (Keeps (W.contents out.old) (W.contents out.new)) }
{
    match out.write(text) {
        Ok(0) => Err(io::Error::from(ErrorKind::WriteZero)),
        Ok(count) => Ok(count),
        Err(error) if error.kind() == ErrorKind::Interrupted => Ok(0),
        Err(error) => Err(error),
    }
}

/// Writes a text whole. Where that fails, what was written of it are its first bytes, which `write_all`
/// does not say.
pub fn write_text<W: Write>(out: &mut W, text: &[u8]) -> io::Result<()>
    ensures whole { OnOk result (Appends (W.contents out.old) (W.contents out.new) text.now) }
    ensures part { OnErr result ((n : ℕ) × Appends (W.contents out.old) (W.contents out.new) (take n text.now)) }
{
    let mut written = 0;
    'writes: for _ in 0..u64::MAX {
        if written == text.len() {
            return Ok(());
        }
        written += write_some(out, &text[written..])?;
    }
    Err(io::Error::from(ErrorKind::WriteZero))
}
