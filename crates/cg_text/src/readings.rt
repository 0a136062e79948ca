// What a line says by itself.
ghost use Rattle.std.specs.Prelude.{◌≡◌};
ghost use Rattle.cg_text.specs.Readings.{reading_of};
ghost use Rattle.cg_text.specs.Views.{kind_is};

use crate::blanks::line_text;
use crate::faults::Fault;
use crate::kinds::{LineKind, classify};

/// How many bytes a line may have, its carriage return counted and its line feed not.
pub const LINE_LIMIT: usize = 1_048_576;

/// What a line of a Callgrind file says: its kind, `LineTooLong` for more than `LINE_LIMIT` bytes,
/// or `UnknownLine`.
#[tactic(auto, unfolding(crate::specs::Readings::reading_of))]
pub fn read_line(line: &[u8]) -> Result<LineKind<'_>, Fault>
    ensures { kind_is result ≡ reading_of line.now }
{
    if line.len() > LINE_LIMIT {
        return Err(Fault::LineTooLong);
    }
    classify(line_text(line))
}
