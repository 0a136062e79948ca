// Answers of sources that were not read.
ghost use Rattle.std.specs.Prelude.{◌≡◌};
ghost use Rattle.warehouse.specs.Answered.{unread_for};

use byte_io::Unread;
use histories::{Answer, Refusal};

/// The refusal of a source that was not read to its end.
pub(crate) fn unread_answer(unread: Unread) -> Answer
    ensures { result ≡ unread_for unread }
{
    match unread {
        Unread::Memory => Answer::Refused(Refusal::Memory),
        Unread::Failed => Answer::Refused(Refusal::ReadFault),
        Unread::TooLong => Answer::Refused(Refusal::TooLong),
    }
}
