// Answers of calls that fail.
ghost use Rattle.std.specs.Prelude.{◌≡◌};
ghost use Rattle.histories.specs.Answered.{answer_for};

use crate::{Answer, Refusal};
use plain_tables::StoreError;

/// The answer that is expected, or the refusal because of memory or the store.
pub fn answer_of(outcome: Result<Answer, StoreError>) -> Answer
    ensures { result ≡ answer_for outcome }
{
    match outcome {
        Ok(answer) => answer,
        Err(StoreError::Memory) => Answer::Refused(Refusal::Memory),
        Err(StoreError::Store) => Answer::Refused(Refusal::Store),
    }
}
