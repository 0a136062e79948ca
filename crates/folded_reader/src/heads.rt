// What an accepted folded file says of itself.
ghost use Rattle.std.specs.Prelude.{◌≡◌, IfOk};
ghost use Rattle.folded_reader.specs.Heads.{HeadIs};

use cg_formulas::{FileHead, Formulas};
use cg_text::ListVec;
use std::alloc::{AllocError, Global};

/// The head of each folded file: its one event is `samples`, from which nothing is derived, and it
/// states no totals.
pub fn samples_head(alloc: Global) -> Result<FileHead, AllocError>
    ensures { IfOk result HeadIs }
{
    let mut events = ListVec::new(alloc);
    events.push(ListVec::from_vec(b"samples".to_vec(alloc)?))?;
    match Formulas::new(alloc).flatten(events.as_slice()) {
        Ok(derived) => Ok(FileHead {
            events,
            derived,
            stated: None,
        }),
        Err(_) => {
            // What is dropped at each way out is slow to prove.
            drop(events);
            Err(AllocError)
        }
    }
}
