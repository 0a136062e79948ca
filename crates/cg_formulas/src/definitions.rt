// Definitions of derived events.
use crate::event_lines::Formula;
use cg_text::ListVec;

/// A name and what it represents, and the line that says so.
#[derive(Drop)]
pub(crate) struct Definition {
    pub(crate) line: u64,
    pub(crate) name: ListVec<u8>,
    pub(crate) formula: Formula,
}
