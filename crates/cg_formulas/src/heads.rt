// What a reader answers of a whole file.
use crate::flats::Flat;
use cg_text::ListVec;

/// What an accepted file says of itself.
#[derive(Drop)]
pub struct FileHead {
    /// The names of its events, in the order of the costs on each cost line.
    pub events: ListVec<ListVec<u8>>,
    /// Its derived events.
    pub derived: Flat,
    /// The totals that it states, one for each event, if it states any.
    pub stated: Option<ListVec<u128>>,
}
