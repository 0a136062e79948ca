// The lines of a run that its head is made of.

/// An event of a run: its place, its name, and the total that the file states, in decimal.
#[derive(Drop)]
pub struct HeadEvent {
    pub place: u32,
    pub name: Vec<u8>,
    pub stated: Option<String>,
}

/// A derived event of a run.
#[derive(Drop)]
pub struct HeadDerived {
    pub place: u32,
    pub name: Vec<u8>,
}

/// How often an event counts in a derived one.
#[derive(Drop)]
pub struct HeadCoef {
    pub place: u32,
    pub event: u32,
    pub times: u64,
}
