// The rows of the small tables.

use crate::run_lines::{OfRun, RunLines};
use run_stores::RunEntry;

/// A run, and how many calls it has.
#[derive(Drop)]
pub struct ListedRun {
    pub entry: RunEntry,
    pub call_count: u64,
}

/// An event of a run: its place, its name, its sums, and the total that the file states, in decimal.
#[derive(Drop)]
pub struct ListedEvent {
    pub run: u32,
    pub place: u32,
    pub name: Vec<u8>,
    pub self_cost: u64,
    pub call_cost: u64,
    pub stated: Option<String>,
}

impl OfRun for ListedEvent {
    ghost run_of = { λ l. l.run };

    fn run(&self) -> u32 {
        self.run
    }
}

/// A derived event of a run.
#[derive(Drop)]
pub struct ListedDerived {
    pub run: u32,
    pub place: u32,
    pub name: Vec<u8>,
}

impl OfRun for ListedDerived {
    ghost run_of = { λ l. l.run };

    fn run(&self) -> u32 {
        self.run
    }
}

/// How often an event counts in a derived one.
#[derive(Drop)]
pub struct ListedCoef {
    pub run: u32,
    pub place: u32,
    pub event: u32,
    pub times: u64,
}

impl OfRun for ListedCoef {
    ghost run_of = { λ l. l.run };

    fn run(&self) -> u32 {
        self.run
    }
}

/// A group with its baseline, if it has one.
#[derive(Drop)]
pub struct ListedGroup {
    pub name: String,
    pub baseline: Option<u32>,
}

/// A run that is in a group.
#[derive(Drop)]
pub struct ListedMember {
    pub group: String,
    pub run: u32,
}

impl OfRun for ListedMember {
    ghost run_of = { λ l. l.run };

    fn run(&self) -> u32 {
        self.run
    }
}

/// The number that the next run gets, and the rows of each small table, in the tables' order.
#[derive(Drop)]
pub struct RunLists {
    pub next: u32,
    pub runs: Vec<ListedRun>,
    pub events: RunLines<ListedEvent>,
    pub derived: RunLines<ListedDerived>,
    pub coefs: RunLines<ListedCoef>,
    pub groups: Vec<ListedGroup>,
    pub members: Vec<ListedMember>,
}
