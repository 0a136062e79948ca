// What commands are answered.
use byte_io::SharedText;
use cg_text::{Fault, ListVec};

/// A sum over all runs that would pass 2^63-1.
#[derive(Drop)]
pub enum Excess {
    /// The self costs of an event.
    SelfCost(ListVec<u8>),
    /// The costs of calls, by an event.
    CallCost(ListVec<u8>),
    /// How many calls there were.
    CallCount,
}

/// Why a command is refused. It changed nothing.
#[derive(Drop)]
pub enum Refusal {
    /// A growth was refused.
    Memory,
    /// A database call failed for another cause.
    Store,
    /// A read of the source failed.
    ReadFault,
    /// The source gave more bytes than a file may have.
    TooLong,
    /// The first fault of the file, and its line.
    File(Fault, u64),
    /// A sum that would pass its bound.
    Overflow(Excess),
    /// As many runs, or groups, are held as may be.
    Full,
    /// All numbers were given out.
    NumbersSpent,
    /// No run has this number.
    NoSuchRun,
    /// No group has this name.
    NoSuchGroup,
    /// A group has this name.
    GroupTaken,
    /// A label or the name of a group is out of form.
    BadName,
    /// No file of those that were selected has this event.
    NoSuchEvent,
    /// No file of those that were selected knows this function: none of its lines costs anything, it
    /// neither calls nor is called, and it is in no stack. Or no line of this source file costs anything.
    NoSuchName,
    /// There is nothing to compare with: no second selection was given, and the first is no group with
    /// a baseline.
    NoBaseline,
}

/// What a command is answered.
#[derive(Drop)]
pub enum Answer {
    /// The file is held from now on, as the run of this number.
    Run(u32),
    /// The file was held already, as the run of this number.
    Held(u32),
    Done,
    Text(SharedText),
    Refused(Refusal),
}
