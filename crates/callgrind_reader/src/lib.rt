//! Reads Callgrind files in one pass, piece by piece, and hands their records to a sink.
//!
//! What a file says and what the code keeps are two things, so the definitions in specs/ are of four kinds:
//! - what a file says, looking back over its lines: Names, Events, Positions, Costs, Calls, Totals,
//!   Threads and Definitions, one idea each; Lines has the record and the fault of a line, Files those of a file,
//!   Grammars how a line was read before threads were, and Faulty the values in whose place a fault may stand;
//! - the same line by line, and for a text that may go on: Accept, Cut, Ends;
//! - when what the code keeps represents lines: Table, Space, Places, Stated, Stands, Reads;
//! - what reading a part of a line makes of it: Columns, Parts, Headers, Steps.
#![tactic(auto)]

// The events of a file: its `events:` line.
mod events;
// What header lines settle. It keeps the formulas of `event:` lines for `cg_formulas`.
mod header;
// Header lines with values of a fixed form.
mod headers;
// The places that identifiers have: a list of small ones, and a `BTreeMap` (specs/IdPlaces.antt).
mod id_places;
// Laws: looking back over the lines says what reading them one by one does.
mod laws;
// Which positions a cost line begins with: the `positions:` line.
mod layouts;
// The three name spaces: objects, files, functions.
mod names;
// The address and the line number of the previous cost line.
mod places;
// The public face: a state, and the pieces that drive it.
mod reader;
// The fields of a cost line, and the counts of calls.
mod rows;
// One name space: its identifiers, and the names in force.
mod spaces;
// Takes one line. It keeps the header, names, places, an open call and the first fault.
mod state;
// The totals that a file states, by their key.
mod stated;
// What identifiers mean.
mod tables;
// Sums of stated totals, by column.
mod totals;

pub use laws::{handed_on_at_each_moment, looking_back_is_exact};
pub use layouts::Layout;
pub use profile_records::{CallCost, LentName, LentNames, Mark, SelfCost, Sink};
pub use reader::Reader;
pub use text_pieces::FILE_LIMIT;
