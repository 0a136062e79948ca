//! A file is read to its end: for an import, its digest, and its rows or its first fault; or alone, without
//! a store, the sums of its self costs, by event. What is seen of it on the way, how it begins and why it cannot be read, a
//! person is told; no answer depends on it.
#![tactic(auto)]

// Has a source read through a total (specs/Readers.antt).
mod files;
// A file of either kind while it is read.
mod parser;
// What is printed (specs/TotalLines.antt).
mod lines;
// Has a source read into it (specs/Intakes.antt).
mod reading;
// The sink that adds up self costs.
mod sums;
// A total that is read in pieces (specs/Running.antt says when it represents a text).
mod total;
// How files begin (specs/Beginnings.antt).
mod beginnings;
// What a person is told of a file (specs/Findings.antt).
mod findings;
// The file at a path, as a source (specs/Seen.antt).
mod seen;

pub use beginnings::{Beginning, beginning_of};
pub use files::{total_file, total_opened, total_read};
pub use findings::{Finding, fault_finding, finding_line, unread_finding};
pub use parser::ParsedFile;
pub use reading::parse_file;
pub use seen::SeenFile;
pub use total::{Total, TotalText, total_text};
