//! The library in one crate, for who reads profiles, adds up their rows, prints reports, or keeps them in a store. Each item
//! stands in the crate that is named here, with its contract. Reports of rows in any order stand here: rows of one key are added up,
//! and each call asks that costs and counts add up to less than 2^112.
#![tactic(auto)]

// Callers and callees (report_texts/specs/Calls.antt).
mod calls;
// What functions cost with all that they call (report_texts/specs/Inclusive.antt).
mod inclusives;
// Reports by key, and differences (report_texts/specs/{KeyReports, Differences}.antt).
mod keys;

// Lines, fields and numbers of Callgrind files; derived events.
pub use cg_formulas::{
    EventLine, FileHead, Flat, FlatEnd, Formula, Formulas, SplitTerms, TextEnd, event_line,
};
pub use cg_text::{
    Fault, HeaderKey, LineKind, Lines, ListVec, NameSpec, NameWord, ReadEnd, SubPos, classify,
    fields, name_spec, number, subpos,
};

// Files, read in pieces: what takes their records is a sink.
pub use callgrind_reader::{CallCost, LentName, LentNames, Mark, Reader, SelfCost, Sink};
pub use folded_reader::{FoldedReader, StackSink};

// The rows of a file, merged; the bounds of sums.
pub use cost_rows::{
    ArcRow, CellRow, FileRows, FileTotals, Key, Merged, Names, Overflow, Side, StackRow, admit,
};

// Reports and exports of rows; of rows in any order, where rows of one key are added up.
pub use calls::{callees, callers};
pub use cost_exports::{CellSums, LineSums, StackSums, annotate, csv_text, folded_text};
pub use cost_reports::{
    CallReport, CallRow, Check, Cut, Difference, DifferenceRow, InclusiveReport, LentPlace, Pair,
    Report, Row, Signed, Verification, verify,
};
pub use inclusives::inclusive;
pub use keys::{by, subtract};

// A store in SQLite: made and opened as a database, asked and changed by the pages of its files.
pub use page_runs::PageRuns;
pub use prof_store::{OpenError, Store};
pub use run_stores::{
    CallSink, CellSink, GroupEntry, Kind, RunEntry, RunStore, StackRowSink, StoreError, SummedFile,
};

// All commands over a store of any kind.
pub use warehouse::{
    Answer, Command, Excess, Limits, Query, ReadFault, Refusal, Selection, Source, Warehouse,
};

// Over HTTP, and what the program prints.
pub use command_line::{Plan, PlanEnd, plan};
pub use file_reading::{Total, TotalText, total_file, total_text};
pub use prof_http::{Exchange, Room, Stream, StreamFault, answer, routes, serve_on};
pub use warehouse::{line_of, status_of};
