//! Takes a text in pieces, in one pass, and hands its lines on one by one, whatever they say.
//!
//! In specs/ Cut has the whole lines of a text and what is left of it, Backwards what lines say and add, the
//! nearest first, and Kept when the bytes that are kept are those that are left.
#![tactic(auto)]

// Cuts a text that comes in pieces into lines, and hands them to what takes them.
mod pieces;
// The trait `LineSink`: what a line of a format says and adds (specs/LineIs.antt).
mod takes;

pub use pieces::{FILE_LIMIT, Pieces};
pub use takes::{Line, LineSink};
