//! Bytes in and out: sources and the one loop that reads them, texts that are written whole or as far as
//! could be, texts of answers, in which a long name is held once, names as they are printed, and the files that the
//! program is told of.
#![tactic(auto)]

// The bytes of a name, with escapes.
mod escapes;
// A text that goes out in pieces, the short ones gathered (specs/Gone.antt).
mod gathering;
// The source of a file for an import, opened at the first read.
mod imported;
// How a text is made (specs/Written.antt).
mod making;
// The source that a reader of std is (specs/Known.antt).
mod opened;
// The parts of a text (specs/Parts.antt).
mod parts;
// Reads a source to its end (specs/Reads.antt).
mod reading;
// The trait of what gives bytes (specs/Outcomes.antt).
mod source;
// The trait of what takes bytes.
mod takes;
// The trait of what takes a text (specs/Sinks.antt).
mod text_sinks;
// A text that is whole (specs/Parts.antt).
mod texts;
// Keeps the bytes of a source.
mod whole;
// What a text is made of, meanwhile.
mod writers;
// Writes a text, whole or its first bytes.
mod writing;

pub use escapes::push_escaped;
pub use imported::FileSource;
pub use opened::Opened;
pub use reading::{Unread, read_all};
pub use source::{ReadFault, Source};
pub use takes::ByteSink;
pub use text_sinks::TextSink;
pub use texts::SharedText;
pub use whole::read_to_end;
pub use writers::TextWriter;
pub use writing::write_text;
