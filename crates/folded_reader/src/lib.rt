//! Reads folded stacks, one to a line, as the collapse scripts of FlameGraph write them, in one pass,
//! piece by piece, and hands them to a sink.
#![tactic(auto)]

// The head of each folded file.
mod heads;
// Laws: looking back is what specs/Files.antt says of a whole file; the leaf is the last function.
mod laws;
// The public face: the state, the pieces, and a head that is made before the first byte.
mod reader;
// Reads a line: a stack and its count, nothing, or a fault (specs/Lines.antt, seen through Views).
mod stacks;
// Counts lines, keeps the first fault and hands stacks on until then (specs/Looking.antt, Stands.antt).
mod state;

pub use laws::{handed_on_at_each_moment, looking_back_is_exact, the_leaf_is_the_last_function};
pub use profile_records::StackSink;
pub use reader::FoldedReader;
pub use stacks::{Stack, read_stack};
pub use text_pieces::FILE_LIMIT;
