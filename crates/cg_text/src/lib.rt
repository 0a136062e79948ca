//! The text of profile files: lines, fields, numbers, positions and names, and what each line says.
#![tactic(auto)]

// Blanks, and the text of a line (specs/Fields.antt).
mod blanks;
// Whether names stand once.
mod distinct;
// What can be wrong with a file, and how its reading ends (specs/Faults.antt, Errors.antt).
mod faults;
// The kind of a line (specs/Kinds.antt, seen through Views).
mod kinds;
// Laws: a text is its lines joined again.
mod laws;
// The lines of a text.
mod lines;
// A list over a `Vec` that contracts see as a list.
mod list_vec;
// Identifiers and names (specs/Names.antt, seen through Views).
mod names;
// Numbers in fields.
mod numbers;
// The type of a subposition.
mod positions;
// What a line says by itself.
mod readings;
// The fields of a text (specs/Fields.antt).
mod split;
// The subposition that a field is.
mod subpositions;
// Texts in one buffer (specs/Texts.antt).
mod text_list;
// The words that lines begin with.
mod words;

pub use blanks::{is_blank, line_text, strip_carriage_return, trim_end, trim_start};
pub use distinct::are_distinct;
pub use faults::{Fault, ReadEnd};
pub use kinds::{LineKind, classify};
pub use laws::lines_are_the_text;
pub use lines::{Lines, first_line, line_end};
pub use list_vec::ListVec;
pub use names::{NameSpec, UNKNOWN, name_spec};
pub use numbers::{amount, is_digit, number, value_in};
pub use positions::SubPos;
pub use readings::{LINE_LIMIT, read_line};
pub use split::{SplitFields, fields, next_field};
pub use subpositions::subpos;
pub use text_list::TextList;
pub use words::{HeaderKey, NameWord, Namespace, Role};
