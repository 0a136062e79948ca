// A text that is made, and what it is made of.
ghost use Rattle.std.specs.Prelude.{◌≡◌, ◌≤◌, flat_map, length};
ghost use Rattle.byte_io.specs.Parts.{part_text};

use crate::parts::{Part, Printed};
use std::alloc::Global;
use std::collections::BTreeMap;

/// A text that is made, with the names that it may have again. What is no name is added to its `bytes`.
#[derive(Drop)]
pub struct TextWriter<'n> {
    pub(crate) alloc: Global,
    pub(crate) parts: Vec<Part>,
    /// The last bytes of the text, behind its parts.
    pub bytes: Vec<u8>,
    /// How many bytes stand in front of them.
    pub(crate) before: usize,
    pub(crate) most: usize,
    pub(crate) names: BTreeMap<&'n [u8], Printed<'n>>,
    ghost counted: { before ≡ length (flat_map part_text parts.items) },
    ghost short: { before ≤ most },
}
