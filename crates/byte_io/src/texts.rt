// A text that is whole.
ghost use Rattle.std.specs.Prelude.{◌≡◌, ◌++◌, flat_map, length, IfOk, IfSome, OnOk, OnErr};
ghost use Rattle.byte_io.specs.Parts.{part_text, text_of};
ghost use Rattle.byte_io.specs.Sinks.{HasGone, HasStopped};

use crate::gathering::hand_over;
use crate::parts::Part;
use crate::text_sinks::TextSink;
use cg_text::ListVec;
use std::alloc::{AllocError, Global};
use std::io;
use std::marker::Model;

/// A text, in which a long name that comes again is held once. Contracts see its bytes.
#[derive(Drop)]
pub struct SharedText {
    parts: Vec<Part>,
    rest: Vec<u8>,
    count: usize,
}

impl Model for SharedText {
    ghost use Rattle.std.specs.Prelude.{◌≡◌, ℕ, List, length};
    ghost use Rattle.byte_io.specs.Parts.{text_of};

    ghost Value = { List ℕ };

    ghost view = { λ a. text_of a.parts.items a.rest.items };

    ghost invariant = { λ a. a.count ≡ length (text_of a.parts.items a.rest.items) };
}

/// Adds the bytes of parts.
fn push_parts(all: &mut Vec<u8>, parts: &[Part]) -> Result<(), AllocError>
    ensures { OnOk result (all.new.items ≡ all.old.items ++ flat_map part_text parts.now) }
{
    for part in parts {
        all.extend_from_slice(part.bytes.as_slice())?;
        all.extend_from_slice(part.name.as_ref().as_slice())?;
    }
    Ok(())
}

impl SharedText {
    /// The text of these bytes. Takes no memory.
    pub fn from_list(alloc: Global, bytes: ListVec<u8>) -> SharedText
        ensures { result ≡ bytes }
    {
        let rest = bytes.into_vec();
        let count = rest.len();
        SharedText {
            parts: Vec::new(alloc),
            rest,
            count,
        }
    }

    /// The text of parts and of bytes behind them, which are so many bytes together.
    pub(crate) fn from_parts(parts: Vec<Part>, rest: Vec<u8>, count: usize) -> SharedText
        requires { count ≡ length (text_of parts.items rest.items) }
        ensures { result ≡ text_of parts.items rest.items }
    {
        SharedText { parts, rest, count }
    }

    /// How many bytes the text has.
    pub fn len(&self) -> usize
        ensures { result ≡ length self.now }
    {
        self.count
    }

    /// The bytes of the text, if they stand one behind the other: those of one in which no name is long.
    pub fn as_slice(&self) -> Option<&[u8]>
        ensures { IfSome result (λ bytes. bytes.now ≡ self.now) }
    {
        if self.parts.is_empty() {
            Some(self.rest.as_slice())
        } else {
            None
        }
    }

    /// The bytes of the text, one behind the other.
    pub fn to_list(&self, alloc: Global) -> Result<ListVec<u8>, AllocError>
        ensures { IfOk result (λ bytes. bytes ≡ self.now) }
    {
        let mut all = Vec::with_capacity(alloc, self.count)?;
        push_parts(&mut all, &self.parts)?;
        all.extend_from_slice(&self.rest)?;
        Ok(ListVec::from_vec(all))
    }

    /// Hands the text to a sink, in pieces. It may take memory to gather short ones, and needs none. Where it fails, the
    /// sink stopped, and took its first bytes.
    pub fn write<W: TextSink>(&self, alloc: Global, out: &mut W) -> io::Result<()>
        ensures whole { OnOk result (HasGone W.takes out.old self.now out.new) }
        ensures part { OnErr result (HasStopped W.takes W.stops out.old self.now out.new) }
    {
        if let Some(bytes) = self.as_slice() {
            return out.take_piece(bytes);
        }
        hand_over(alloc, &self.parts, &self.rest, out)
    }
}
