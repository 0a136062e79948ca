// Texts in one buffer.
ghost use Rattle.std.specs.Prelude.{◌≡◌, ◌<◌, ◌++◌, ◌∷◌, [], OnOk, OnErr, Some, length, option_map, slice_get, take};
ghost use Rattle.cg_text.specs.Texts.{RiseTo, begin_at, last_end, texts_from};

use std::alloc::{AllocError, Global};
use std::marker::Model;

/// A list of texts that lie in one buffer, one behind another: a text takes its bytes and one number.
#[derive(Drop)]
pub struct TextList {
    bytes: Vec<u8>,
    ends: Vec<usize>,
}

impl Model for TextList {
    ghost use Rattle.std.specs.Prelude.{ℕ, List, length};
    ghost use Rattle.cg_text.specs.Texts.{RiseTo, texts_from};

    ghost Value = { List (List ℕ) };

    ghost view = { λ a. texts_from a.bytes.items 0 a.ends.items };

    ghost invariant = { λ a. RiseTo 0 a.ends.items (length a.bytes.items) };
}

/// Where the last of texts ends, of which each ends at one of these places.
fn end_of(ends: &[usize]) -> usize
    ensures { result ≡ last_end 0 ends.now }
{
    match ends.last() {
        Some(end) => *end,
        None => 0,
    }
}

/// Where the text at a place begins, of texts that end at these places.
fn begin_of(ends: &[usize], at: usize) -> usize
    requires { at < length ends.now }
    ensures { result ≡ begin_at 0 ends.now at }
{
    if at == 0 { 0 } else { ends[at - 1] }
}

/// The text at a place, of texts that end at these places of a buffer.
fn part_at<'a>(bytes: &'a [u8], ends: &[usize], at: usize) -> &'a [u8]
    requires rise { RiseTo 0 ends.now (length bytes.now) }
    requires within { at < length ends.now }
    ensures { slice_get (texts_from bytes.now 0 ends.now) at ≡ Some result.now }
{
    let start = begin_of(ends, at);
    &bytes[start..ends[at]]
}

impl TextList {
    /// A list with no text, which takes no memory.
    pub fn new(alloc: Global) -> TextList
        ensures { result ≡ [] }
    {
        TextList {
            bytes: Vec::new(alloc),
            ends: Vec::new(alloc),
        }
    }

    /// How many texts there are.
    pub fn len(&self) -> usize
        ensures { result ≡ length self.now }
    {
        self.ends.len()
    }

    /// The text at a place.
    pub fn text(&self, at: usize) -> &[u8]
        requires { at < length self.now }
        ensures { slice_get self.now at ≡ Some result.now }
    {
        part_at(&self.bytes, &self.ends, at)
    }

    /// The text at a place, if there is one.
    pub fn get(&self, at: usize) -> Option<&[u8]>
        ensures { option_map (λ text. text.now) result ≡ slice_get self.now at }
    {
        if at < self.len() {
            Some(self.text(at))
        } else {
            None
        }
    }

    /// Adds a text at the end; where memory is refused, the list stays as it was.
    pub fn push(&mut self, text: &[u8]) -> Result<(), AllocError>
        ensures ok { OnOk result (self.new ≡ self.old ++ text.now ∷ []) }
        ensures err { OnErr result (self.new ≡ self.old) }
    {
        let start = self.bytes.len();
        self.bytes.extend_from_slice(text)?;
        if let Err(refused) = self.ends.push(self.bytes.len()) {
            self.bytes.truncate(start);
            return Err(AllocError::from(refused));
        }
        Ok(())
    }

    /// Forgets all texts but so many.
    pub fn truncate(&mut self, len: usize)
        ensures { self.new ≡ take len self.old }
    {
        if len < self.len() {
            self.ends.truncate(len);
            self.bytes.truncate(end_of(&self.ends));
        }
    }
}
