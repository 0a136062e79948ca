// A text that is made.
ghost use Rattle.std.specs.Prelude.{◌≡◌, ◌+◌, ◌++◌, ◌≤◌, ◌∷◌, [], length, IfOk, IfSome, OnOk};
ghost use Rattle.byte_io.specs.Escapes.{escaped};
ghost use Rattle.byte_io.specs.Written.{GoesOn, written};

use crate::escapes::push_escaped;
use crate::parts::{Part, Printed};
use crate::texts::SharedText;
use crate::writers::TextWriter;
use std::alloc::{AllocError, Global};
use std::collections::BTreeMap;
use std::mem;
use std::rc::Rc;

/// From how many bytes on a name is long: held once, however often it is printed. Shorter ones are copied, so that most
/// texts are bytes that stand one behind the other.
const LONG: usize = 512;

/// Prints a name.
fn printed<'n>(alloc: Global, name: &'n [u8]) -> Result<Printed<'n>, AllocError>
    ensures { IfOk result (λ printed. printed.name.now ≡ name.now) }
{
    let mut text = Vec::new(alloc);
    push_escaped(&mut text, name)?;
    match Rc::new(alloc, text) {
        Ok(text) => Ok(Printed { name, text }),
        Err(_) => Err(AllocError),
    }
}

impl<'n> TextWriter<'n> {
    /// A text with no byte, which may have so many. Takes no memory.
    pub fn new(alloc: Global, most: usize) -> TextWriter<'n>
        ensures text { written result ≡ [] }
        ensures most { result.most ≡ most }
    {
        TextWriter {
            alloc,
            parts: Vec::new(alloc),
            bytes: Vec::new(alloc),
            before: 0,
            most,
            names: BTreeMap::new(alloc),
        }
    }

    /// How many bytes the text has, if it may have so many.
    fn count(&self) -> Option<usize>
        ensures { IfSome result (λ count. (count ≡ length (written self.now)) × (count ≤ self.now.most)) }
    {
        if self.bytes.len() > self.most - self.before {
            return None;
        }
        Some(self.before + self.bytes.len())
    }

    /// Refuses a text that is longer than it may be, as one that there is no memory for.
    pub fn check_length(&self) -> Result<(), AllocError>
        ensures { OnOk result (length (written self.now) ≤ self.now.most) }
    {
        match self.count() {
            Some(_) => Ok(()),
            None => Err(AllocError),
        }
    }

    /// The name as it is printed, if it was added before.
    fn known(&self, name: &[u8]) -> Option<&Rc<Vec<u8>>>
        ensures { IfSome result (λ text. text.now.value.items ≡ escaped name.now) }
    {
        let known = self.names.get(name)?;
        if known.name == name {
            Some(&known.text)
        } else {
            None
        }
    }

    /// How a name is printed, which is held once.
    fn shared(&mut self, name: &'n [u8]) -> Result<Rc<Vec<u8>>, AllocError>
        ensures text { IfOk result (λ text. text.value.items ≡ escaped name.now) }
        ensures written { written self.new ≡ written self.old }
        ensures most { self.new.most ≡ self.old.most }
    {
        if let Some(text) = self.known(name) {
            return text.clone();
        }
        let printed = printed(self.alloc, name)?;
        let text = printed.text.clone()?;
        self.names.insert(name, printed)?;
        Ok(text)
    }

    /// Ends a part of the text with a name.
    fn end_part(&mut self, name: Rc<Vec<u8>>) -> Result<(), AllocError>
        ensures { OnOk result (GoesOn self.old self.new name.value.items) }
    {
        let Some(count) = self.count() else {
            return Err(AllocError);
        };
        if name.as_ref().len() > self.most - count {
            return Err(AllocError);
        }
        let before = count + name.as_ref().len();
        let bytes = mem::replace(&mut self.bytes, Vec::new(self.alloc));
        self.parts.push(Part { bytes, name })?;
        self.before = before;
        Ok(())
    }

    /// Adds a byte.
    pub fn push(&mut self, byte: u8) -> Result<(), AllocError>
        ensures { OnOk result (GoesOn self.old self.new (byte ∷ [])) }
    {
        self.bytes.push(byte)?;
        Ok(())
    }

    /// Adds bytes as they are.
    pub fn push_bytes(&mut self, bytes: &[u8]) -> Result<(), AllocError>
        ensures { OnOk result (GoesOn self.old self.new bytes.now) }
    {
        self.bytes.extend_from_slice(bytes)
    }

    /// Adds a name as it is printed, a copy of it.
    pub fn push_escaped(&mut self, name: &[u8]) -> Result<(), AllocError>
        ensures { OnOk result (GoesOn self.old self.new (escaped name.now)) }
    {
        push_escaped(&mut self.bytes, name)
    }

    /// Adds a name as it is printed, which may come again: on one line.
    pub fn push_name(&mut self, name: &'n [u8]) -> Result<(), AllocError>
        ensures { OnOk result (GoesOn self.old self.new (escaped name.now)) }
    {
        if name.len() < LONG {
            return self.push_escaped(name);
        }
        let text = self.shared(name)?;
        self.end_part(text)
    }

    /// The text, unless it is longer than it may be.
    pub fn finish(self) -> Result<SharedText, AllocError>
        ensures text { IfOk result (λ text. text ≡ written self.entry) }
        ensures short { IfOk result (λ text. length text ≤ self.entry.most) }
    {
        let Some(count) = self.count() else {
            return Err(AllocError);
        };
        let TextWriter { parts, bytes, .. } = self;
        Ok(SharedText::from_parts(parts, bytes, count))
    }
}
