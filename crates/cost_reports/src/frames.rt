// The functions of a stack.
ghost use Rattle.std.specs.Prelude.{◌≡◌, IfOk, bytes_eq, map};
ghost use Rattle.std.specs.List.{list_any};
ghost use Rattle.profile_records.specs.Frames.{functions_of};
ghost use Rattle.report_texts.specs.Functions.{function_spot};
ghost use Rattle.report_texts.specs.Inclusive.{functions_in, is_frame, names_in};

use cg_text::UNKNOWN;
use memchr::memchr;
use profile_records::function;
use std::alloc::{AllocError, Global};
use std::collections::BTreeSet;

/// The functions that have a frame in a stack, each once.
pub fn functions_in(alloc: Global, frames: &[u8]) -> Result<BTreeSet<&[u8]>, AllocError>
    ensures { IfOk result (λ functions. names_in functions.keys ≡ functions_in frames.now) }
{
    let mut functions = BTreeSet::new(alloc);
    let mut rest = frames;
    while let Some(at) = memchr(b';', rest) {
        functions.insert(function(&rest[..at]))?;
        rest = &rest[at + 1..];
    }
    functions.insert(function(rest))?;
    Ok(functions)
}

/// Whether one of the functions of a stack has this name.
fn has_frame(frames: &[u8], name: &[u8]) -> bool
    ensures { result ≡ list_any (λ function. bytes_eq function name.now) (functions_of frames.now) }
{
    let mut rest = frames;
    while let Some(at) = memchr(b';', rest) {
        if function(&rest[..at]) == name {
            return true;
        }
        rest = &rest[at + 1..];
    }
    function(rest) == name
}

/// Whether a function of an object has a frame in a stack, whose functions are of no known object.
pub fn is_frame(frames: &[u8], object: &[u8], name: &[u8]) -> bool
    ensures { result ≡ is_frame (function_spot object.now name.now) frames.now }
{
    object == UNKNOWN && has_frame(frames, name)
}
