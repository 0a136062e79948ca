// A text that goes out in pieces, the short ones gathered.
ghost use Rattle.std.specs.Prelude.{◌≡◌, ◌++◌, if◌then◌else◌, ℕ, List, [], flat_map, OnOk, OnErr, MatchResult};
ghost use Rattle.byte_io.specs.Gone.{IsOn};
ghost use Rattle.byte_io.specs.Parts.{part_text, text_of};
ghost use Rattle.byte_io.specs.Sinks.{HasGone, HasStopped};

use crate::parts::Part;
use crate::text_sinks::TextSink;
use std::alloc::Global;
use std::io;

/// How many bytes are gathered at most.
const ROOM: usize = 65_536;

/// Hands on what is held.
fn hand_on<W: TextSink>(held: &mut Vec<u8>, out: &mut W) -> io::Result<()>
    ensures { (from : _) (text : List ℕ) → IsOn W.takes from held.old.items out.old text
        → MatchResult result (λ _. (held.new.items ≡ []) × HasGone W.takes from text out.new) (λ _. HasStopped W.takes W.stops from text out.new) }
{
    out.take_piece(held.as_slice())?;
    held.clear();
    Ok(())
}

/// Adds bytes to what is held, if they are few and there is memory for them.
fn gathers(held: &mut Vec<u8>, bytes: &[u8]) -> bool
    ensures { held.new.items ≡ (if result then held.old.items ++ bytes.now else held.old.items) }
{
    held.len() + bytes.len() <= ROOM && held.extend_from_slice(bytes).is_ok()
}

/// Adds bytes to what is held, or hands both on.
fn put<W: TextSink>(held: &mut Vec<u8>, out: &mut W, bytes: &[u8]) -> io::Result<()>
    ensures { (from : _) (text : List ℕ) → IsOn W.takes from held.old.items out.old text
        → MatchResult result (λ _. IsOn W.takes from held.new.items out.new (text ++ bytes.now))
        (λ _. HasStopped W.takes W.stops from (text ++ bytes.now) out.new) }
{
    if gathers(held, bytes) {
        return Ok(());
    }
    hand_on(held, out)?;
    out.take_piece(bytes)
}

/// Puts a part of a text.
fn put_part<W: TextSink>(held: &mut Vec<u8>, out: &mut W, part: &Part) -> io::Result<()>
    ensures { (from : _) (text : List ℕ) → IsOn W.takes from held.old.items out.old text
        → MatchResult result (λ _. IsOn W.takes from held.new.items out.new (text ++ part_text part.now))
        (λ _. HasStopped W.takes W.stops from (text ++ part_text part.now) out.new) }
{
    put(held, out, &part.bytes)?;
    put(held, out, part.name.as_ref())
}

/// Puts the parts of a text.
fn put_parts<W: TextSink>(held: &mut Vec<u8>, out: &mut W, parts: &[Part]) -> io::Result<()>
    ensures { (from : _) (text : List ℕ) → IsOn W.takes from held.old.items out.old text
        → MatchResult result (λ _. IsOn W.takes from held.new.items out.new (text ++ flat_map part_text parts.now))
        (λ _. HasStopped W.takes W.stops from (text ++ flat_map part_text parts.now) out.new) }
{
    for part in parts {
        put_part(held, out, part)?;
    }
    Ok(())
}

/// Puts a text whole, and hands on what is held.
fn put_all<W: TextSink>(
    held: &mut Vec<u8>,
    out: &mut W,
    parts: &[Part],
    rest: &[u8],
) -> io::Result<()>
    requires { held.old.items ≡ [] }
    ensures whole { OnOk result (HasGone W.takes out.old (text_of parts.now rest.now) out.new) }
    ensures part { OnErr result (HasStopped W.takes W.stops out.old (text_of parts.now rest.now) out.new) }
{
    put_parts(held, out, parts)?;
    put(held, out, rest)?;
    hand_on(held, out)
}

/// Hands a text to a sink, in pieces. Where there is no memory to gather short ones, each goes by itself.
pub(crate) fn hand_over<W: TextSink>(
    alloc: Global,
    parts: &[Part],
    rest: &[u8],
    out: &mut W,
) -> io::Result<()>
    ensures whole { OnOk result (HasGone W.takes out.old (text_of parts.now rest.now) out.new) }
    ensures part { OnErr result (HasStopped W.takes W.stops out.old (text_of parts.now rest.now) out.new) }
{
    let mut held = Vec::new(alloc);
    put_all(&mut held, out, parts, rest)
}
