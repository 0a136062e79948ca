// What takes lines may refuse one: then each later piece is refused.
ghost use Rattle.std.specs.Prelude.{◌≤◌, []};
ghost use Rattle.text_pieces.specs.Kept.{taken_of};

use crate::holding::holds;
use std::alloc::{AllocError, Global};
use std::test::Fail;
use text_pieces::{FILE_LIMIT, Line, LineSink, Pieces};

/// Hands on the bytes of each line but the second, which it refuses.
#[derive(Drop)]
struct Taking {
    lines: u64,
}

impl LineSink<Vec<u8>> for Taking {
    ghost Reading = { Unit {0} };

    ghost reading_of = { λ _. tt };

    ghost Record = { Unit {0} };

    ghost adds = { λ _ _. [] };

    ghost represents = { λ _ _. Unit {0} };

    ghost lines = { λ s. s.lines };

    ghost fits = { λ _ _. Unit {0} };

    ghost Meaning = { Unit {0} };

    ghost meaning = { λ _. tt };

    ghost step = { λ m _. m };

    fn take_line(&mut self, line: Line<'_>, sink: &mut Vec<u8>) -> Result<(), AllocError> {
        self.lines += 1;
        match line {
            Line::Complete(bytes) if self.lines != 2 => sink.extend_from_slice(bytes),
            _ => Err(AllocError),
        }
    }
}

pub fn refused_from_then_on(alloc: Global) -> Result<(), Fail> {
    let mut pieces = Pieces::new(alloc);
    let mut state = Taking { lines: 0 };
    let mut sink = Vec::new(alloc);
    pieces.feed(b"a\n", &mut state, &mut sink)?;
    holds(pieces.room() == FILE_LIMIT - 2, "another room")?;
    holds(
        pieces.feed(b"b\nc\n", &mut state, &mut sink).is_err(),
        "the second line is taken",
    )?;
    holds(pieces.room() > 9, "no room is left")?;
    holds(
        pieces.feed(b"d\n", &mut state, &mut sink).is_err(),
        "a later piece is taken",
    )?;
    holds(
        pieces.finish(&mut state, &mut sink).is_err(),
        "the end is taken",
    )?;
    holds(
        sink.as_slice() == b"a".as_slice(),
        "other bytes are handed on",
    )?;
    Ok(())
}
