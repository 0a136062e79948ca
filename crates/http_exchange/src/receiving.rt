// The head of a request, as it comes in pieces.
ghost use Rattle.std.specs.Prelude.{◌≡◌, List, length, MatchResult};
ghost use Rattle.byte_io.specs.Outcomes.{Outcome};
ghost use Rattle.byte_io.specs.Reads.{Reads};
ghost use Rattle.http_exchange.specs.Heads.{head_limit, field_limit};
ghost use Rattle.http_exchange.specs.Received.{IsReceived, IsEndedBy};

use crate::streams::Stream;
use crate::{Head, find_head};
use httparse::spans::{HeaderSpan, RequestSpans};

/// Why no head came.
#[derive(Clone, Copy, Debug, PartialEq, Eq)]
pub enum HeadEnd {
    /// The bytes are no head within the limits, and none will come of them.
    Bad,
    /// A read failed before a head was there.
    Failed,
}

/// Reads until a head is there: where its parts are, and how many bytes came. They fill the front of
/// the buffer; those behind the head are the first of the body. Where bytes can become no head, and
/// where a head is there, nothing more is read. Takes no memory.
pub fn read_head<T: Stream>(
    stream: &mut T,
    buffer: &mut [u8],
    fields: &mut [HeaderSpan],
) -> Result<(RequestSpans, usize), HeadEnd>
    requires limit { length buffer.old ≡ head_limit }
    requires room { length fields.old ≡ field_limit }
    ensures { (reads : List Outcome) × Reads T.reads stream.old reads stream.new × MatchResult result
        (λ came. IsReceived reads buffer.new fields.new came.0 came.1)
        (λ end. IsEndedBy reads end) }
{
    let mut filled = 0usize;
    'reads: loop {
        let count = match stream.read(&mut buffer[filled..]) {
            Ok(count) => count,
            Err(_) => return Err(HeadEnd::Failed),
        };
        if count == 0 {
            return Err(HeadEnd::Bad);
        }
        filled += count;
        match find_head(&buffer[..filled], fields) {
            Head::Complete(spans) => return Ok((spans, filled)),
            Head::Unfinished => (),
            Head::Malformed => return Err(HeadEnd::Bad),
        }
    }
}
