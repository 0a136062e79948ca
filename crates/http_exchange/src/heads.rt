// The head of a request, in the bytes that came so far (specs/Heads.antt).
ghost use Rattle.std.specs.Prelude.{◌≡◌, ◌≤◌, length};
ghost use Rattle.http_exchange.specs.Heads.{IsHeadFound, field_limit, head_limit};

use httparse::Status;
use httparse::spans::{HeaderSpan, RequestSpans, parse_request};

/// How many bytes a head has at most, its empty line with it.
pub const HEAD_LIMIT: usize = 16_384;

/// How many fields a head has at most.
pub const FIELD_LIMIT: usize = 64;

/// What the bytes that came so far are.
#[derive(Clone, Copy, Debug, PartialEq, Eq)]
pub enum Head {
    /// They begin with a head: where its parts are, and its length, where the body begins.
    Complete(RequestSpans),
    /// They are no head yet, and some bytes can follow that make one.
    Unfinished,
    /// They are no head within the limits, whatever follows.
    Malformed,
}

/// Looks for a head at the front of the bytes that came so far, and writes where its fields are to the
/// front of `fields`. Takes no memory.
pub fn find_head(bytes: &[u8], fields: &mut [HeaderSpan]) -> Head
    requires limit { length bytes.now ≤ head_limit }
    requires room { length fields.old ≡ field_limit }
    ensures room { length fields.new ≡ field_limit }
    ensures found { IsHeadFound bytes.now fields.new result }
{
    match parse_request(bytes, fields) {
        Ok(Status::Complete(spans)) => Head::Complete(spans),
        Ok(Status::Partial) if bytes.len() < HEAD_LIMIT => Head::Unfinished,
        _ => Head::Malformed,
    }
}
