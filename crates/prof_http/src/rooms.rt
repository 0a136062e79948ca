// Where the heads of requests and responses stand.
use http_exchange::{FIELD_LIMIT, HEAD_LIMIT, RESPONSE_ROOM};
use httparse::spans::{EMPTY_HEADER_SPAN, HeaderSpan};

/// Room for the head of a request, for where its fields are, and for the head of its response. Whoever serves makes
/// it once and lends it to one exchange after another: each reads only what it has written there itself, so nothing is
/// cleared between two of them.
#[derive(Drop)]
pub struct Room {
    /// The bytes that came with the head of the request, from the front.
    pub head: [u8; HEAD_LIMIT],
    pub fields: [HeaderSpan; FIELD_LIMIT],
    pub response: [u8; RESPONSE_ROOM],
}

impl Room {
    /// With bytes of 0. No guarantee: an exchange reads nothing here that it has not written.
    pub fn new() -> Room {
        Room {
            head: [0u8; HEAD_LIMIT],
            fields: [EMPTY_HEADER_SPAN; FIELD_LIMIT],
            response: [0u8; RESPONSE_ROOM],
        }
    }
}
