// The bytes of a response (specs/Responses.antt). A response is its head, which is put into a room that
// the caller has, and its body.
ghost use Rattle.std.specs.Prelude.{◌≡◌, ◌≤◌, ◌+◌, ◌++◌, length, take};
ghost use Rattle.http_exchange.specs.Responses as spec;
ghost use Rattle.http_exchange.specs.Responses.{head_text, response_text, allow_line};

use http::StatusCode;
use itoa::Buffer;

/// Room for the head of a response.
pub const RESPONSE_HEAD_ROOM: usize = 256;

/// Puts bytes after those that are there, and answers where they end.
fn put(room: &mut [u8], at: usize, bytes: &[u8]) -> usize
    requires { at + length bytes.now ≤ length room.old }
    ensures end { result ≡ at + length bytes.now }
    ensures text { take result room.new ≡ take at room.old ++ bytes.now }
{
    let end = at + bytes.len();
    room[at..end].copy_from_slice(bytes);
    end
}

/// The phrase of a status; none of one that has no name.
fn phrase_of(status: StatusCode) -> &'static str
    ensures { result.now ≡ spec.phrase_of status }
{
    status.canonical_reason().unwrap_or("")
}

/// Puts a status and its phrase, as they stand in the first line of a response.
#[tactic(auto, using(crate::proofs::PhraseLemmas::phrases_are_short), unfolding(crate::specs::Responses::status_text))]
fn put_status(room: &mut [u8], at: usize, status: StatusCode) -> usize
    requires { at + 36 ≤ length room.old }
    ensures end { result ≤ at + 36 }
    ensures text { take result room.new ≡ take at room.old ++ spec.status_text status }
{
    let at = put(room, at, status.as_str().as_bytes());
    let at = put(room, at, b" ");
    put(room, at, phrase_of(status).as_bytes())
}

/// Puts the field Allow, if there is one.
fn put_allow(room: &mut [u8], at: usize, allow: &str) -> usize
    requires { at + length allow.now + 16 ≤ length room.old }
    ensures end { result ≤ at + length allow.now + 16 }
    ensures text { take result room.new ≡ take at room.old ++ allow_line allow.now }
{
    if allow.is_empty() {
        return at;
    }
    let at = put(room, at, b"Allow: ");
    let at = put(room, at, allow.as_bytes());
    put(room, at, b"\r\n")
}

/// Puts the head of a response into a room: the status line, the fields and the empty line, for the
/// methods of the field Allow, none where they are empty, and a body of so many bytes. Answers its
/// length; its body is to follow. Takes no memory.
#[tactic(auto, unfolding(crate::specs::Responses::head_text))]
pub fn put_head(room: &mut [u8], status: StatusCode, allow: &str, size: usize) -> usize
    requires room { 256 ≤ length room.old }
    requires allow { length allow.now ≤ 32 }
    ensures within { result ≤ 256 }
    ensures text { take result room.new ≡ head_text status allow.now size }
{
    let mut digits = Buffer::new();
    let at = put(room, 0, b"HTTP/1.1 ");
    let at = put_status(room, at, status);
    let at = put(
        room,
        at,
        b"\r\nContent-Type: text/plain\r\nContent-Length: ",
    );
    let at = put(room, at, digits.format(size).as_bytes());
    let at = put(room, at, b"\r\n");
    let at = put_allow(room, at, allow);
    put(room, at, b"Connection: close\r\n\r\n")
}
