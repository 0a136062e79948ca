// Responses, as they are written.
ghost use Rattle.std.specs.Prelude.{◌≡◌, ◌≤◌, ◌+◌, ◌-◌, ◌++◌, List, length, min, take};
ghost use Rattle.http_exchange.specs.Responses.{response_text};
ghost use Rattle.http_exchange.specs.Streams.{Written, Writes, WentAs};

use crate::put_head;
use crate::streams::Stream;
use http::StatusCode;

/// Room for the head of a response, and for the front of its body; most responses are written at once.
pub const RESPONSE_ROOM: usize = 4096;

/// Writes these bytes, and says whether they all went.
pub fn write_all<T: Stream>(stream: &mut T, bytes: &[u8]) -> bool
    ensures { (writes : List Written) × Writes T.writes stream.old writes stream.new × WentAs result bytes.now writes }
{
    let mut at = 0usize;
    'writes: while at < bytes.len() {
        match stream.write(&bytes[at..]) {
            Ok(count) => {
                if count == 0 {
                    return false;
                }
                at += count;
            }
            Err(_) => return false,
        }
    }
    true
}

/// The same of two texts, one after the other.
fn write_two<T: Stream>(stream: &mut T, first: &[u8], second: &[u8]) -> bool
    ensures { (writes : List Written) × Writes T.writes stream.old writes stream.new × WentAs result (first.now ++ second.now) writes }
{
    if !write_all(stream, first) {
        return false;
    }
    write_all(stream, second)
}

/// Puts as much of a body behind the head as there is room for, and answers where it ends.
fn put_body(room: &mut [u8], at: usize, body: &[u8]) -> usize
    requires { at ≤ length room.old }
    ensures end { result ≡ at + min (length body.now) (length room.old - at) }
    ensures text { take result room.new ≡ take at room.old ++ take (result - at) body.now }
{
    let count = body.len().min(room.len() - at);
    let end = at + count;
    room[at..end].copy_from_slice(&body[..count]);
    end
}

/// Writes a response, and says whether all of it went; `allow` is the text of the field Allow, empty
/// where there is none. Its head and the front of its body stand in `room`, whatever that held before. Takes no
/// memory.
pub fn send<T: Stream>(
    stream: &mut T,
    room: &mut [u8; RESPONSE_ROOM],
    status: StatusCode,
    allow: &str,
    body: &[u8],
) -> bool
    requires { length allow.now ≤ 32 }
    ensures { (writes : List Written) × Writes T.writes stream.old writes stream.new × WentAs result (response_text status allow.now body.now) writes }
{
    let at = put_head(room, status, allow, body.len());
    let end = put_body(room, at, body);
    write_two(stream, &room[..end], &body[end - at..])
}
