// What is replied to a request, and how it is sent (specs/Replies.antt).
ghost use Rattle.std.specs.Prelude.{◌≡◌, ◌≤◌, [], length, List, Ok, Err, Result};
ghost use Rattle.http_exchange.specs.Streams.{Written, Writes};
ghost use Rattle.http_exchange.specs.Responses.{response_text};
ghost use Rattle.http_exchange.specs.declared.failings.Failing as check;
ghost use Rattle.histories.specs.declared.answers.Answer as given;
ghost use Rattle.prof_http.specs.Replies as spec;

use crate::sending::{send_pieces, send_sums};
use byte_io::SharedText;
use cost_exports::CellSums;
use histories::{Answer, Refusal};
use http_exchange::{Failing, RESPONSE_ROOM, StatusCode, Stream, put_head, send};
use std::alloc::{AllocError, Global};
use warehouse::line_of;

/// What an exchange came to.
#[derive(Clone, Copy, Debug, PartialEq, Eq)]
pub enum Exchange {
    /// A response of this status was written.
    Sent(u16),
    /// A read failed before a head was there. Nothing was written, and no command was run.
    ReadFault,
    /// A write of the response of this status failed, or took no byte, or memory ran out within a text of CSV. Its
    /// command stands.
    WriteFault(u16),
}

/// What is replied to a request.
#[derive(Drop)]
pub enum Reply {
    /// The check that it fails.
    Failed(Failing),
    /// What its command is answered.
    Answered(Answer),
    /// What places cost, of which the answer is the text as CSV.
    Summed(CellSums),
}

/// The status of a refusal.
fn refused_status(refusal: &Refusal) -> StatusCode
    ensures { result ≡ spec.refused_status refusal.now }
{
    match refusal {
        Refusal::Memory => StatusCode::INSUFFICIENT_STORAGE,
        Refusal::Store => StatusCode::INTERNAL_SERVER_ERROR,
        Refusal::ReadFault | Refusal::BadName => StatusCode::BAD_REQUEST,
        Refusal::TooLong => StatusCode::PAYLOAD_TOO_LARGE,
        Refusal::File(_, _) | Refusal::Overflow(_) => StatusCode::UNPROCESSABLE_ENTITY,
        Refusal::Full | Refusal::NumbersSpent | Refusal::GroupTaken => StatusCode::CONFLICT,
        Refusal::NoSuchRun
        | Refusal::NoSuchGroup
        | Refusal::NoSuchEvent
        | Refusal::NoSuchName
        | Refusal::NoBaseline => StatusCode::NOT_FOUND,
    }
}

/// The status of an answer.
fn status_of(answer: &Answer) -> StatusCode
    ensures { result ≡ spec.status_of answer.now }
{
    match answer {
        Answer::Run(_) => StatusCode::CREATED,
        Answer::Held(_) | Answer::Done | Answer::Text(_) => StatusCode::OK,
        Answer::Refused(refusal) => refused_status(refusal),
    }
}

/// Sends a response, whose body is of this status.
fn send_as<T: Stream>(
    stream: &mut T,
    room: &mut [u8; RESPONSE_ROOM],
    status: StatusCode,
    allow: &str,
    body: &[u8],
) -> Exchange
    requires { length allow.now ≤ 32 }
    ensures { (writes : List Written) × Writes T.writes stream.old writes stream.new
        × spec.IsSentAs status (response_text status allow.now body.now) result writes }
{
    if send(stream, room, status, allow, body) {
        Exchange::Sent(status.as_u16())
    } else {
        Exchange::WriteFault(status.as_u16())
    }
}

/// Sends the response of a check that failed. Takes no memory.
pub(crate) fn send_failing<T: Stream>(
    stream: &mut T,
    room: &mut [u8; RESPONSE_ROOM],
    failing: Failing,
) -> Exchange
    ensures { (writes : List Written) × Writes T.writes stream.old writes stream.new × spec.IsFailingSent failing result writes }
{
    let body = failing.body().as_bytes();
    send_as(stream, room, failing.status(), failing.allow(), body)
}

/// Sends the response of a text from where it lies, since it may be long, and hands the stream back.
fn send_text<T: Stream + Drop>(
    alloc: Global,
    stream: T,
    room: &mut [u8; RESPONSE_ROOM],
    text: &SharedText,
) -> (Exchange, T)
    ensures { (writes : List Written) × Writes T.writes stream writes result.1
        × spec.IsSentAs 200 (response_text 200 [] text.now) result.0 writes }
{
    let mut stream = stream;
    match text.as_slice() {
        Some(bytes) => {
            let exchange = send_as(&mut stream, room, StatusCode::OK, "", bytes);
            (exchange, stream)
        }
        None => {
            let end = put_head(room, StatusCode::OK, "", text.len());
            send_pieces(alloc, stream, &room[..end], text)
        }
    }
}

/// Sends the response of an answer, and hands the stream back.
pub(crate) fn send_answer<T: Stream + Drop>(
    alloc: Global,
    stream: T,
    room: &mut [u8; RESPONSE_ROOM],
    answer: &Answer,
) -> (Exchange, T)
    ensures { (writes : List Written) × Writes T.writes stream writes result.1 × spec.IsReplySent (Ok answer.now) result.0 writes }
{
    if let Answer::Text(text) = answer {
        return send_text(alloc, stream, room, text);
    }
    let mut stream = stream;
    let exchange = match line_of(alloc, answer) {
        Ok(line) => send_as(&mut stream, room, status_of(answer), "", line.as_slice()),
        Err(AllocError) => send_failing(&mut stream, room, Failing::NoMemory),
    };
    (exchange, stream)
}

/// Sends the response of a reply, and hands the stream back. A text of CSV of more than `most` bytes is refused as one
/// that there is no memory for.
pub(crate) fn send_reply<T: Stream + Drop>(
    alloc: Global,
    most: usize,
    stream: T,
    room: &mut [u8; RESPONSE_ROOM],
    reply: &Reply,
) -> (Exchange, T)
    ensures { (said : Result given.Answer check.Failing) × spec.Says reply.now said
        × (writes : List Written) × Writes T.writes stream writes result.1 × spec.IsReplySent said result.0 writes }
{
    let mut stream = stream;
    match reply {
        Reply::Failed(failing) => {
            let exchange = send_failing(&mut stream, room, *failing);
            (exchange, stream)
        }
        Reply::Answered(answer) => send_answer(alloc, stream, room, answer),
        Reply::Summed(sums) => send_sums(alloc, most, stream, room, sums),
    }
}
