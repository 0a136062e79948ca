// The text of sums is sent as it is made.
ghost use Rattle.std.specs.Prelude.{◌≡◌, [], length, List, None, Ok, IfSome};
ghost use Rattle.report_texts.specs.Csv.{csv_text};
ghost use Rattle.histories.specs.declared.answers.Answer as given;
ghost use Rattle.histories.specs.declared.answers.Answer.TheVariants.{Refused, Text};
ghost use Rattle.histories.specs.declared.answers.Refusal.TheVariants.{Memory};
ghost use Rattle.warehouse.specs.Answered.{IsGivenFor};
ghost use Rattle.http_exchange.specs.Responses.{head_text, response_text};
ghost use Rattle.http_exchange.specs.Streams.{Written, Writes};
ghost use Rattle.prof_http.specs.Replies.{IsReplySent, IsSentAs};

use crate::replies::{Exchange, send_answer};
use byte_io::{SharedText, TextSink};
use cost_exports::{CellSums, Unwritten, csv_length, write_csv};
use histories::{Answer, Refusal};
use http_exchange::{RESPONSE_ROOM, StatusCode, Stream, put_head, write_all};
use std::alloc::Global;
use std::io;
use std::io::ErrorKind;

/// A stream that a text is sent over, a piece at a time, with a head before its first piece: as long as there is none,
/// another response can be sent.
#[derive(Drop)]
pub(crate) struct Sending<'a, T: Drop> {
    stream: T,
    /// What is sent before the next piece.
    head: &'a [u8],
}

impl<T: Drop> Sending<'_, T> {
    /// The stream, with or without the head.
    fn into_stream(self) -> T
        ensures { result ≡ self.entry.stream }
    {
        let Sending { stream, .. } = self;
        stream
    }
}

impl<T: Stream + Drop> TextSink for Sending<'_, T> {
    ghost use Rattle.std.specs.Prelude.{◌≡◌, ◌++◌, [], List, true, false};
    ghost use Rattle.http_exchange.specs.Streams.{Written, Writes, WentAs};

    ghost takes = { λ old piece new. ((writes : List Written) × Writes T.writes old.stream writes new.stream
        × WentAs true (old.head.now ++ piece) writes) × (new.head.now ≡ []) };

    ghost stops = { λ old piece new. (writes : List Written) × Writes T.writes old.stream writes new.stream
        × WentAs false (old.head.now ++ piece) writes };

    fn take_piece(&mut self, piece: &[u8]) -> io::Result<()> {
        let head = self.head;
        self.head = b"";
        if !write_all(&mut self.stream, head) {
            return Err(io::Error::from(ErrorKind::BrokenPipe));
        }
        if !write_all(&mut self.stream, piece) {
            return Err(io::Error::from(ErrorKind::BrokenPipe));
        }
        Ok(())
    }
}

/// Says that there is no memory for an answer.
fn send_refusal<T: Stream + Drop>(
    alloc: Global,
    stream: T,
    room: &mut [u8; RESPONSE_ROOM],
) -> (Exchange, T)
    ensures { (writes : List Written) × Writes T.writes stream writes result.1 × IsReplySent (Ok (Refused Memory)) result.0 writes }
{
    let refusal = Answer::Refused(Refusal::Memory);
    send_answer(alloc, stream, room, &refusal)
}

/// Sends the last bytes of a response.
fn send_end<T: Stream>(stream: &mut T, bytes: &[u8]) -> Exchange
    ensures { (writes : List Written) × Writes T.writes stream.old writes stream.new × IsSentAs 200 bytes.now result writes }
{
    let code = StatusCode::OK.as_u16();
    if write_all(stream, bytes) {
        Exchange::Sent(code)
    } else {
        Exchange::WriteFault(code)
    }
}

/// Sends a text in pieces under this head.
pub(crate) fn send_pieces<T: Stream + Drop>(
    alloc: Global,
    stream: T,
    head: &[u8],
    text: &SharedText,
) -> (Exchange, T)
    requires { head.now ≡ head_text 200 [] (length text.now) }
    ensures { (writes : List Written) × Writes T.writes stream writes result.1 × IsSentAs 200 (response_text 200 [] text.now) result.0 writes }
{
    let mut sending = Sending { stream, head };
    match text.write(alloc, &mut sending) {
        Ok(()) => {
            let Sending { stream, head } = sending;
            let mut stream = stream;
            let exchange = send_end(&mut stream, head);
            (exchange, stream)
        }
        Err(_) => {
            let code = StatusCode::OK.as_u16();
            (Exchange::WriteFault(code), sending.into_stream())
        }
    }
}

/// Sends a text of CSV under this head, as it is made. Where there is no memory from the start, nothing is sent.
fn send_csv<T: Stream + Drop>(
    alloc: Global,
    stream: T,
    head: &[u8],
    sums: &CellSums,
) -> (Option<Exchange>, T)
    requires { head.now ≡ head_text 200 [] (length (csv_text sums.now)) }
    ensures sent { IfSome result.0 (λ exchange. (writes : List Written) × Writes T.writes stream writes result.1
        × IsReplySent (Ok (Text (csv_text sums.now))) exchange writes) }
    ensures none { result.0 ≡ None → result.1 ≡ stream }
{
    let mut sending = Sending { stream, head };
    match write_csv(alloc, sums, &mut sending) {
        Ok(()) => {
            let Sending { stream, head } = sending;
            let mut stream = stream;
            // No text is empty, so its head has gone, and this is none.
            let exchange = send_end(&mut stream, head);
            (Some(exchange), stream)
        }
        Err(Unwritten::Memory) => (None, sending.into_stream()),
        Err(Unwritten::Failed(_error)) => {
            let code = StatusCode::OK.as_u16();
            (Some(Exchange::WriteFault(code)), sending.into_stream())
        }
    }
}

/// Sends the text of sums as CSV. Its bytes are counted first, for the head; one of more than `most` bytes is refused as
/// one that there is no memory for. Neither pass holds the text.
pub(crate) fn send_sums<T: Stream + Drop>(
    alloc: Global,
    most: usize,
    stream: T,
    room: &mut [u8; RESPONSE_ROOM],
    sums: &CellSums,
) -> (Exchange, T)
    ensures { (answer : given.Answer) × IsGivenFor answer (Ok sums.now)
        × (writes : List Written) × Writes T.writes stream writes result.1 × IsReplySent (Ok answer) result.0 writes }
{
    let Ok(size) = csv_length(alloc, most, sums) else {
        return send_refusal(alloc, stream, room);
    };
    let end = put_head(room, StatusCode::OK, "", size);
    match send_csv(alloc, stream, &room[..end], sums) {
        (Some(exchange), stream) => (exchange, stream),
        (None, stream) => send_refusal(alloc, stream, room),
    }
}
