// The exchange (specs/Exchanges.antt).
ghost use Rattle.std.specs.Prelude.{◌≡◌, drop, List, Result};
ghost use Rattle.httparse.specs.Grammar.{RequestHead};
ghost use Rattle.httparse.specs.Spans.{IsRequestWithin};
ghost use Rattle.byte_io.specs.Outcomes.{Outcome};
ghost use Rattle.byte_io.specs.Reads.{Reads};
ghost use Rattle.histories.specs.History.{Ask};
ghost use Rattle.histories.specs.Requests.{command_read};
ghost use Rattle.histories.specs.declared.answers.Answer as given;
ghost use Rattle.requests.specs.Plain.{plain_command, plain_selection};
ghost use Rattle.requests.specs.declared.queries.Query.TheVariants.{Csv};
ghost use Rattle.http_exchange.specs.Heads.{IsHeadAt};
ghost use Rattle.http_exchange.specs.Requests.{request_of};
ghost use Rattle.http_exchange.specs.Routes as spec;
ghost use Rattle.http_exchange.specs.declared.failings.Failing as check;
ghost use Rattle.prof_http.specs.Exchanges.{IsReplied, WasExchanged};
ghost use Rattle.prof_http.specs.Performed.{IsFulfilled};
ghost use Rattle.prof_http.specs.Replies.{Says};

use crate::replies::{Exchange, Reply, send_failing, send_reply};
use crate::rooms::Room;
use http_exchange::{Body, Failing, HeadEnd, Place, Stream, body_comes, read_head, read_request};
use httparse::spans::{HeaderSpan, RequestSpans};
use matchit::Router;
use requests::{Command, Query, Selection};
use run_stores::RunStore;
use std::alloc::Global;
use warehouse::Warehouse;

/// Sums up what places cost, for a text of CSV, and hands the stream back.
fn sum_up<T: Stream + Drop, S: RunStore>(
    alloc: Global,
    warehouse: &mut Warehouse<S>,
    selection: &Selection<&[u8]>,
    body: Body<'_, T>,
) -> (Reply, T)
    ensures limits { warehouse.new.limits ≡ warehouse.old.limits }
    ensures done { IsFulfilled S.StoreState T.reads warehouse.old.limits (λ outcomes. Ask (Csv (plain_selection selection.now))) body.entry
        result.0 result.1 warehouse.old.store warehouse.new.store }
{
    let Body { stream, .. } = body;
    match warehouse.csv(alloc, selection) {
        Ok(sums) => (Reply::Summed(sums), stream),
        Err(answer) => (Reply::Answered(answer), stream),
    }
}

/// Replies to a request that passed its checks: what it asks for is done over its body, which no question reads. Hands the
/// stream back.
fn fulfil<T: Stream + Drop, S: RunStore>(
    alloc: Global,
    warehouse: &mut Warehouse<S>,
    command: &Command<(), &[u8]>,
    body: Body<'_, T>,
) -> (Reply, T)
    ensures limits { warehouse.new.limits ≡ warehouse.old.limits }
    ensures done { IsFulfilled S.StoreState T.reads warehouse.old.limits (command_read (plain_command command.now)) body.entry
        result.0 result.1 warehouse.old.store warehouse.new.store }
{
    match command {
        Command::Ask(Query::Csv(selection)) => sum_up(alloc, warehouse, selection, body),
        Command::Ask(query) => {
            let Body { stream, .. } = body;
            (Reply::Answered(warehouse.ask(alloc, query)), stream)
        }
        _ => {
            let mut body = body;
            let answer = warehouse.perform(alloc, command, &mut body);
            let Body { stream, .. } = body;
            (Reply::Answered(answer), stream)
        }
    }
}

/// Replies to the request whose head `read_head` found in these bytes: its command is done, over the body
/// behind the head, or the check that it fails is said. Hands the stream back.
fn reply_to<T: Stream + Drop, S: RunStore>(
    alloc: Global,
    router: &Router<Place>,
    warehouse: &mut Warehouse<S>,
    bytes: &[u8],
    fields: &[HeaderSpan],
    spans: RequestSpans,
    stream: T,
) -> (Reply, T)
    requires router { router.now ≡ spec.routes }
    requires within { IsRequestWithin bytes.now fields.now spans }
    ensures limits { warehouse.new.limits ≡ warehouse.old.limits }
    ensures replied { (head : RequestHead) → IsHeadAt bytes.now fields.now spans head
        → (reads : List Outcome) × Reads T.reads stream reads result.1 × ((said : Result given.Answer check.Failing) → Says result.0 said
        → IsReplied S.StoreState warehouse.old.limits (request_of warehouse.old.limits.bytes head) (drop spans.len bytes.now) reads
        said warehouse.old.store warehouse.new.store) }
{
    let limit = warehouse.limits().bytes;
    match read_request(alloc, router, limit, bytes, fields, spans) {
        Ok(request) => {
            let body = Body {
                stream,
                held: &bytes[spans.len..],
                left: request.length,
            };
            let replied = fulfil(alloc, warehouse, &request.asked.lent(), body);
            // (faster to prove than at the end)
            drop(request);
            replied
        }
        Err(failing) => (Reply::Failed(failing), stream),
    }
}

/// Reads a request from a stream, does its command over the warehouse, and sends the response; hands the
/// stream back. The head of a request and that of its response stand in `room`, whatever that held before, so they
/// take no memory; the body of an import is handed to the warehouse as it is read. `router` is made by
/// `http_exchange::routes`; both may serve any number of exchanges.
pub fn answer<T: Stream + Drop, S: RunStore>(
    alloc: Global,
    router: &Router<Place>,
    room: &mut Room,
    stream: T,
    warehouse: &mut Warehouse<S>,
) -> (Exchange, T)
    requires router { router.now ≡ spec.routes }
    ensures limits { warehouse.new.limits ≡ warehouse.old.limits }
    ensures exchanged { WasExchanged S.StoreState warehouse.old.limits T.reads T.writes T.hears
        result.0 stream result.1 warehouse.old.store warehouse.new.store }
{
    let mut stream = stream;
    match read_head(&mut stream, &mut room.head, &mut room.fields) {
        Ok((spans, filled)) => {
            stream.head_came();
            let most = warehouse.most();
            let head = &room.head[..filled];
            let fields = &room.fields;
            let (reply, stream) = reply_to(alloc, router, warehouse, head, fields, spans, stream);
            send_reply(alloc, most, stream, &mut room.response, &reply)
        }
        Err(HeadEnd::Bad) => {
            let exchange = send_failing(&mut stream, &mut room.response, Failing::BadRequest);
            (exchange, stream)
        }
        Err(HeadEnd::Failed) => (Exchange::ReadFault, stream),
    }
}
