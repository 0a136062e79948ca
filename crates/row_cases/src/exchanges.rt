// Requests of a client in memory.
ghost use Rattle.std.specs.Prelude.{◌≤◌, length};

use crate::steps::{Visit, visit_empty};
use prof_library::{
    Exchange, Limits, Room, RunStore, Stream, StreamFault, Warehouse, answer, routes,
};
use std::alloc::{AllocError, Global};
use std::test::Fail;

/// A client that has sent a request, and the bytes of the response.
#[derive(Drop)]
struct Client {
    left: &'static [u8],
    response: Vec<u8>,
}

impl Client {
    fn give(&mut self, buf: &mut [u8]) -> usize
        ensures { result ≤ length buf.new }
    {
        let count = self.left.len().min(buf.len());
        let (front, rest) = self.left.split_at(count);
        buf[..count].copy_from_slice(front);
        self.left = rest;
        count
    }
}

impl Stream for Client {
    ghost reads = { λ from outcome to. Unit {0} };

    ghost writes = { λ from written to. Unit {0} };

    ghost hears = { λ from to. Unit {0} };

    fn read(&mut self, buf: &mut [u8]) -> Result<usize, StreamFault> {
        Ok(self.give(buf))
    }

    fn write(&mut self, bytes: &[u8]) -> Result<usize, StreamFault> {
        match self.response.extend_from_slice(bytes) {
            Ok(()) => Ok(bytes.len()),
            Err(AllocError) => Err(StreamFault),
        }
    }

    fn head_came(&mut self) {}
}

/// Does an exchange, and fails where its response is another.
fn exchange<S: RunStore>(
    alloc: Global,
    room: &mut Room,
    warehouse: &mut Warehouse<S>,
    request: &'static [u8],
    status: u16,
    wanted: &'static str,
) -> Result<(), Fail> {
    let router = routes(alloc)?;
    let client = Client {
        left: request,
        response: Vec::new(alloc),
    };
    let (end, client) = answer(alloc, &router, room, client, warehouse);
    let is_wanted = end == Exchange::Sent(status)
        && client.response.as_slice() == wanted.as_bytes();
    drop((router, client));
    if !is_wanted {
        Err(wanted)?;
    }
    Ok(())
}

const IMPORT: &[u8] =
    b"POST /runs/folded?label=t HTTP/1.1\r\nHost: a\r\nContent-Length: 6\r\n\r\na;b 2\n";

/// Requests to a store, one after another.
pub(crate) fn exchanges_over<S: RunStore + Drop>(alloc: Global, store: S) -> Result<(), Fail> {
    let mut warehouse = Warehouse::new(store, Limits::standard());
    let mut room = Room::new();
    for (request, status, wanted) in [
        (
            IMPORT,
            201,
            "HTTP/1.1 201 Created\r\nContent-Type: text/plain\r\nContent-Length: 6\r\nConnection: close\r\n\r\nrun 1\n",
        ),
        (
            IMPORT,
            200,
            "HTTP/1.1 200 OK\r\nContent-Type: text/plain\r\nContent-Length: 7\r\nConnection: close\r\n\r\nheld 1\n",
        ),
        (
            b"GET /reports/function?event=samples HTTP/1.1\r\nHost: a\r\n\r\n",
            200,
            "HTTP/1.1 200 OK\r\nContent-Type: text/plain\r\nContent-Length: 67\r\nConnection: close\r\n\r\nby function samples\n2 100.00% total\n2 100.00% ???:b\n0 0.00% (rest)\n",
        ),
        (
            b"POST /runs/folded?label=t HTTP/1.1\r\nHost: a\r\n\r\n",
            411,
            "HTTP/1.1 411 Length Required\r\nContent-Type: text/plain\r\nContent-Length: 16\r\nConnection: close\r\n\r\nlength required\n",
        ),
        (
            b"GET /nothing HTTP/1.1\r\nHost: a\r\n\r\n",
            404,
            "HTTP/1.1 404 Not Found\r\nContent-Type: text/plain\r\nContent-Length: 10\r\nConnection: close\r\n\r\nnot found\n",
        ),
    ] {
        exchange(alloc, &mut room, &mut warehouse, request, status, wanted)?;
    }
    Ok(())
}

pub fn a_stack_over_http(alloc: Global) -> Result<(), Fail> {
    visit_empty(alloc, Visit::Exchanges)
}
