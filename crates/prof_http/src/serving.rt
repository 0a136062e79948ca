// Clients are served, one at a time (specs/Served.antt).
ghost use Rattle.std.specs.Prelude.{◌≡◌};
ghost use Rattle.run_stores.specs.Calls.{IsFaithful};
ghost use Rattle.http_exchange.specs.Routes as spec;
ghost use Rattle.prof_http.specs.Served.{AreOfRequests, Serves};
ghost use Rattle.warehouse.specs.Taken.{CameTo};

use crate::logging::log;
use crate::{Exchange, Room, answer};
use histories::Limits;
use http_exchange::{Client, Clients, Place, routes};
use matchit::Router;
use run_stores::RunStore;
use std::io;
use std::io::{ErrorKind, IsTerminal};
use std::net::{Ipv4Addr, SocketAddr, TcpListener};
use std::rt::HostRuntime;
use warehouse::Warehouse;

/// How a warehouse is served.
#[derive(Clone, Copy, Debug, PartialEq, Eq)]
pub struct Service {
    /// The port of 127.0.0.1; 0 is one that is free.
    pub port: u16,
    /// How many requests are answered.
    pub requests: u32,
    /// How many bytes an answer may have.
    pub most: usize,
    /// Whether each request is told on standard error.
    pub log: bool,
}

/// Ends the connection to a client that was served, and logs its request where that is wanted. One whose request was
/// refused may still send a body that nobody read; one that was not answered has nothing to see. No guarantee: of the
/// network, and of what is printed, the checker knows nothing.
fn end_served<'a>(
    rt: &HostRuntime,
    clients: &mut Clients<'a>,
    room: &mut Room,
    client: Client<'a>,
    exchange: Exchange,
    is_logged: bool,
) {
    if is_logged {
        // A log that cannot be written stops no service.
        let _logged = log(rt, client.1, client.0.first_line(&room.head), exchange);
    }
    // Nor does a connection that cannot be ended.
    let _ended = match exchange {
        Exchange::Sent(200 | 201) => client.0.close(&mut room.head),
        Exchange::Sent(_) => clients.end(client),
        Exchange::ReadFault | Exchange::WriteFault(_) => Ok(()),
    };
}

/// Answers so many clients, one at a time, and ends the connection of each. One that went away is one of them. False where
/// one could not be accepted.
pub fn serve_on<'a, S: RunStore>(
    rt: &'a HostRuntime,
    clients: &mut Clients<'a>,
    router: &Router<Place>,
    warehouse: &mut Warehouse<S>,
    requests: u32,
    is_logged: bool,
) -> bool
    requires router { router.now ≡ spec.routes }
    ensures limits { warehouse.new.limits ≡ warehouse.old.limits }
    ensures served { Serves S.StoreState requests warehouse.old.limits warehouse.old.store warehouse.new.store }
{
    let mut room = Room::new();
    'clients: for _client in 0..requests {
        let Ok(client) = clients.next(&mut room.head, &mut room.fields) else {
            return false;
        };
        let Some((connection, address)) = client else {
            continue;
        };
        let (exchange, connection) = answer(rt.alloc(), router, &mut room, connection, warehouse);
        let client = (connection, address);
        end_served(rt, clients, &mut room, client, exchange, is_logged);
    }
    let _ended = clients.finish(&mut room.head, &mut room.fields);
    true
}

/// Listens at a port of 127.0.0.1. No guarantee: of the network the checker knows nothing.
fn listener_at(rt: &HostRuntime, port: u16) -> io::Result<TcpListener> {
    TcpListener::bind(rt, SocketAddr::from((Ipv4Addr::LOCALHOST, port)))
}

/// The clients of a port of 127.0.0.1, which is then listened to. No guarantee: as `listener_at`.
fn clients_at<'a>(rt: &'a HostRuntime, port: u16) -> io::Result<(Clients<'a>, SocketAddr)> {
    let listener = listener_at(rt, port)?;
    let address = listener.local_addr()?;
    Ok((Clients::new(rt, listener)?, address))
}

/// Tells a person, on a terminal, why a port is not listened to, where that is known. What cannot be told is not. No guarantee:
/// of what is printed the checker knows nothing.
fn tell_port(rt: &HostRuntime, port: u16, kind: ErrorKind) {
    let found = match kind {
        ErrorKind::AddrInUse => "another program listens at it",
        ErrorKind::PermissionDenied => "no right to listen at it",
        _ => return,
    };
    if rt.stderr().is_terminal() {
        let _told = eprintln!(rt; "port {port}: {found}");
    }
}

/// Listens at a port of 127.0.0.1, and prints which; or prints that there is no memory, or that the port is taken, which
/// is a failed read. No guarantee: as `listener_at`.
fn listen<'a>(rt: &'a HostRuntime, port: u16) -> io::Result<Option<Clients<'a>>> {
    match clients_at(rt, port) {
        Ok((clients, address)) => {
            println!(rt; "listening {address}")?;
            Ok(Some(clients))
        }
        Err(error) if error.kind() == ErrorKind::OutOfMemory => {
            println!(rt; "refused: out of memory")?;
            Ok(None)
        }
        Err(error) => {
            println!(rt; "refused: read failed")?;
            tell_port(rt, port, error.kind());
            Ok(None)
        }
    }
}

/// Prints why nothing is served, or no more, and answers the status. No guarantee: of what is printed the checker knows
/// nothing.
fn refuse(rt: &HostRuntime, refusal: &str) -> io::Result<u8> {
    println!(rt; "refused: {refusal}")?;
    Ok(1)
}

/// Prints how a server ended, and answers the status. No guarantee: as `refuse`.
fn tell_end(rt: &HostRuntime, requests: u32, is_done: bool) -> io::Result<u8> {
    if !is_done {
        return refuse(rt, "read failed");
    }
    println!(rt; "served {requests}")?;
    Ok(0)
}

/// Serves an opened store, under the standard limits, on a port of 127.0.0.1: prints which, answers so many requests, and
/// prints that. A port that is taken, and a client that cannot be accepted, are a failed read. It hands back the status,
/// where all that the server itself says was printed, and the store.
pub fn serve_over<S: RunStore>(rt: &HostRuntime, store: S, service: Service) -> (io::Result<u8>, S)
    ensures { IsFaithful S.StoreState result.1 → CameTo S.StoreState (AreOfRequests S.StoreState service.requests store result.1) store result.1 }
{
    let mut warehouse = Warehouse::new(store, Limits::standard()).with_most(service.most);
    let Ok(router) = routes(rt.alloc()) else {
        return (refuse(rt, "out of memory"), warehouse.into_store());
    };
    // Routes that are alive at a way out cost the prover much, so there is one.
    let ended = match listen(rt, service.port) {
        Ok(Some(mut clients)) => {
            let requests = service.requests;
            let is_done = serve_on(
                rt,
                &mut clients,
                &router,
                &mut warehouse,
                requests,
                service.log,
            );
            tell_end(rt, requests, is_done)
        }
        Ok(None) => Ok(1),
        Err(error) => Err(error),
    };
    drop(router);
    (ended, warehouse.into_store())
}
