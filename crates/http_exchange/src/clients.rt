// The clients of a port.
use crate::connection::Connection;
use crate::waiting::{Sight, Waiting};
use crate::{FIELD_LIMIT, HEAD_LIMIT};
use httparse::spans::HeaderSpan;
use mio::net::{TcpListener, TcpStream};
use mio::{Events, Interest, Poll, Token};
use std::io::ErrorKind;
use std::net::SocketAddr;
use std::rt::HostRuntime;
use std::time::{Duration, Instant};
use std::{io, net};

/// How many clients wait at once. Where one more comes, the first of them is let go.
const MOST_WAITING: usize = 512;

/// What the system tells of at a time.
const MOST_EVENTS: usize = 64;

/// The port among what the system tells of.
const PORT: Token = Token(0);

/// A client that is to be served, and its address.
pub type Client<'a> = (Connection<'a>, SocketAddr);

/// The clients of a port, those that were accepted and wait among them.
#[derive(Drop)]
pub struct Clients<'a> {
    rt: &'a HostRuntime,
    listener: TcpListener,
    poll: Poll,
    events: Events,
    /// In the order in which they came.
    waiting: Vec<Waiting>,
    /// By how many numbers the system has told of clients.
    tokens: usize,
    /// Whether some may have come whom nobody has accepted.
    has_new: bool,
}

impl<'a> Clients<'a> {
    /// The clients of a port that is listened to. No guarantee: of the network the checker knows nothing, here and below.
    pub fn new(rt: &'a HostRuntime, listener: net::TcpListener) -> io::Result<Clients<'a>> {
        listener.set_nonblocking(true)?;
        let mut listener = TcpListener::from_std(listener);
        let poll = Poll::new(rt)?;
        poll.registry()
            .register(&mut listener, PORT, Interest::READABLE)?;
        Ok(Clients {
            rt,
            listener,
            poll,
            events: Events::with_capacity(rt.alloc(), MOST_EVENTS)?,
            waiting: Vec::with_capacity(rt.alloc(), MOST_WAITING)?,
            tokens: 0,
            has_new: true,
        })
    }

    /// The next client that is to be served: its head has come, or none will come in time. None where one went away
    /// before it was accepted. Both rooms are written over.
    pub fn next(
        &mut self,
        head: &mut [u8; HEAD_LIMIT],
        fields: &mut [HeaderSpan; FIELD_LIMIT],
    ) -> io::Result<Option<Client<'a>>> {
        'turns: for _ in 0..u64::MAX {
            if let Some(client) = self.take_ready(head, fields)? {
                return Ok(Some(client));
            }
            if !self.has_new {
                self.wait()?;
                continue 'turns;
            }
            match self.listener.accept() {
                Ok((socket, address)) => self.admit(socket, address)?,
                Err(error) if error.kind() == ErrorKind::WouldBlock => self.has_new = false,
                Err(error) if error.kind() == ErrorKind::ConnectionAborted => return Ok(None),
                Err(error) => return Err(error),
            }
        }
        Err(ErrorKind::TimedOut.into())
    }

    /// A number by which the system may tell of a client.
    fn next_token(&mut self) -> Token {
        self.tokens = self.tokens.wrapping_add(1).max(1);
        Token(self.tokens)
    }

    /// Has a client that was accepted wait for its head. Where too many wait, the time of the first is over.
    fn admit(&mut self, socket: TcpStream, address: SocketAddr) -> io::Result<()> {
        let token = self.next_token();
        let client = Waiting::for_head(self.rt, socket, address, token)?;
        self.waiting.push(client)?;
        if self.waiting.len() > MOST_WAITING
            && let Some(first) = self.waiting.first_mut()
        {
            first.until = Instant::now(self.rt)?;
        }
        Ok(())
    }

    /// Ends the connection to a client that was answered and may still send what nobody reads: that is read away beside
    /// others, for a second at most.
    pub fn end(&mut self, (connection, address): Client<'a>) -> io::Result<()> {
        let socket = TcpStream::from_std(connection.into_half_closed()?);
        let token = self.next_token();
        let client = Waiting::for_end(self.rt, socket, address, token)?;
        self.waiting.push(client)?;
        Ok(())
    }

    /// Waits until all clients that were answered have ended, or their time is over.
    pub fn finish(
        &mut self,
        head: &mut [u8; HEAD_LIMIT],
        fields: &mut [HeaderSpan; FIELD_LIMIT],
    ) -> io::Result<()> {
        self.waiting.retain(|client| client.is_answered());
        'turns: for _ in 0..u64::MAX {
            drop(self.take_ready(head, fields)?);
            if self.waiting.is_empty() {
                return Ok(());
            }
            self.wait()?;
        }
        Ok(())
    }

    /// The first client that is to be served, of those that were accepted. Those for whom nothing is to be done are let
    /// go.
    fn take_ready(
        &mut self,
        head: &mut [u8; HEAD_LIMIT],
        fields: &mut [HeaderSpan; FIELD_LIMIT],
    ) -> io::Result<Option<Client<'a>>> {
        let now = Instant::now(self.rt)?;
        let mut at = 0;
        for _ in 0..self.waiting.len() {
            if at >= self.waiting.len() {
                return Ok(None);
            }
            match self.waiting[at].look(self.poll.registry(), now, head, fields) {
                Sight::Waits => at += 1,
                Sight::Done => drop(self.waiting.remove(at)),
                Sight::Ready => {
                    let client = self.waiting.remove(at);
                    return Ok(Some(self.begin(client)));
                }
            }
        }
        Ok(None)
    }

    /// A client that has waited is served now.
    fn begin(&mut self, client: Waiting) -> Client<'a> {
        let mut client = client;
        client.forget(self.poll.registry());
        let Waiting {
            socket,
            address,
            until,
            ..
        } = client;
        let socket = net::TcpStream::from(socket);
        (Connection::new(self.rt, socket, until), address)
    }

    /// Waits until the system tells of a client, or the time of one is over.
    fn wait(&mut self) -> io::Result<()> {
        let longest = self.longest_wait()?;
        self.poll.poll(&mut self.events, longest)?;
        for event in self.events.iter() {
            let token = event.token();
            if token == PORT {
                self.has_new = true;
            }
            for client in self.waiting.iter_mut() {
                if client.token == token {
                    client.stirred = true;
                }
            }
        }
        Ok(())
    }

    /// How long it is until the time of a client is over, if any waits.
    fn longest_wait(&self) -> io::Result<Option<Duration>> {
        let Some(until) = self.waiting.iter().map(|client| client.until).min() else {
            return Ok(None);
        };
        let now = Instant::now(self.rt)?;
        Ok(Some(until.saturating_duration_since(now)))
    }
}
