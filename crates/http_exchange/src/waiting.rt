// A client that waits.
use crate::connection::from_now;
use crate::{FIELD_LIMIT, HEAD_LIMIT, Head, find_head};
use httparse::spans::HeaderSpan;
use mio::net::TcpStream;
use mio::{Interest, Registry, Token};
use std::io;
use std::io::{ErrorKind, Read};
use std::net::SocketAddr;
use std::rt::HostRuntime;
use std::time::Instant;

/// How many seconds all of a head may take.
const HEAD_SECONDS: u64 = 10;

/// How many seconds bytes that nobody asked for are read before a connection is closed.
const SECONDS_BEHIND: u64 = 1;

/// How many pieces of such bytes are read before others are looked at.
const PIECES_BEHIND: usize = 16;

/// What is waited for on a connection.
#[derive(Clone, Copy, PartialEq, Eq)]
enum Awaited {
    /// The head of a request.
    Head,
    /// That the client ends, which was answered, and may still send what nobody reads: so it sees the response and no
    /// reset.
    End,
}

/// What is seen of a client that waits.
#[derive(Clone, Copy, PartialEq, Eq)]
pub(crate) enum Sight {
    /// It waits on.
    Waits,
    /// It is to be served: its head is there, or no head will come, or the time for it is over.
    Ready,
    /// Nothing is to be done for it.
    Done,
}

/// A client that waits.
#[derive(Drop)]
pub(crate) struct Waiting {
    pub socket: TcpStream,
    pub address: SocketAddr,
    pub token: Token,
    pub until: Instant,
    /// Whether bytes may have come since it was looked at last.
    pub stirred: bool,
    awaited: Awaited,
    /// Whether the system tells of its bytes.
    is_told: bool,
}

impl Waiting {
    /// A client of which the head of a request has to come. No guarantee: of the clock and of a socket the checker knows
    /// nothing, here and below.
    pub(crate) fn for_head(
        rt: &HostRuntime,
        socket: TcpStream,
        address: SocketAddr,
        token: Token,
    ) -> io::Result<Waiting> {
        Ok(Waiting {
            socket,
            address,
            token,
            until: from_now(rt, HEAD_SECONDS)?,
            stirred: true,
            awaited: Awaited::Head,
            is_told: false,
        })
    }

    /// A client that was answered, and may still send what nobody reads.
    pub(crate) fn for_end(
        rt: &HostRuntime,
        socket: TcpStream,
        address: SocketAddr,
        token: Token,
    ) -> io::Result<Waiting> {
        Ok(Waiting {
            socket,
            address,
            token,
            until: from_now(rt, SECONDS_BEHIND)?,
            stirred: true,
            awaited: Awaited::End,
            is_told: false,
        })
    }

    /// Whether it was answered.
    pub(crate) fn is_answered(&self) -> bool {
        self.awaited == Awaited::End
    }

    /// Looks at it. Both rooms are written over.
    pub(crate) fn look(
        &mut self,
        registry: &Registry,
        now: Instant,
        head: &mut [u8; HEAD_LIMIT],
        fields: &mut [HeaderSpan; FIELD_LIMIT],
    ) -> Sight {
        let is_late = self.until <= now;
        let awaited = self.awaited;
        match awaited {
            Awaited::Head if is_late => Sight::Ready,
            Awaited::End if is_late => Sight::Done,
            _ if !self.stirred => Sight::Waits,
            Awaited::Head => self.look_for_head(registry, head, fields),
            Awaited::End => self.look_for_end(registry, head),
        }
    }

    /// Whether its head is there. One of which the system cannot tell is served at once.
    fn look_for_head(
        &mut self,
        registry: &Registry,
        head: &mut [u8; HEAD_LIMIT],
        fields: &mut [HeaderSpan; FIELD_LIMIT],
    ) -> Sight {
        if self.has_head(head, fields) || !self.is_told_of(registry) {
            Sight::Ready
        } else {
            Sight::Waits
        }
    }

    /// Whether it has ended. One of which the system cannot tell is let go at once.
    fn look_for_end(&mut self, registry: &Registry, piece: &mut [u8; HEAD_LIMIT]) -> Sight {
        if self.has_ended(piece) || !self.is_told_of(registry) {
            Sight::Done
        } else {
            Sight::Waits
        }
    }

    /// Has the system tell of its bytes, if it does not yet. What came before is told too.
    fn is_told_of(&mut self, registry: &Registry) -> bool {
        if !self.is_told {
            let (token, wanted) = (self.token, Interest::READABLE);
            self.is_told = registry.register(&mut self.socket, token, wanted).is_ok();
        }
        self.is_told
    }

    /// The system tells of it no more.
    pub(crate) fn forget(&mut self, registry: &Registry) {
        if self.is_told {
            let _forgotten = registry.deregister(&mut self.socket);
            self.is_told = false;
        }
    }

    /// Whether its head is there, or none will come of what is there, or nothing more will come. The bytes stay in the
    /// socket.
    fn has_head(
        &mut self,
        head: &mut [u8; HEAD_LIMIT],
        fields: &mut [HeaderSpan; FIELD_LIMIT],
    ) -> bool {
        match self.socket.peek(head) {
            Ok(0) => true,
            Ok(count) => {
                self.stirred = false;
                find_head(&head[..count], fields) != Head::Unfinished
            }
            Err(error) if error.kind() == ErrorKind::WouldBlock => {
                self.stirred = false;
                false
            }
            Err(error) => error.kind() != ErrorKind::Interrupted,
        }
    }

    /// Reads away what it sends, and tells whether it has ended.
    fn has_ended(&mut self, piece: &mut [u8; HEAD_LIMIT]) -> bool {
        for _ in 0..PIECES_BEHIND {
            match self.socket.read(piece) {
                Ok(0) => return true,
                Ok(_) => {}
                Err(error) if error.kind() == ErrorKind::WouldBlock => {
                    self.stirred = false;
                    return false;
                }
                Err(error) => return error.kind() != ErrorKind::Interrupted,
            }
        }
        false
    }
}
