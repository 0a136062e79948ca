// A socket as a stream. A read or write that comes too late fails, so a client that sends slowly, or goes
// away, does not stop the others.
ghost use Rattle.std.specs.Io.{ReadsAtMost, WritesAtMost};

use crate::{HEAD_LIMIT, Stream, StreamFault};
use std::io;
use std::io::{ErrorKind, Read, Write};
use std::net::{Shutdown, TcpStream};
use std::rt::HostRuntime;
use std::time::{Duration, Instant};

/// How many seconds a piece of a body or of a response may take, and how many bytes it has.
const PIECE_SECONDS: u64 = 30;

const PIECE: usize = 65_536;

/// How often bytes that nobody asked for are read, as many as a head may have at a time, before a connection is closed.
const PIECES_BEHIND: usize = 16;

/// How many bytes of a request tell which one it was.
const FIRST_BYTES: usize = 512;

/// What is under way on a connection.
#[derive(Clone, Copy, PartialEq, Eq)]
enum Stage {
    Head,
    Body,
    Response,
}

/// So many seconds from now. No guarantee: of the clock the checker knows nothing.
pub(crate) fn from_now(rt: &HostRuntime, seconds: u64) -> io::Result<Instant> {
    match Instant::now(rt)?.checked_add(Duration::from_secs(seconds)) {
        Some(end) => Ok(end),
        None => Err(io::Error::from(ErrorKind::TimedOut)),
    }
}

/// A client whose request is read and answered.
#[derive(Drop)]
pub struct Connection<'a> {
    rt: &'a HostRuntime,
    socket: TcpStream,
    stage: Stage,
    /// Until when bytes are waited for, and how many came or went since that was last put off.
    until: Instant,
    moved: usize,
    /// How many bytes were read before the head was there.
    came: usize,
    /// Whether reads and writes wait for the client. Up to the first that has to, they are tried without.
    waits: bool,
}

impl<'a> Connection<'a> {
    /// The connection of a socket that does not wait, whose head has to come until then. No guarantee: of a socket the checker knows
    /// nothing.
    pub(crate) fn new(rt: &'a HostRuntime, socket: TcpStream, until: Instant) -> Connection<'a> {
        Connection {
            rt,
            socket,
            stage: Stage::Head,
            until,
            moved: 0,
            came: 0,
            waits: false,
        }
    }

    /// How long the next read or write may take. No guarantee: of the clock the checker knows nothing.
    fn left(&self) -> io::Result<Duration> {
        let now = Instant::now(self.rt)?;
        Ok(self.until.saturating_duration_since(now))
    }

    /// Waits anew from now on. No guarantee: as `left`.
    fn put_off(&mut self, seconds: u64) -> io::Result<()> {
        self.until = from_now(self.rt, seconds)?;
        self.moved = 0;
        Ok(())
    }

    /// Counts bytes that came or went: once they are a piece, the next piece is waited for. So a client that
    /// sends or takes a byte now and then is not waited for. No guarantee: as `left`.
    fn count(&mut self, bytes: usize) -> io::Result<()> {
        self.moved = self.moved.saturating_add(bytes);
        if self.stage != Stage::Head && self.moved >= PIECE {
            self.put_off(PIECE_SECONDS)?;
        }
        Ok(())
    }

    /// Enters a stage, whose first piece is waited for. No guarantee: as `left`.
    fn enter(&mut self, stage: Stage) -> io::Result<()> {
        if self.stage != stage {
            self.stage = stage;
            self.put_off(PIECE_SECONDS)?;
        }
        Ok(())
    }

    /// Has reads and writes wait from now on. No guarantee: as `new`.
    fn begin_to_wait(&mut self) -> io::Result<()> {
        self.socket.set_nonblocking(false)?;
        self.waits = true;
        Ok(())
    }

    /// Reads what comes in time. A wait of no time is an error of the system, as it is meant to be.
    fn wait_to_read(&mut self, buf: &mut [u8]) -> io::Result<usize>
        ensures { ReadsAtMost result buf.new }
    {
        let left = self.left()?;
        self.socket.set_read_timeout(Some(left))?;
        self.socket.read(buf)
    }

    /// Reads once: what is there, or what comes in time.
    fn read_once(&mut self, buf: &mut [u8]) -> io::Result<usize>
        ensures { ReadsAtMost result buf.new }
    {
        if !self.waits {
            match self.socket.read(buf) {
                Err(error) if error.kind() == ErrorKind::WouldBlock => self.begin_to_wait()?,
                read => return read,
            }
        }
        self.wait_to_read(buf)
    }

    /// Reads while there is time. A halt of the server interrupts a wait, which is then taken up once more.
    fn read_in_time(&mut self, buf: &mut [u8]) -> io::Result<usize>
        ensures { ReadsAtMost result buf.new }
    {
        let count = match self.read_once(buf) {
            Err(error) if error.kind() == ErrorKind::Interrupted => self.read_once(buf)?,
            read => read?,
        };
        self.count(count)?;
        Ok(count)
    }

    /// Writes what goes in time.
    fn wait_to_write(&mut self, bytes: &[u8]) -> io::Result<usize>
        ensures { WritesAtMost result bytes.now }
    {
        let left = self.left()?;
        self.socket.set_write_timeout(Some(left))?;
        self.socket.write(bytes)
    }

    /// Writes once, a piece at most: the system may take more at once than the client does in the time of a piece.
    fn write_once(&mut self, bytes: &[u8]) -> io::Result<usize>
        ensures { WritesAtMost result bytes.now }
    {
        let piece = &bytes[..PIECE.min(bytes.len())];
        if !self.waits {
            match self.socket.write(piece) {
                Err(error) if error.kind() == ErrorKind::WouldBlock => self.begin_to_wait()?,
                written => return written,
            }
        }
        self.wait_to_write(piece)
    }

    /// Writes while there is time, and once more after a halt, as `read_in_time`. What the command took is not the
    /// client's time.
    fn write_in_time(&mut self, bytes: &[u8]) -> io::Result<usize>
        ensures { WritesAtMost result bytes.now }
    {
        self.enter(Stage::Response)?;
        let count = match self.write_once(bytes) {
            Err(error) if error.kind() == ErrorKind::Interrupted => self.write_once(bytes)?,
            written => written?,
        };
        self.count(count)?;
        Ok(count)
    }

    /// The first line of the request whose head was read into `head`. No guarantee: it is for a person who reads
    /// the log.
    pub fn first_line<'b>(&self, head: &'b [u8]) -> &'b [u8] {
        let first = head.get(..FIRST_BYTES.min(self.came)).unwrap_or(b"");
        let end = first
            .iter()
            .position(|byte| *byte == b'\r' || *byte == b'\n');
        first.get(..end.unwrap_or(first.len())).unwrap_or(b"")
    }

    /// Its socket, which waits no more. No guarantee: as above.
    fn into_socket(self) -> io::Result<TcpStream> {
        let Connection { socket, waits, .. } = self;
        if waits {
            socket.set_nonblocking(true)?;
        }
        Ok(socket)
    }

    /// Ends the connection to a client that waits for nothing more. What is there already is read away; `piece` is
    /// written over. No guarantee: as above.
    pub fn close(self, piece: &mut [u8; HEAD_LIMIT]) -> io::Result<()> {
        let mut socket = self.into_socket()?;
        for _ in 0..PIECES_BEHIND {
            if socket.read(piece)? == 0 {
                return Ok(());
            }
        }
        Ok(())
    }

    /// Its socket, which sends no more: what the client still sends may be read away without waiting for it. No
    /// guarantee: as above.
    pub(crate) fn into_half_closed(self) -> io::Result<TcpStream> {
        let socket = self.into_socket()?;
        socket.shutdown(Shutdown::Write)?;
        Ok(socket)
    }
}

/// Of what comes over a socket and goes over it the checker knows counts alone.
impl Stream for Connection<'_> {
    ghost reads = { λ _ _ _. Unit {0} };

    ghost writes = { λ _ _ _. Unit {0} };

    ghost hears = { λ _ _. Unit {0} };

    fn read(&mut self, buf: &mut [u8]) -> Result<usize, StreamFault> {
        match self.read_in_time(buf) {
            Ok(count) => {
                if self.stage == Stage::Head {
                    self.came = self.came.saturating_add(count);
                }
                Ok(count)
            }
            Err(_) => Err(StreamFault),
        }
    }

    fn write(&mut self, bytes: &[u8]) -> Result<usize, StreamFault> {
        match self.write_in_time(bytes) {
            Ok(count) => Ok(count),
            Err(_) => Err(StreamFault),
        }
    }

    fn head_came(&mut self) {
        // A clock that fails now fails at the next read, too.
        let _entered = self.enter(Stage::Body);
    }
}
