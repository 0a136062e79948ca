// The body of a request, a piece at a time.
ghost use Rattle.std.specs.Prelude.{◌≡◌, ◌≤◌, List, length, min, take};
ghost use Rattle.byte_io.specs.Outcomes.{Outcome};
ghost use Rattle.byte_io.specs.Reads.{Reads};
ghost use Rattle.http_exchange.specs.Bodies.{BodyRead, IsBodyOf};
ghost use Rattle.http_exchange.specs.declared.bodies.Body.{Body};

use crate::streams::Stream;
use byte_io::{ReadFault, Source};

/// What is left of a body: bytes that came with the head, and what the stream is still to give.
#[derive(Drop)]
pub struct Body<'a, T: Drop> {
    pub stream: T,
    /// The bytes that came with the head, behind it; they may be more than those of the body.
    pub held: &'a [u8],
    /// How many bytes of the body are still to come.
    pub left: u64,
}

/// Puts bytes that are held to the front of a buffer, at most `most`, and answers how many.
fn copy_front(held: &[u8], most: usize, buf: &mut [u8]) -> usize
    requires { most ≤ length buf.old }
    ensures count { result ≡ min most (length held.now) }
    ensures copied { take result buf.new ≡ take result held.now }
{
    let count = most.min(held.len());
    buf[..count].copy_from_slice(&held[..count]);
    count
}

/// Where the stream ends before the body does, a read of the body fails.
impl<T: Stream + Drop> Source for Body<'_, T> {
    ghost reads = { BodyRead T.reads };

    fn read(&mut self, buf: &mut [u8]) -> Result<usize, ReadFault> {
        if self.left == 0 {
            return Ok(0);
        }
        let most = buf
            .len()
            .min(usize::try_from(self.left).unwrap_or(usize::MAX));
        if !self.held.is_empty() {
            let count = copy_front(self.held, most, buf);
            self.held = &self.held[count..];
            self.left -= count as u64;
            return Ok(count);
        }
        match self.stream.read(&mut buf[..most]) {
            Ok(0) => Err(ReadFault),
            Ok(count) => {
                self.left -= count as u64;
                Ok(count)
            }
            Err(_) => Err(ReadFault),
        }
    }
}

/// What the reads of a body come to, one after another. A law: a caller whose source is a body calls it
/// to know the bytes behind the head of the reads that its own contract speaks of.
pub fn body_comes<T: Stream + Drop>()
    ensures { (from to : Body T) (outcomes : List Outcome) → Reads (BodyRead T.reads) from outcomes to
        → (reads : List Outcome) × Reads T.reads from.stream reads to.stream × IsBodyOf from.left from.held.now reads outcomes }
{}
