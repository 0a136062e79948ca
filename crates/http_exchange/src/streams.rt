// A connection: what bytes come from, and what they go to.
ghost use Rattle.std.specs.Prelude.{◌<◌, ◌≤◌, length, take, IfOk, MatchResult};
ghost use Rattle.byte_io.specs.Outcomes.{Gave, Failed};
ghost use Rattle.http_exchange.specs.Streams.{Took, Broke};

/// A read or a write failed.
#[derive(Clone, Copy, Debug, PartialEq, Eq)]
pub struct StreamFault;

/// Gives bytes, and takes bytes.
pub trait Stream {
    ghost use Rattle.byte_io.specs.Outcomes.{Outcome};
    ghost use Rattle.http_exchange.specs.Streams.{Written};

    /// What a read in one state may come to, and the state that it then leaves.
    ghost reads: { Self → Outcome → Self → Type 0 };

    /// The same of a write.
    ghost writes: { Self → Written → Self → Type 0 };

    /// What it is after it heard that the head of a request has come.
    ghost hears: { Self → Self → Type 0 };

    /// Reads into the front of `buf`, and answers how many bytes; 0 says that no more will come.
    fn read(&mut self, buf: &mut [u8]) -> Result<usize, StreamFault>
        requires { 0 < length buf.old }
        ensures within { IfOk result (λ n. n ≤ length buf.new) }
        ensures came { MatchResult result (λ n. reads self.old (Gave (take n buf.new)) self.new) (λ _. reads self.old Failed self.new) };

    /// Writes the front of `bytes`, and answers how many bytes went.
    fn write(&mut self, bytes: &[u8]) -> Result<usize, StreamFault>
        requires { 0 < length bytes.now }
        ensures within { IfOk result (λ n. n ≤ length bytes.now) }
        ensures went { MatchResult result (λ n. writes self.old (Took (take n bytes.now)) self.new) (λ _. writes self.old Broke self.new) };

    /// Hears that the head of a request has come: from now on it may wait longer for bytes. None comes or
    /// goes.
    fn head_came(&mut self)
        ensures { hears self.old self.new };
}
