// Where the bytes of a file come from.
ghost use Rattle.std.specs.Prelude.{◌<◌, ◌≤◌, length, take, IfOk, MatchResult};
ghost use Rattle.byte_io.specs.Outcomes.{Gave, Failed};

/// A read failed.
#[derive(Clone, Copy, Debug, PartialEq, Eq)]
pub struct ReadFault;

/// Gives the bytes of a file, a piece at a time.
pub trait Source {
    ghost use Rattle.byte_io.specs.Outcomes.{Outcome};

    /// What a read in one state may come to, and the state that it then leaves.
    ghost reads: { Self → Outcome → Self → Type 0 };

    /// Reads into the front of `buf`, and answers how many bytes; 0 says that the source has ended.
    fn read(&mut self, buf: &mut [u8]) -> Result<usize, ReadFault>
        requires { 0 < length buf.old }
        ensures within { IfOk result (λ n. n ≤ length buf.new) }
        ensures came { MatchResult result (λ n. reads self.old (Gave (take n buf.new)) self.new) (λ _. reads self.old Failed self.new) };
}
