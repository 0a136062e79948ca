// What takes the stacks of a file.
ghost use Rattle.std.specs.Prelude.{◌≡◌, ◌≢◌, ℕ, ◌<◌, ◌^◌, OnOk, OnErr, []};

use std::alloc::AllocError;

/// Takes the stacks of a file, in the order of its lines. A refusal leaves its meaning as it was.
pub trait StackSink {
    ghost use Rattle.profile_records.specs.Stacks.{Seen, lent};

    /// What a sink can mean.
    ghost Meaning: { Type 0 };

    /// What the sink means.
    ghost meaning: { Self → Meaning };

    /// What a stack makes of a meaning.
    ghost step: { Meaning → Seen → Meaning };

    /// The number of the last stack's line, 0 before the first.
    ghost last: { Self → ℕ };

    /// Takes the stack of the line of this number, counted from 1: its frames, joined by `;` with
    /// the root first, as bytes, and how often it was seen.
    fn stack(&mut self, at: u64, stack: &[u8], count: u64) -> Result<(), AllocError>
        requires rises { last self.old < at }
        requires some { stack.now ≢ [] }
        requires small { count < 2 ^ 63 }
        ensures ok { OnOk result (meaning self.new ≡ step (meaning self.old) (lent at stack.now count)) }
        ensures last { OnOk result (last self.new ≡ at) }
        ensures err { OnErr result (meaning self.new ≡ meaning self.old) };
}
