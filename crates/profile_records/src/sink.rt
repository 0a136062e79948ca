// What takes the records of a file.
ghost use Rattle.std.specs.Prelude.{◌≡◌, ℕ, ◌<◌, ◌^◌, OnOk, OnErr, IfSome, Option, Some, List, length, All};

use crate::marks::LentNames;
use std::alloc::AllocError;

/// A cost line's self costs, one for each event, and where they belong. Names are bytes.
#[derive(Clone, Copy)]
pub struct SelfCost<'a> {
    /// The number of the line in its file, from 1.
    pub at: u64,
    pub names: LentNames<'a>,
    /// The source line, 0 where none is known.
    pub line: u64,
    /// The number of the thread that ran, 0 where none is known.
    pub thread: u64,
    pub costs: &'a [u64],
}

/// The inclusive costs of some calls, one for each event, where they were made, and whom they called.
#[derive(Clone, Copy)]
pub struct CallCost<'a> {
    /// The number of the cost line in its file, from 1.
    pub at: u64,
    pub names: LentNames<'a>,
    /// The source line of the call, 0 where none is known.
    pub line: u64,
    /// The number of the thread that called, 0 where none is known.
    pub thread: u64,
    pub called: LentNames<'a>,
    /// How many calls there were.
    pub count: u64,
    pub costs: &'a [u64],
}

/// Takes the records of a file, in the order of its lines. A refusal leaves its meaning as it was.
/// What it remembers of the marks of names is true: a mark of a name space comes again with the text
/// that it came with before.
pub trait Sink {
    ghost use Rattle.profile_records.specs.Records.{Record};
    ghost use Rattle.profile_records.specs.Lent.{own, called};
    ghost use Rattle.profile_records.specs.Marks.{Agrees, Learns, names_tell, call_tells};
    ghost use Rattle.profile_records.specs.declared.marks.Mark.{Mark};
    ghost use Rattle.cg_text.specs.declared.words.Namespace.{Namespace};

    /// What a sink can mean.
    ghost Meaning: { Type 0 };

    /// What the sink means.
    ghost meaning: { Self → Meaning };

    /// What a record makes of a meaning.
    ghost step: { Meaning → Record → Meaning };

    /// The number of the last record's line, 0 before the first.
    ghost last: { Self → ℕ };

    /// How many costs each record has, unknown before the first.
    ghost width: { Self → Option ℕ };

    /// The text that a mark of a name space came with, as far as the sink remembers it.
    ghost known: { Self → Namespace → Mark → Option (List ℕ) };

    /// Takes a self record.
    fn self_cost(&mut self, r: SelfCost<'_>) -> Result<(), AllocError>
        requires rises { last self.old < r.at }
        requires wide { IfSome (width self.old) (λ n. length r.costs.now ≡ n) }
        requires small { All (λ c. c < 2 ^ 63) r.costs.now }
        requires known { Agrees (known self.old) (names_tell r.names) }
        ensures ok { OnOk result (meaning self.new ≡ step (meaning self.old) (own r.entry)) }
        ensures last { OnOk result (last self.new ≡ r.entry.at) }
        ensures width { OnOk result (width self.new ≡ Some (length r.entry.costs.now)) }
        ensures known { Learns (known self.old) (names_tell r.entry.names) (known self.new) }
        ensures err { OnErr result (meaning self.new ≡ meaning self.old) };

    /// Takes a call record.
    fn call(&mut self, r: CallCost<'_>) -> Result<(), AllocError>
        requires rises { last self.old < r.at }
        requires wide { IfSome (width self.old) (λ n. length r.costs.now ≡ n) }
        requires small { All (λ c. c < 2 ^ 63) r.costs.now }
        requires count { r.count < 2 ^ 63 }
        requires known { Agrees (known self.old) (call_tells r) }
        ensures ok { OnOk result (meaning self.new ≡ step (meaning self.old) (called r.entry)) }
        ensures last { OnOk result (last self.new ≡ r.entry.at) }
        ensures width { OnOk result (width self.new ≡ Some (length r.entry.costs.now)) }
        ensures known { Learns (known self.old) (call_tells r.entry) (known self.new) }
        ensures err { OnErr result (meaning self.new ≡ meaning self.old) };
}
