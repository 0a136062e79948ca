// The stacks of a run, handed on one at a time.
ghost use Rattle.std.specs.Prelude.{◌≡◌, ◌++◌, ◌∷◌, [], List, OnOk, fold, map};
ghost use Rattle.cost_rows.specs.Plain.{plain_stack};
ghost use Rattle.run_stores.specs.Book.{stack_held};
ghost use Rattle.plain_tables.specs.Tables.{StoredStack};
ghost use Rattle.prof_store.specs.Lines.{held_stack};
ghost use Rattle.run_lists.specs.HeldStacks.{HasTakenStackLines};

use cost_rows::StackRow;
use prof_store::{HeldStack, StoreError};
use run_stores::StackRowSink;

/// A stack that is held, as it is lent.
fn lent_stack(line: &HeldStack) -> StackRow<&[u8]>
    ensures { plain_stack result ≡ stack_held (held_stack line.now) }
{
    StackRow {
        stack: line.frames.as_slice(),
        count: u128::from(line.count.get()),
    }
}

/// Takes the lines of stacks, and hands on their rows.
#[derive(Drop)]
pub struct StackLines<T> {
    sink: T,
}

impl<T: StackRowSink> StackLines<T> {
    /// Nothing is taken yet.
    pub fn new(sink: T) -> StackLines<T>
        ensures { HasTakenStackLines T.meaning T.step (T.meaning sink) [] result }
    {
        StackLines { sink }
    }

    /// Takes a line. Errors: those of the taker.
    pub fn take_line(&mut self, line: HeldStack) -> Result<(), StoreError>
        ensures { OnOk result ((start : T.Meaning) (lines : List StoredStack)
            → HasTakenStackLines T.meaning T.step start lines self.old
            → HasTakenStackLines T.meaning T.step start (lines ++ held_stack line ∷ []) self.new) }
    {
        self.sink.take(&lent_stack(&line))
    }

    /// Gives back what took the stacks of all lines.
    pub fn finish(self) -> T
        ensures { (start : T.Meaning) (lines : List StoredStack) → HasTakenStackLines T.meaning T.step start lines self
            → T.meaning result ≡ fold T.step start (map stack_held lines) }
    {
        let StackLines { sink } = self;
        sink
    }
}
