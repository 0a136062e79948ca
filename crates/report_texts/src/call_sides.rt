// The two sides of calls.

/// Which functions a report of calls tells: those that call a function, or those that it calls.
#[derive(Clone, Copy, Debug, PartialEq, Eq)]
pub enum CallSide {
    Callers,
    Callees,
}
