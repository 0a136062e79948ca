// How long a command waits for others that have its store open.

use std::rt::HostRuntime;
use std::thread;
use std::time::{Duration, Instant};

/// So long it waits in all, before it is refused.
const MOST_IN_MILLIS: u64 = 2000;

/// So long it sleeps before it tries again.
const PAUSE_IN_MILLIS: u64 = 20;

/// More tries than that time has pauses.
pub const TRIES: u32 = 200;

/// When a command began: it waits for others some two seconds from then on.
#[derive(Clone, Copy)]
pub struct Patience {
    since: Option<Instant>,
}

impl Patience {
    /// It begins now. Without a clock nothing is waited for. No guarantee: of clocks the checker knows nothing.
    pub fn begin(rt: &HostRuntime) -> Patience {
        Patience {
            since: Instant::now(rt).ok(),
        }
    }

    /// Sleeps a little, unless the time is over. No guarantee: as above.
    pub fn is_left(&self, rt: &HostRuntime) -> bool {
        let Some(since) = self.since else {
            return false;
        };
        match since.elapsed(rt) {
            Ok(passed) if passed < Duration::from_millis(MOST_IN_MILLIS) => {
                thread::sleep(rt, Duration::from_millis(PAUSE_IN_MILLIS));
                true
            }
            _ => false,
        }
    }
}
