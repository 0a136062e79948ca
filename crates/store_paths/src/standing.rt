// Whether what was read beside others is what one commit left.

use crate::opening::Standing;
use std::rt::HostRuntime;

/// Whether the log is still the one that was read. No guarantee: of files the checker knows nothing, here and below.
pub fn has_same_log(standing: &Standing) -> bool {
    matches!(standing.has_same_log(), Ok(true))
}

/// Whether what was read is what one commit left.
pub fn has_stood(rt: &HostRuntime, standing: &Standing) -> bool {
    has_same_log(standing) && matches!(standing.stands(rt), Ok(true))
}
