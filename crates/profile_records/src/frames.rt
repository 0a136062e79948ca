// The frames of a stack.
ghost use Rattle.std.specs.Prelude.{◌≡◌};
ghost use Rattle.profile_records.specs.Frames.{function_of, leaf_of, behind_semicolon};

use cg_text::UNKNOWN;
use memchr::memrchr;

/// The function of a frame: `???` where it has no name.
pub fn function(frame: &[u8]) -> &[u8]
    ensures { result.now ≡ function_of frame.now }
{
    if frame.is_empty() { UNKNOWN } else { frame }
}

/// The last frame.
fn last_frame(frames: &[u8]) -> &[u8]
    ensures { result.now ≡ behind_semicolon frames.now }
{
    match memrchr(b';', frames) {
        Some(at) => &frames[at + 1..],
        None => frames,
    }
}

/// The function that was running: that of the last frame.
pub fn leaf(frames: &[u8]) -> &[u8]
    ensures { result.now ≡ leaf_of frames.now }
{
    function(last_frame(frames))
}
