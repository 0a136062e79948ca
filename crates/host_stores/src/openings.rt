// What the files at a path hold each time they are opened.

use sqlite_disk::Start;

/// What the files at a path hold as they are opened, which a command may do more than once. The kit's `Start` stands for one
/// opening, of which there is one more each time. What is written over any `S` is proved for all that files may hold.
pub trait Openings: Start {
    /// One more.
    fn next() -> Self;
}
