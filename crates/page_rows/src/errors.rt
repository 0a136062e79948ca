// Why a walk ends early.

use sqlite_pages::Error;

/// Why a walk ended before its last row or entry.
#[derive(Debug, Drop)]
pub enum WalkError<E> {
    /// The pages could not be read, or hold no such tree there.
    Pages(Error),
    /// What takes them refused one.
    Refused(E),
}

impl<E> From<Error> for WalkError<E> {
    ghost use Rattle.std.specs.Prelude.{◌≡◌};
    ghost use Rattle.page_rows.specs.declared.errors.WalkError.TheVariants.{Pages};

    ghost from_gives = { λ e made. made ≡ Pages e };

    fn from(error: Error) -> WalkError<E> {
        WalkError::Pages(error)
    }
}
