// Why a store is not opened, and what is printed of it.
ghost use Rattle.std.specs.Prelude.{◌≡◌};
ghost use Rattle.store_paths.specs.Errors.{cause_text, store_text};

use plain_tables::StoreError;
use prof_store::OpenError;

/// What was found where a store is not opened.
#[derive(Clone, Copy, Debug, PartialEq, Eq)]
pub enum Cause {
    /// A folder of its path is not there.
    NoFolder,
    /// It is a folder.
    Folder,
    /// It, its log or its folder may not be read or written.
    NoRight,
    /// Another has it open.
    InUse,
    /// It has a journal that SQLite alone can play back, or a second name.
    Journal,
    DiskFull,
    /// Its file is no database, or a damaged one.
    NoDatabase,
    /// Its tables are no store's, or those of another version.
    OtherTables,
    /// Another program has put an index or a trigger on its tables: so it is only read.
    OtherIndex,
}

/// A store that is not opened: what is printed of it, and what was found, where that is known.
#[derive(Clone, Copy, Debug, PartialEq, Eq)]
pub struct NotOpened {
    pub end: OpenError,
    pub cause: Option<Cause>,
}

impl From<OpenError> for NotOpened {
    ghost use Rattle.std.specs.Prelude.{◌≡◌};
    ghost use Rattle.store_paths.specs.Errors.{not_opened};

    ghost from_gives = { λ end refused. refused ≡ not_opened end };

    fn from(end: OpenError) -> NotOpened {
        let cause = match end {
            OpenError::WrongSchema => Some(Cause::OtherTables),
            OpenError::Memory | OpenError::Store => None,
        };
        NotOpened { end, cause }
    }
}

impl From<StoreError> for NotOpened {
    ghost use Rattle.std.specs.Prelude.{◌≡◌};
    ghost use Rattle.prof_store.specs.Errors.{opening};
    ghost use Rattle.store_paths.specs.Errors.{not_opened};

    ghost from_gives = { λ error refused. refused ≡ not_opened (opening error) };

    fn from(error: StoreError) -> NotOpened {
        OpenError::from(error).into()
    }
}

/// The line of a store that is not opened.
pub fn error_line(end: OpenError) -> &'static str
    ensures { result.now ≡ store_text end }
{
    match end {
        OpenError::Memory => "store: out of memory",
        OpenError::Store => "store: failed",
        OpenError::WrongSchema => "store: wrong schema",
    }
}

/// What was found, for a person.
pub fn cause_line(cause: Cause) -> &'static str
    ensures { result.now ≡ cause_text cause }
{
    match cause {
        Cause::NoFolder => "there is no such folder",
        Cause::Folder => "it is a folder",
        Cause::NoRight => "no right to read or write it, its log or its folder",
        Cause::InUse => "another command, a server or another program has it open",
        Cause::Journal => {
            "it has a journal of SQLite, or a second name: open it once with sqlite3"
        }
        Cause::DiskFull => "the disk is full",
        Cause::NoDatabase => "it is no database, or a damaged one",
        Cause::OtherTables => {
            "its tables are those of another program, or of another version of profhouse"
        }
        Cause::OtherIndex => {
            "another program has put an index or a trigger on its tables: it is only read"
        }
    }
}
