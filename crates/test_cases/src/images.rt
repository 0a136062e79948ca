// The two files of a database, and what a stop leaves of them.
ghost use Rattle.std.specs.Prelude.{◌≡◌, IfOk, []};

use crate::disk::Stopping;
use crate::meters::Meter;
use sqlite_disk::Files;
use std::alloc::{AllocError, Global};

/// What two files hold.
#[derive(Drop)]
pub struct Image {
    pub log: Vec<u8>,
    pub database: Vec<u8>,
}

impl Image {
    /// Two empty files.
    pub fn empty(alloc: Global) -> Image
        ensures log { result.log.items ≡ [] }
        ensures database { result.database.items ≡ [] }
    {
        Image {
            log: Vec::new(alloc),
            database: Vec::new(alloc),
        }
    }
}

/// Files with these bytes, all of them synced, and room for so many. They count their changes together.
pub fn files_of(
    alloc: Global,
    log: &[u8],
    database: &[u8],
    room: usize,
    meter: &Meter,
) -> Result<Files<Stopping>, AllocError>
    ensures log { IfOk result (λ files. files.log.written.items ≡ log.now) }
    ensures database { IfOk result (λ files. files.db.written.items ≡ database.now) }
{
    Ok(Files {
        log: Stopping::new(alloc, log, room, meter.of_log()?)?,
        db: Stopping::new(alloc, database, room, meter.of_database()?)?,
    })
}

/// What a stop left: all that was written, and what of it was synced.
#[derive(Drop)]
pub struct Left {
    pub written: Image,
    pub synced: Image,
}

impl Left {
    /// What files hold.
    pub fn of(files: Files<Stopping>) -> Left
        ensures written { result.written ≡ record { log = files.log.written; database = files.db.written } }
        ensures synced { result.synced ≡ record { log = files.log.synced; database = files.db.synced } }
    {
        let Files { log, db } = files;
        let (log, synced_log) = log.into_bytes();
        let (database, synced_database) = db.into_bytes();
        Left {
            written: Image { log, database },
            synced: Image {
                log: synced_log,
                database: synced_database,
            },
        }
    }

    /// All that was written.
    pub fn into_written(self) -> Image
        ensures { result ≡ self.written }
    {
        let Left { written, synced: _ } = self;
        written
    }

    /// What a power cut may leave of them: all that was written, all that was synced, and one file of each. Each with
    /// whether it is another than those before it. No guarantee: a test that is shown fewer of them sees less.
    pub fn images(&self) -> [(&[u8], &[u8], bool); 4] {
        let (written, synced) = (&self.written, &self.synced);
        let log_differs = written.log.as_slice() != synced.log.as_slice();
        let database_differs = written.database.as_slice() != synced.database.as_slice();
        [
            (&written.log, &written.database, true),
            (&written.log, &synced.database, database_differs),
            (&synced.log, &written.database, log_differs),
            (
                &synced.log,
                &synced.database,
                log_differs && database_differs,
            ),
        ]
    }
}
