// Records that lie in one buffer (specs/Records.antt).
ghost use Rattle.std.specs.Prelude.{◌≡◌, [], ◌∷◌, ◌++◌, map, IfOk, OnOk};
ghost use Rattle.sqlite_record.specs.Record.{decode};
ghost use Rattle.page_files.specs.Places.{rows_given};
ghost use Rattle.line_fills.specs.Rows.{HaveRowids, numbered};

use std::alloc::{AllocError, Global};
use std::marker::Model;

/// Records that lie in one buffer, one behind another.
#[derive(Drop)]
pub(crate) struct Records {
    bytes: Vec<u8>,
    lengths: Vec<usize>,
}

impl Model for Records {
    ghost use Rattle.std.specs.Prelude.{◌≡◌, ℕ, List, length, sum};
    ghost use Rattle.line_fills.specs.Records.{cut};

    ghost Value = { List (List ℕ) };

    ghost view = { λ r. cut r.bytes.items r.lengths.items };

    ghost invariant = { λ r. sum r.lengths.items ≡ length r.bytes.items };
}

impl Records {
    pub(crate) fn new(alloc: Global) -> Records
        ensures { result ≡ [] }
    {
        Records {
            bytes: Vec::new(alloc),
            lengths: Vec::new(alloc),
        }
    }

    /// Adds a record.
    pub(crate) fn push(&mut self, bytes: &[u8]) -> Result<(), AllocError>
        ensures { OnOk result (self.new ≡ self.old ++ bytes.now ∷ []) }
    {
        let end = self.bytes.len();
        self.bytes.extend_from_slice(bytes)?;
        if let Err(error) = self.lengths.push(bytes.len()) {
            self.bytes.truncate(end);
            return Err(error.into());
        }
        Ok(())
    }

    /// The records, each where it lies.
    pub(crate) fn slices(&self, alloc: Global) -> Result<Vec<&[u8]>, AllocError>
        ensures { IfOk result (λ slices. map (λ slice. slice.now) slices.items ≡ self.now) }
    {
        let mut slices = Vec::with_capacity(alloc, self.lengths.len())?;
        let mut rest = self.bytes.as_slice();
        for length in &self.lengths {
            let (bytes, more) = rest.split_at(*length);
            slices.push(bytes)?;
            rest = more;
        }
        Ok(slices)
    }

    /// The records as those of rows with rowids from `first` on.
    pub(crate) fn rows(&self, alloc: Global, first: u64) -> Result<Vec<(i64, &[u8])>, AllocError>
        requires { HaveRowids first self.now }
        ensures rows { IfOk result (λ rows. rows_given rows.items ≡ numbered first (map decode self.now)) }
        ensures records { IfOk result (λ rows. map (λ row. row.1.now) rows.items ≡ self.now) }
    {
        let slices = self.slices(alloc)?;
        let mut rows = Vec::with_capacity(alloc, slices.len())?;
        for at in 0..slices.len() {
            rows.push(((first + at as u64) as i64, slices[at]))?;
        }
        Ok(rows)
    }
}
