// A file of either kind while it is read.
ghost use Rattle.std.specs.Prelude.{◌≡◌, ℕ, ◌+◌, ◌≤◌, List, [], ◌++◌, length, IfOk, OnOk};
ghost use Rattle.histories.specs.Files.{rows_of};
ghost use Rattle.profile_records.specs.declared.kinds.Kind.{Kind};
ghost use Rattle.file_reading.specs.FileParsers.{Stands, RepresentsAtFirst, HasTaken, IsParsedOf, HasEndedAs};

use byte_io::ByteSink;
use callgrind_reader::Reader;
use cg_formulas::FileHead;
use cg_text::{Fault, ReadEnd};
use cost_rows::FileRows;
use folded_reader::FoldedReader;
use profile_records::Kind;
use sha2::{Digest, Sha256};
use std::alloc::{AllocError, Global};

/// The reader of a kind of file.
#[derive(Drop)]
enum FileReader {
    Callgrind(Reader),
    Folded(FoldedReader),
}

/// A file while it is read: what its reader knows, its rows so far, and the digest of its bytes.
#[derive(Drop)]
pub struct FileParser {
    reader: FileReader,
    rows: FileRows,
    digest: Sha256,
}

/// A file that was read to its end: its digest, and its head and rows, or its first fault and that
/// fault's line.
#[derive(Drop)]
pub struct ParsedFile {
    pub digest: [u8; 32],
    pub file: Result<(FileHead, FileRows), (Fault, u64)>,
}

impl FileReader {
    /// Nothing was read.
    fn new(alloc: Global, kind: Kind) -> Result<FileReader, AllocError>
        ensures { IfOk result (λ r. RepresentsAtFirst r kind) }
    {
        match kind {
            Kind::Callgrind => Ok(FileReader::Callgrind(Reader::new(alloc)?)),
            Kind::Folded => Ok(FileReader::Folded(FoldedReader::new(alloc)?)),
        }
    }

    /// Takes the next piece, and hands on what it says.
    fn feed(&mut self, piece: &[u8], rows: &mut FileRows) -> Result<(), AllocError>
        requires { (kind : Kind) × (bytes : List ℕ) × Stands self.old rows.old kind bytes × (length bytes + length piece.now ≤ 1073741824) }
        ensures { OnOk result ((kind : Kind) (bytes : List ℕ) → Stands self.old rows.old kind bytes → Stands self.new rows.new kind (bytes ++ piece.now)) }
    {
        match self {
            FileReader::Callgrind(reader) => reader.feed(piece, rows),
            FileReader::Folded(reader) => reader.feed(piece, rows),
        }
    }

    /// Ends the file, and hands on what its last line says.
    fn finish(self, rows: &mut FileRows) -> Result<FileHead, ReadEnd>
        requires { (kind : Kind) × (bytes : List ℕ) × Stands self rows.old kind bytes }
        ensures { (kind : Kind) (bytes : List ℕ) → Stands self rows.old kind bytes → HasEndedAs kind bytes result rows.new }
    {
        match self {
            FileReader::Callgrind(reader) => reader.finish(rows),
            FileReader::Folded(reader) => reader.finish(rows),
        }
    }
}

impl FileParser {
    /// Nothing was read.
    pub fn new(alloc: Global, kind: Kind) -> Result<FileParser, AllocError>
        ensures { IfOk result (λ i. HasTaken i kind []) }
    {
        Ok(FileParser {
            reader: FileReader::new(alloc, kind)?,
            rows: FileRows::new(alloc),
            digest: Sha256::new(),
        })
    }

    /// Ends the file.
    pub fn finish(self) -> Result<ParsedFile, AllocError>
        requires { (kind : Kind) × (bytes : List ℕ) × HasTaken self kind bytes }
        ensures { IfOk result (λ parsed. (kind : Kind) (bytes : List ℕ) → HasTaken self kind bytes → IsParsedOf kind bytes parsed) }
    {
        let FileParser {
            reader,
            mut rows,
            digest,
        } = self;
        let digest = digest.finalize();
        match reader.finish(&mut rows) {
            Ok(head) => Ok(ParsedFile {
                digest,
                file: Ok((head, rows)),
            }),
            Err(end) => {
                // What is dropped at each way out is slow to prove.
                drop(rows);
                match end {
                    ReadEnd::Fault(fault, line) => Ok(ParsedFile {
                        digest,
                        file: Err((fault, line)),
                    }),
                    ReadEnd::Memory => Err(AllocError),
                }
            }
        }
    }
}

impl ByteSink for FileParser {
    ghost use Rattle.profile_records.specs.declared.kinds.Kind.{Kind};
    ghost use Rattle.file_reading.specs.FileParsers.{HasTaken};

    ghost Form = { Kind };

    ghost has_taken = { HasTaken };

    fn feed(&mut self, piece: &[u8]) -> Result<(), AllocError> {
        self.digest.update(piece);
        self.reader.feed(piece, &mut self.rows)
    }
}
