//! Where a service finds its old log and keeps its new one: `Folder`, and `Disk` for files.

ghost use Rattle.std.specs.Prelude.{◌≡◌, ℕ, List, Option, None, IfErr, IfOk};
ghost use Rattle.tokend.specs.Parted.{BeginsAs};
ghost use Rattle.tokend.specs.Serving.{IsLogFault};
ghost use Rattle.tokend.specs.Starting.{IsEmptyLog};

use crate::fault::Fault;
use crate::log_file::{PartFiles, Synced, open_log};
use crate::parted::Parted;
use std::alloc::Global;
use std::fs::OpenOptions;
use std::io::{self, Read};
use std::rt::Files;
use tk_edge::{Counted, Sink};

/// Files by name: old logs that are read, and new logs that are written.
pub trait Folder<I: Read, L: Sink> {
    // The bytes of the file of a name, if they are known; those of a disk are not.
    ghost kept: { Self → List ℕ → Option (List ℕ) };

    // The log is the one that was opened by this name, in parts of a size in bytes or in one file.
    ghost opens: { Self → Option ℕ → List ℕ → L → Type 0 };

    /// Opens the old log of this name.
    fn open_old(&self, name: &str) -> io::Result<I>
        ensures { IfOk result (λ file. I.remaining file ≡ kept self.now name.now) };

    /// Opens the new log of this name, and makes it if it doesn't exist: one file, or parts of
    /// `part` bytes and more. A log that isn't empty is refused.
    fn open_new(&self, alloc: Global, name: &str, part: Option<u64>) -> Result<L, Fault>
        ensures opens { IfOk result (λ log. opens self.now part name.now log) }
        ensures empty { IfOk result (λ log. IsEmptyLog (L.holds log)) }
        ensures fault { IfErr result (IsLogFault name.now) };
}

/// A file that is read. Contracts don't know its bytes.
#[derive(Drop)]
pub(crate) struct OldFile<F> {
    file: F,
}

impl<F: Read> Read for OldFile<F> {
    fn read(&mut self, buf: &mut [u8]) -> io::Result<usize> {
        self.file.read(buf)
    }
}

/// The machine's files.
#[derive(Clone, Copy)]
pub(crate) struct Disk<'a, R> {
    /// The runtime that opens files.
    pub rt: &'a R,
}

impl<'a, R: AllocGlobal + Files> Folder<
    OldFile<R::File>,
    Counted<Parted<Synced<R::File>, PartFiles<'a, R>>>,
> for Disk<'a, R> {
    ghost kept = { λ _ _. None };

    ghost opens = { λ _ part name log. BeginsAs name part log.inner.numbering };

    fn open_old(&self, name: &str) -> io::Result<OldFile<R::File>> {
        match OpenOptions::new().read(true).open(self.rt, name) {
            Ok(file) => Ok(OldFile { file }),
            Err(error) => Err(error),
        }
    }

    fn open_new(
        &self,
        _alloc: Global,
        name: &str,
        part: Option<u64>,
    ) -> Result<Counted<Parted<Synced<R::File>, PartFiles<'a, R>>>, Fault> {
        open_log(self.rt, name, part)
    }
}
