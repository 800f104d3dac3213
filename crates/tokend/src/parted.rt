//! A log that goes on in a next file: `Parted`, whose files a `Parts` makes.

ghost use Rattle.std.specs.Prelude.{◌≡◌, ℕ, List, Option, IfSome, option_map};
ghost use Rattle.std.specs.Prelude.{string_bytes};
ghost use Rattle.std.specs.Io.KnownBytes.{Keeps};
ghost use Rattle.tokend.specs.LogParts.{IsEmptyBehind, joined};
ghost use Rattle.tokend.specs.Parted.{GoesOn, IsFull, next_name, tried, wrote};

use crate::part_name::part_name;
use std::alloc::Global;
use std::io::{self, Write};
use std::mem;

/// Makes the files of a log's parts, and closes them.
pub(crate) trait Parts<F: Write> {
    // The bytes of the parts that were closed, one behind the other, if they are known.
    ghost closed: { Self → Option (List ℕ) };

    // The file is the one that was made by this name.
    ghost makes: { Self → List ℕ → F → Type 0 };

    /// Makes the file of this name, and waits until the file is on the disk. `None` if that fails,
    /// or if there is such a file.
    fn make(&self, name: &str) -> Option<F>
        ensures makes { IfSome result (λ file. makes self.now name.now file) }
        ensures empty { IfSome result (λ file. IsEmptyBehind (closed self.now) (F.contents file)) };

    /// Closes the part that was written last.
    fn close(&mut self, file: F)
        ensures closed { closed self.new ≡ joined (closed self.old) (F.contents file) }
        ensures makes { (name : List ℕ) (file : F) → makes self.old name file
            → makes self.new name file };
}

/// How a log goes on in parts.
#[derive(Drop)]
pub(crate) struct Numbering {
    /// Where the names of parts get their memory.
    pub alloc: Global,
    /// The name of the log.
    pub log: String,
    /// The number of the part that is written: 1 is the first.
    pub number: u16,
    /// The bytes of a part at which the next one is begun.
    pub size: u64,
    /// How many bytes are to be written until the next part is begun.
    pub left: u64,
}

impl Numbering {
    /// The greatest number of a part.
    pub(crate) const MAX: u16 = 9_999;

    // Returns the name of the next part, if the part that is written is full and isn't the last.
    // A part for which there is no name is full again once it has grown by its size.
    fn next_name(&mut self) -> Option<String>
        ensures full { IfSome result (λ name. IsFull self.old) }
        ensures name { IfSome result (λ name. string_bytes name ≡ next_name self.old) }
        ensures tries { self.new ≡ tried self.old }
    {
        if self.left > 0 {
            return None;
        }
        self.left = self.size;
        if self.number < Numbering::MAX {
            part_name(self.alloc, &self.log, self.number + 1)
        } else {
            None
        }
    }
}

/// A log that is written to a file, and may go on in a next one.
#[derive(Drop)]
pub(crate) struct Parted<F, P> {
    /// The file that is written.
    pub file: F,
    /// What makes and closes files.
    pub parts: P,
    /// How the log goes on; `None` for a log of one file.
    pub numbering: Option<Numbering>,
}

impl<F: Write, P: Parts<F>> Parted<F, P> {
    // Counts bytes that were written to the part.
    fn count(&mut self, written: usize)
        ensures { self.new ≡ record self.old {
          numbering = option_map (wrote written) self.old.numbering;
        } }
    {
        if let Some(numbering) = &mut self.numbering {
            numbering.left = numbering.left.saturating_sub(written as u64);
        }
    }

    // Goes on in the next part, if the one that is written is full. If the next part can't be made,
    // the log goes on in the part that it has.
    fn go_on(&mut self)
        ensures kept { Keeps (joined (P.closed self.old.parts) (F.contents self.old.file))
            (joined (P.closed self.new.parts) (F.contents self.new.file)) }
        ensures next { GoesOn F.contents P.closed P.makes self.old.numbering self.old self.new }
    {
        let Some(numbering) = &mut self.numbering else {
            return;
        };
        let Some(name) = numbering.next_name() else {
            return;
        };
        if let Some(file) = self.parts.make(&name) {
            self.parts.close(mem::replace(&mut self.file, file));
            numbering.number += 1;
        }
    }
}

/// A flush waits until the part is on the disk, and then goes on in the next one if it is full. So
/// a part ends where a flush did.
impl<F: Write, P: Parts<F>> Write for Parted<F, P> {
    ghost contents = { λ s. joined (P.closed s.parts) (F.contents s.file) };

    fn write(&mut self, buf: &[u8]) -> io::Result<usize> {
        match self.file.write(buf) {
            Ok(written) => {
                self.count(written);
                Ok(written)
            }
            Err(error) => Err(error),
        }
    }

    fn flush(&mut self) -> io::Result<()> {
        match self.file.flush() {
            Ok(()) => {
                self.go_on();
                Ok(())
            }
            Err(error) => Err(error),
        }
    }
}
