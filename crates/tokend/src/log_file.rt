//! The file to which a region's records are written, or the first of its parts: `open_log` opens
//! it.

ghost use Rattle.std.specs.Prelude.{None, Some, IfErr, IfOk};
ghost use Rattle.tokend.specs.Parted.{BeginsAs};
ghost use Rattle.tokend.specs.Serving.{IsLogFault};

use crate::fault::{Fault, cannot_open};
use crate::part_name::part_name;
use crate::parted::{Numbering, Parted, Parts};
use std::fs::{OpenFile, OpenOptions, exists, remove_file};
use std::io::{self, Write};
use std::path::Path;
use std::rt::Files;
use tk_edge::Counted;

/// A file whose flush waits until its bytes are on the disk.
#[derive(Drop)]
pub(crate) struct Synced<F> {
    file: F,
}

impl<F: Write + OpenFile> Write for Synced<F> {
    fn write(&mut self, buf: &[u8]) -> io::Result<usize> {
        self.file.write(buf)
    }

    fn flush(&mut self) -> io::Result<()> {
        self.file.sync_data()
    }
}

/// The machine's files, as parts of a log.
#[derive(Clone, Copy)]
pub(crate) struct PartFiles<'a, R> {
    /// The runtime that opens files.
    pub rt: &'a R,
}

/// A part that can't be made leaves no file, unless that can't be removed either.
impl<'a, R: Files> Parts<Synced<R::File>> for PartFiles<'a, R> {
    ghost closed = { λ _. None };

    ghost makes = { λ _ _ _. Unit {0} };

    fn make(&self, name: &str) -> Option<Synced<R::File>> {
        let Ok(file) = OpenOptions::new()
            .append(true)
            .create_new(true)
            .open(self.rt, name)
        else {
            return None;
        };
        if sync_begun(self.rt, &file, name).is_ok() {
            return Some(Synced { file });
        }
        drop(file);
        let _ = remove_file(self.rt, name);
        None
    }

    fn close(&mut self, file: Synced<R::File>) {
        drop(file);
    }
}

// Waits until an empty file of this name, and the name in its folder, are on the disk.
fn sync_begun<R: Files>(rt: &R, file: &R::File, name: &str) -> io::Result<()> {
    file.sync_all()?;
    let folder = match Path::new(name).parent() {
        Some(folder) if !folder.as_str().is_empty() => folder,
        _ => Path::new("."),
    };
    OpenOptions::new().read(true).open(rt, folder)?.sync_all()
}

/// Opens the log of this name, and makes it if it doesn't exist: one file, or the first of parts of
/// `part` bytes and more. A log that isn't empty is refused, and so is one that has a later part.
pub(crate) fn open_log<'a, R: Files + AllocGlobal>(
    rt: &'a R,
    log: &str,
    part: Option<u64>,
) -> Result<Counted<Parted<Synced<R::File>, PartFiles<'a, R>>>, Fault>
    ensures begins { IfOk result (λ opened. BeginsAs log.now part opened.inner.numbering) }
    ensures fault { IfErr result (IsLogFault log.now) }
{
    let (file, numbering) = match part {
        Some(size) => {
            let (file, numbering) = open_first(rt, log, size)?;
            (file, Some(numbering))
        }
        None => (open_empty(rt, log, log)?, None),
    };
    Ok(Counted::new(Parted {
        file: Synced { file },
        parts: PartFiles { rt },
        numbering,
    }))
}

// Opens the first part of the log of this name, and waits until the part is on the disk.
fn open_first<R: Files + AllocGlobal>(
    rt: &R,
    log: &str,
    size: u64,
) -> Result<(R::File, Numbering), Fault>
    ensures begins { IfOk result (λ first. BeginsAs log.now (Some size) (Some first.1)) }
    ensures fault { IfErr result (IsLogFault log.now) }
{
    let alloc = rt.alloc();
    if has_later_part(rt, log)? {
        return Err(Fault::BadLogFile);
    }
    let Some(name) = part_name(alloc, log, 1) else {
        return Err(Fault::Memory);
    };
    let file = open_empty(rt, log, &name)?;
    if sync_begun(rt, &file, &name).is_err() {
        return Err(cannot_open(alloc, log));
    }
    let numbering = Numbering {
        alloc,
        log: String::from_str(alloc, log)?,
        number: 1,
        size,
        left: size,
    };
    Ok((file, numbering))
}

// Returns whether there is a file by the name of a part behind the first.
fn has_later_part<R: Files + AllocGlobal>(rt: &R, log: &str) -> Result<bool, Fault>
    ensures { IfErr result (IsLogFault log.now) }
{
    for number in 2..=Numbering::MAX {
        let Some(name) = part_name(rt.alloc(), log, number) else {
            return Err(Fault::Memory);
        };
        if exists(rt, name.as_str()).unwrap_or(false) {
            return Ok(true);
        }
    }
    Ok(false)
}

// Opens the file of this name, of a log, and makes it if it doesn't exist. A file that isn't empty
// is refused.
fn open_empty<R: Files + AllocGlobal>(rt: &R, log: &str, name: &str) -> Result<R::File, Fault>
    ensures { IfErr result (IsLogFault log.now) }
{
    let Ok(file) = OpenOptions::new().append(true).create(true).open(rt, name) else {
        return Err(cannot_open(rt.alloc(), log));
    };
    match file.metadata() {
        Ok(metadata) if metadata.len() == 0 => Ok(file),
        Ok(_) => Err(Fault::BadLogFile),
        Err(_) => Err(cannot_open(rt.alloc(), log)),
    }
}
