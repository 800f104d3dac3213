//! Faults of the program (`Fault`), each with its line and its exit status.

ghost use Rattle.std.specs.Prelude.{◌≡◌, ◌++◌, ◌∷◌, [], codes, decimal, string_bytes};
ghost use Rattle.std.specs.IoError.{error_kind};
ghost use Rattle.tokend.specs.ProgramRun.{ReportsFault};
ghost use Rattle.tokend.specs.Status.{facts_status, facts_text, input_fault};
ghost use Rattle.tokend.specs.Status.{status_of, IsUnopened, IsUnread};
ghost use Rattle.tokend.specs.Telling.{Writes, writer_of};
ghost use Rattle.tokend.specs.declared.fault.Fault.TheVariants as fault;

use crate::telling::{Formatted, say};
use itoa::Buffer;
use std::alloc::{AllocError, AllocFailed, Global};
use std::io::{self, Write};
use tk_edge::Sink;

/// Why the program ended early.
#[derive(Drop)]
pub enum Fault {
    /// The arguments are wrong. clap has the text of the fault.
    Arguments(clap::Error),
    /// Reading the standard input failed or was interrupted.
    CannotRead,
    /// The file of this name can't be read.
    CannotReadFile(String),
    /// The log of this name can't be opened.
    CannotOpen(String),
    /// The port or the socket is in use, or can't be listened on.
    CannotListen,
    /// Others than the user may write the folder of a socket.
    SharedFolder,
    /// Another server answers at the socket.
    SocketInUse,
    /// The moment of the prune is later than the clock.
    PruneAhead,
    /// A socket of `loopback` failed.
    SocketFailed,
    /// The seed file hasn't exactly 32 bytes.
    BadSeedFile,
    /// The old log has bytes that are no bundle or a bundle that is refused, or the new log isn't
    /// empty.
    BadLogFile,
    /// The script is longer than `script::MAX_SCRIPT`.
    ScriptTooLong,
    /// The line with this number, counted from 1, is no event, or its request is too long.
    BadLine(u64),
    /// The facts of a source weren't printed or loaded to its end. Lines may have been written to
    /// the output.
    Facts(FactsFault),
    /// Memory ran out. Nothing was written to the output.
    Memory,
    /// The standard output failed.
    Output,
}

/// Why the facts of a source weren't printed or loaded to its end.
#[derive(Drop)]
pub enum FactsFault {
    /// The source of this name has no bundle at this offset, and no vector if it is printed.
    Malformed(String, u64),
    /// The source of this name has a bundle at this offset that can't be loaded.
    Refused(String, u64),
    /// The source of this name can't be read.
    CannotReadFile(String),
    /// Memory ran out.
    Memory,
}

impl FactsFault {
    /// Returns the exit status: 2 for a source that is bad or refused, otherwise 1.
    pub(crate) fn status(&self) -> u8
        ensures { result ≡ facts_status self.now }
    {
        match self {
            FactsFault::Malformed(_, _) | FactsFault::Refused(_, _) => 2,
            FactsFault::CannotReadFile(_) | FactsFault::Memory => 1,
        }
    }
}

impl Fault {
    /// Returns the exit status: 1 for memory and devices, 2 for arguments, scripts, seeds and logs,
    /// 3 for a socket that another server has.
    pub(crate) fn status(&self) -> u8
        ensures { result ≡ status_of self.now }
    {
        match self {
            Fault::Memory | Fault::CannotRead | Fault::CannotReadFile(_) => 1,
            Fault::CannotOpen(_) | Fault::CannotListen | Fault::SocketFailed => 1,
            Fault::Output => 1,
            Fault::Arguments(_) | Fault::ScriptTooLong | Fault::BadLine(_) => 2,
            Fault::BadSeedFile | Fault::BadLogFile => 2,
            Fault::SharedFolder | Fault::PruneAhead => 2,
            Fault::SocketInUse => 3,
            Fault::Facts(fault) => fault.status(),
        }
    }
}

/// Writes a fault's line to `faults`.
///
/// clap writes the faults of the arguments. An output that failed has no line, only its status. If
/// `faults` fails, it has the beginning of the line, and the program goes on.
pub(crate) fn tell<F: Sink>(faults: &mut F, fault: &Fault)
    ensures { ReportsFault fault.now (writer_of F.holds F.failed faults.old)
        (writer_of F.holds F.failed faults.new) }
{
    match fault {
        Fault::Arguments(error) => show(faults, error),
        Fault::CannotRead => say(faults, &[b"tokend: cannot read -\n"]),
        Fault::ScriptTooLong => say(faults, &[b"tokend: script too long\n"]),
        Fault::BadLine(number) => tell_bad_line(faults, *number),
        Fault::CannotReadFile(name) => tell_name(faults, b"tokend: cannot read ", name),
        Fault::CannotOpen(name) => tell_name(faults, b"tokend: cannot open ", name),
        Fault::CannotListen => say(faults, &[b"tokend: cannot listen\n"]),
        Fault::SharedFolder => say(faults, &[b"tokend: others may write the socket's folder\n"]),
        Fault::SocketInUse => say(faults, &[b"tokend: socket in use\n"]),
        Fault::PruneAhead => say(faults, &[b"tokend: prune later than the clock\n"]),
        Fault::SocketFailed => say(faults, &[b"tokend: socket failed\n"]),
        Fault::BadSeedFile => say(faults, &[b"tokend: bad seed file\n"]),
        Fault::BadLogFile => say(faults, &[b"tokend: bad log file\n"]),
        Fault::Facts(fault) => tell_facts(faults, fault),
        Fault::Memory => say(faults, &[b"tokend: memory\n"]),
        Fault::Output => say(faults, &[]),
    }
}

// Writes clap's text. No contract speaks of it.
fn show<F: Sink>(faults: &mut F, error: &clap::Error) {
    let mut text = Formatted { sink: faults };
    let _ = write!(text, "{error}");
    let Formatted { sink: _ } = text;
}

// Writes the line of a source whose facts weren't printed or loaded to its end.
fn tell_facts<F: Sink>(faults: &mut F, fault: &FactsFault)
    ensures { Writes (writer_of F.holds F.failed faults.old) (writer_of F.holds F.failed faults.new)
        (facts_text fault.now) }
{
    match fault {
        FactsFault::Malformed(name, offset) => {
            tell_place(faults, b"tokend: bad bytes at ", *offset, name)
        }
        FactsFault::Refused(name, offset) => {
            tell_place(faults, b"tokend: refused bundle at ", *offset, name)
        }
        FactsFault::CannotReadFile(name) => tell_name(faults, b"tokend: cannot read ", name),
        FactsFault::Memory => say(faults, &[b"tokend: memory\n"]),
    }
}

// Writes the line of a fault at an offset of a source.
fn tell_place<F: Sink>(faults: &mut F, fault: &[u8], offset: u64, name: &String)
    ensures { Writes (writer_of F.holds F.failed faults.old) (writer_of F.holds F.failed faults.new)
        (fault.now ++ (decimal offset ++ (codes " of " ++ (string_bytes name.now ++ 10 ∷ [])))) }
{
    let mut digits = Buffer::new();
    let offset = digits.format(offset).as_bytes();
    say(faults, &[fault, offset, b" of ", name.as_bytes(), b"\n"])
}

// Writes the line of a bad line of the script.
fn tell_bad_line<F: Sink>(faults: &mut F, number: u64)
    ensures { Writes (writer_of F.holds F.failed faults.old) (writer_of F.holds F.failed faults.new)
        (codes "tokend: bad line " ++ (decimal number ++ 10 ∷ [])) }
{
    let mut digits = Buffer::new();
    let number = digits.format(number).as_bytes();
    say(faults, &[b"tokend: bad line ", number, b"\n"])
}

// Writes the line of a fault that names a file.
fn tell_name<F: Sink>(faults: &mut F, fault: &[u8], name: &String)
    ensures { Writes (writer_of F.holds F.failed faults.old) (writer_of F.holds F.failed faults.new)
        (fault.now ++ (string_bytes name.now ++ 10 ∷ [])) }
{
    say(faults, &[fault, name.as_bytes(), b"\n"])
}

/// Returns the fault of a file that can't be read, or `Memory` if there is no memory for its name.
pub(crate) fn cannot_read(alloc: Global, name: &str) -> Fault
    ensures { IsUnread name.now result }
{
    match String::from_str(alloc, name) {
        Ok(name) => Fault::CannotReadFile(name),
        Err(_) => Fault::Memory,
    }
}

/// Returns the fault of a log that can't be opened, or `Memory` if there is no memory for its name.
pub(crate) fn cannot_open(alloc: Global, name: &str) -> Fault
    ensures { IsUnopened name.now result }
{
    match String::from_str(alloc, name) {
        Ok(name) => Fault::CannotOpen(name),
        Err(_) => Fault::Memory,
    }
}

impl From<AllocError> for Fault {
    ghost from_gives = { λ _ e. e ≡ fault.Memory };

    fn from(_error: AllocError) -> Fault {
        Fault::Memory
    }
}

impl<T: Drop> From<AllocFailed<T>> for Fault {
    ghost from_gives = { λ _ e. e ≡ fault.Memory };

    fn from(_error: AllocFailed<T>) -> Fault {
        Fault::Memory
    }
}

impl From<io::Error> for Fault {
    ghost from_gives = { λ error e. e ≡ input_fault (error_kind error) };

    fn from(error: io::Error) -> Fault {
        match error.kind() {
            io::ErrorKind::OutOfMemory => Fault::Memory,
            _ => Fault::CannotRead,
        }
    }
}
