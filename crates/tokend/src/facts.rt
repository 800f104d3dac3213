//! Prints the facts of sources: `print_facts`.

ghost use Rattle.std.specs.Prelude.{◌≡◌, None, OnErr, OnOk, IfErr, false};
ghost use Rattle.std.specs.Prelude.{map, string_bytes, codes};
ghost use Rattle.std.specs.Str.{bytes_eq};
ghost use Rattle.tokend.specs.FactsRun.{
  BeginsFacts,
  IsBadSource,
  IsFactsFault,
  IsReported,
  IsReportedAs,
  IsUnreadSource,
  PrintsEach,
  PrintsFacts,
  PrintsSource,
  PrintsSources,
  TellsDropped,
  cut_text,
  known_of,
};
ghost use Rattle.tokend.specs.Status.{LeavesBegun};
ghost use Rattle.tokend.specs.Telling.{Writes, writer_of};

use crate::fault::{FactsFault, Fault};
use crate::options::Sources;
use crate::telling::say;
use itoa::Buffer;
use std::alloc::Global;
use std::fs::OpenOptions;
use std::io::{Read, Write};
use std::rt::Files;
use tk_edge::Sink;
use tk_listing::{PrintFault, print_lines};

/// Prints the facts of each source, in order, and flushes.
///
/// How many bytes are dropped at the ends of the sources is written to `faults`.
pub(crate) fn print_facts<R: AllocGlobal + Files, I: Read, O: Write, F: Sink>(
    rt: &R,
    sources: &Sources,
    input: &mut I,
    output: &mut O,
    faults: &mut F,
) -> Result<(), Fault>
    ensures done { OnOk result
        (PrintsFacts sources.now (I.remaining input.old)
        (record { before = O.contents output.old; after = O.contents output.new })
        (record {
          before = writer_of F.holds F.failed faults.old;
          after = writer_of F.holds F.failed faults.new;
        })) }
    ensures fault { IfErr result IsFactsFault }
    ensures left { IfErr result
        (λ fault. LeavesBegun (BeginsFacts sources.now (I.remaining input.old) fault
        (O.contents output.old) (O.contents output.new)) fault (O.contents output.old)
        (O.contents output.new)) }
    ensures silent { OnErr result (faults.new ≡ faults.old) }
{
    let printed = print_sources(rt, sources, input, output);
    let flushed = output.flush();
    match (printed, flushed) {
        (Ok(cut), Ok(())) => {
            tell_cut(faults, cut);
            Ok(())
        }
        (Err(fault), Ok(())) => Err(fault),
        (_, Err(_)) => Err(Fault::Output),
    }
}

/// Writes how many bytes are dropped, if any are. If the writer fails, it has the beginning of the
/// line.
pub(crate) fn tell_cut<F: Sink>(faults: &mut F, cut: u64)
    ensures { TellsDropped cut
        (record {
          before = writer_of F.holds F.failed faults.old;
          after = writer_of F.holds F.failed faults.new;
        }) }
{
    if cut != 0 {
        say_cut(faults, cut);
    }
}

// Writes how many bytes are dropped.
fn say_cut<F: Sink>(faults: &mut F, cut: u64)
    ensures { Writes (writer_of F.holds F.failed faults.old) (writer_of F.holds F.failed faults.new)
        (cut_text cut) }
{
    let mut digits = Buffer::new();
    let cut = digits.format(cut).as_bytes();
    say(faults, &[b"tokend: dropped ", cut, b" bytes\n"]);
}

// Prints the facts of the sources, or of the standard input if there are none.
fn print_sources<R: AllocGlobal + Files, I: Read, O: Write>(
    rt: &R,
    sources: &Sources,
    input: &mut I,
    output: &mut O,
) -> Result<u64, Fault>
    ensures { PrintsSources sources.now (I.remaining input.old) result
        (O.contents output.old) (O.contents output.new) }
{
    if sources.names.is_empty() {
        print_source(rt, "-", input, output)
    } else {
        print_each(rt, &sources.names, input, output)
    }
}

// Prints the facts of the sources of these names, in order. Returns how many bytes are dropped at
// their ends.
fn print_each<R: AllocGlobal + Files, I: Read, O: Write>(
    rt: &R,
    names: &[String],
    input: &mut I,
    output: &mut O,
) -> Result<u64, Fault>
    ensures { PrintsEach (map string_bytes names.now) (I.remaining input.old) result
        (O.contents output.old) (O.contents output.new) }
{
    let Some((name, more)) = names.split_first() else {
        return Ok(0);
    };
    let cut = match print_source(rt, name, input, output) {
        Ok(cut) => cut,
        Err(fault) => return Err(fault),
    };
    match print_each(rt, more, input, output) {
        Ok(later) => Ok(cut.saturating_add(later)),
        Err(fault) => Err(fault),
    }
}

// Prints the facts of the source of this name.
fn print_source<R: AllocGlobal + Files, I: Read, O: Write>(
    rt: &R,
    name: &str,
    input: &mut I,
    output: &mut O,
) -> Result<u64, Fault>
    ensures printed { PrintsSource name.now (known_of name.now (I.remaining input.old)) result
        (O.contents output.old) (O.contents output.new) }
    ensures left { bytes_eq name.now (codes "-") ≡ false
        → I.remaining input.new ≡ I.remaining input.old }
{
    if name == "-" {
        let printed = print_lines(rt.alloc(), input, output);
        told(rt.alloc(), name, printed)
    } else {
        print_file(rt, name, output)
    }
}

// Prints the facts of the file of this name, whose bytes no clause knows.
fn print_file<R: AllocGlobal + Files, O: Write>(
    rt: &R,
    name: &str,
    output: &mut O,
) -> Result<u64, Fault>
    ensures { PrintsSource name.now None result (O.contents output.old) (O.contents output.new) }
{
    let Ok(mut file) = OpenOptions::new().read(true).open(rt, name) else {
        return Err(unread(rt.alloc(), name));
    };
    let printed = print_lines(rt.alloc(), &mut file, output);
    told(rt.alloc(), name, printed)
}

// Returns the program's result of printing the source of this name.
fn told(alloc: Global, name: &str, printed: Result<u64, PrintFault>) -> Result<u64, Fault>
    ensures { IsReported name.now printed result }
{
    match printed {
        Ok(cut) => Ok(cut),
        Err(fault) => Err(fault_of(alloc, name, fault)),
    }
}

// Returns the program's fault for that of the source of this name.
fn fault_of(alloc: Global, name: &str, fault: PrintFault) -> Fault
    ensures { IsReportedAs name.now fault result }
{
    match fault {
        PrintFault::Malformed(offset) => bad(alloc, name, offset),
        PrintFault::CannotRead => unread(alloc, name),
        PrintFault::Memory => Fault::Facts(FactsFault::Memory),
        PrintFault::Output => Fault::Output,
    }
}

/// Returns the fault of a source with bad bytes, or out of memory.
pub(crate) fn bad(alloc: Global, name: &str, offset: u64) -> Fault
    ensures { IsBadSource name.now offset result }
{
    match String::from_str(alloc, name) {
        Ok(name) => Fault::Facts(FactsFault::Malformed(name, offset)),
        Err(_) => Fault::Facts(FactsFault::Memory),
    }
}

/// Returns the fault of a source that can't be read, or out of memory.
pub(crate) fn unread(alloc: Global, name: &str) -> Fault
    ensures { IsUnreadSource name.now result }
{
    match String::from_str(alloc, name) {
        Ok(name) => Fault::Facts(FactsFault::CannotReadFile(name)),
        Err(_) => Fault::Facts(FactsFault::Memory),
    }
}
