//! The whole program in order, over any reader and writers: `run_program`.

ghost use Rattle.std.specs.Prelude.{
  ◌≡◌,
  ◌≢◌,
  ◌⊎◌,
  ◌≤◌,
  List,
  OnOk,
  OnErr,
  IfOk,
  IfErr,
  IfSome,
  MatchResult,
  map,
};
ghost use Rattle.std.specs.Io.KnownBytes.{Appends, Keeps};
ghost use Rattle.clap.specs.Words.{Text, kind_of};
ghost use Rattle.clap.specs.declared.error.kind.ErrorKind.TheVariants as kind;
ghost use Rattle.tk_put.specs.Put.{AppendsFront, Prints};
ghost use Rattle.tk_world.specs.Printed.{lines_text};
ghost use Rattle.tokend.specs.LoopbackRun.{by_loopback};
ghost use Rattle.tokend.specs.ProgramRun.{IsDone, IsFaultFor, Leaves, ReportsFault};
ghost use Rattle.tokend.specs.ScriptRun.{
  in_world,
  IsReadFault,
  IsScript,
  IsScriptFault,
  LeavesScript,
  PrintsScript,
};
ghost use Rattle.tokend.specs.Status.{status_of};
ghost use Rattle.tokend.specs.Task.{Asks, IsNoShow};
ghost use Rattle.tokend.specs.Telling.{writer_of};
ghost use Rattle.tokend.specs.declared.fault.Fault.{Fault as FaultValue};
ghost use Rattle.tokend.specs.declared.fault.Fault.TheVariants as fault;

use crate::check::check_facts;
use crate::facts::print_facts;
use crate::fault::{Fault, tell};
use crate::folder::Folder;
use crate::loopback::{MAX_REQUEST, run_by_sockets};
use crate::options::{Task, options};
use crate::script::{read_events, read_script};
use crate::serve::serve;
use clap::Error;
use clap::error::ErrorKind;
use std::alloc::Global;
use std::convert::AsStr;
use std::io::{self, Read, Write};
use std::net::{Net, TcpListener, TcpStream};
use std::rt::Files;
use std::time::Clock;
use tk_edge::Sink;
use tk_world::{Event, Outcome, Settings, World, print_outcomes};

/// Does the task that the arguments request, and returns the exit status.
///
/// The first argument is the program's name. The status is 0 when done, 1 if memory or a device
/// failed, 2 for bad arguments or a bad script, seed or log, and 3 if another server answers at the
/// socket. A fault's line is written to `faults`, whose own failures are ignored. The output is
/// written in small pieces and flushed at the end.
pub(crate) fn run_program<R, B, L, D, S, I, O, F>(
    rt: &R,
    folder: &D,
    words: &[S],
    input: &mut I,
    output: &mut O,
    faults: &mut F,
) -> u8
where
    R: AllocGlobal + Files + Clock + Net<Listener = TcpListener, Stream = TcpStream>,
    B: Read + Drop,
    L: Sink + Drop,
    D: Folder<B, L>,
    S: AsStr,
    I: Read,
    O: Write,
    F: Sink,
    ensures status { result ≤ 3 }
    ensures done { result ≡ 0
        → IsDone (D.kept folder.now) L.holds (D.opens folder.now)
        (map S.text words.now) (I.remaining input.old)
        (record { before = O.contents output.old; after = O.contents output.new })
        (record {
          before = writer_of F.holds F.failed faults.old;
          after = writer_of F.holds F.failed faults.new;
        }) }

    // Status 1: memory or a device may cause the fault, and the output has a beginning of what
    // would have been written.
    ensures broken { result ≡ 1
        → (fault : FaultValue) × (status_of fault ≡ 1)
        × IsFaultFor (map S.text words.now) (I.remaining input.old) fault
        × Leaves (D.kept folder.now) (map S.text words.now) (I.remaining input.old) fault
        (O.contents output.old) (O.contents output.new)
        × ReportsFault fault (writer_of F.holds F.failed faults.old)
        (writer_of F.holds F.failed faults.new) }

    // Status 2: the output has no new byte, or the lines before bad bytes of `facts`.
    ensures refused { result ≡ 2 → (fault : FaultValue) × (status_of fault ≡ 2)
        × IsFaultFor (map S.text words.now) (I.remaining input.old) fault
        × Leaves (D.kept folder.now) (map S.text words.now) (I.remaining input.old) fault
        (O.contents output.old) (O.contents output.new)
        × ReportsFault fault (writer_of F.holds F.failed faults.old)
        (writer_of F.holds F.failed faults.new) }

    // Status 3: the output has no new byte.
    ensures in_use { result ≡ 3 → (fault : FaultValue) × (status_of fault ≡ 3)
        × IsFaultFor (map S.text words.now) (I.remaining input.old) fault
        × Leaves (D.kept folder.now) (map S.text words.now) (I.remaining input.old) fault
        (O.contents output.old) (O.contents output.new)
        × ReportsFault fault (writer_of F.holds F.failed faults.old)
        (writer_of F.holds F.failed faults.new) }
{
    finish(run(rt, folder, words, input, output, faults), faults)
}

/// Returns the exit status of a run, and writes its fault, if any, to `faults`.
pub(crate) fn finish<F: Sink>(ran: Result<(), Fault>, faults: &mut F) -> u8
    ensures { MatchResult ran (λ _. (result ≡ 0) × (faults.new ≡ faults.old))
        (λ fault. (result ≡ status_of fault)
        × ReportsFault fault (writer_of F.holds F.failed faults.old)
        (writer_of F.holds F.failed faults.new)) }
{
    match ran {
        Ok(()) => 0,
        Err(fault) => {
            tell(faults, &fault);
            fault.status()
        }
    }
}

// Does the task that the arguments request.
fn run<R, B, L, D, S, I, O, F>(
    rt: &R,
    folder: &D,
    words: &[S],
    input: &mut I,
    output: &mut O,
    faults: &mut F,
) -> Result<(), Fault>
where
    R: AllocGlobal + Files + Clock + Net<Listener = TcpListener, Stream = TcpStream>,
    B: Read + Drop,
    L: Sink + Drop,
    D: Folder<B, L>,
    S: AsStr,
    I: Read,
    O: Write,
    F: Sink,
    ensures done { OnOk result
        (IsDone (D.kept folder.now) L.holds (D.opens folder.now)
        (map S.text words.now) (I.remaining input.old)
        (record { before = O.contents output.old; after = O.contents output.new })
        (record {
          before = writer_of F.holds F.failed faults.old;
          after = writer_of F.holds F.failed faults.new;
        })) }
    ensures fault { IfErr result (IsFaultFor (map S.text words.now) (I.remaining input.old)) }
    ensures left { IfErr result
        (λ fault. Leaves (D.kept folder.now) (map S.text words.now) (I.remaining input.old) fault
        (O.contents output.old) (O.contents output.new)) }
    ensures silent { OnErr result (faults.new ≡ faults.old) }
{
    match options(rt.alloc(), words) {
        Ok(task) => {
            let ran = run_task(rt, folder, &task, input, output, faults);
            drop(task);
            ran
        }
        Err(error) => show_or_refuse(output, error),
    }
}

// Does a task. The clauses name the arguments that request it.
fn run_task<R, B, L, D, I, O, F>(
    rt: &R,
    folder: &D,
    task: &Task,
    input: &mut I,
    output: &mut O,
    faults: &mut F,
) -> Result<(), Fault>
where
    R: AllocGlobal + Files + Clock + Net<Listener = TcpListener, Stream = TcpStream>,
    B: Read + Drop,
    L: Sink + Drop,
    D: Folder<B, L>,
    I: Read,
    O: Write,
    F: Sink,
    requires { (words : List Text) × Asks words task.now }
    ensures done { (words : List Text) → Asks words task.now
        → OnOk result
        (IsDone (D.kept folder.now) L.holds (D.opens folder.now) words
        (I.remaining input.old)
        (record { before = O.contents output.old; after = O.contents output.new })
        (record {
          before = writer_of F.holds F.failed faults.old;
          after = writer_of F.holds F.failed faults.new;
        })) }
    ensures fault { (words : List Text) → Asks words task.now
        → IfErr result (IsFaultFor words (I.remaining input.old)) }
    ensures left { (words : List Text) → Asks words task.now
        → IfErr result
        (λ fault. Leaves (D.kept folder.now) words (I.remaining input.old) fault
        (O.contents output.old) (O.contents output.new)) }
    ensures silent { OnErr result (faults.new ≡ faults.old) }
{
    match task {
        Task::Script(numbers) => run_script(rt.alloc(), numbers.settings(), input, output),
        Task::Loopback(numbers) => run_loopback(rt, numbers.settings(), input, output),
        Task::Serve(service) => serve(rt, folder, service, output, faults),
        Task::Facts(sources) => print_facts(rt, sources, input, output, faults),
        Task::Check(check) => check_facts(rt, check, input, output, faults),
    }
}

// Prints help and the version. Any other error of clap is a fault.
fn show_or_refuse<O: Write>(output: &mut O, error: Error) -> Result<(), Fault>
    ensures shown { OnOk result ((kind_of error ≡ kind.DisplayHelp)
        ⊎ (kind_of error ≡ kind.DisplayVersion)) }
    ensures fault { IfErr result
        (λ f. ((f ≡ fault.Output)
        × ((kind_of error ≡ kind.DisplayHelp) ⊎ (kind_of error ≡ kind.DisplayVersion)))
        ⊎ (((f ≡ fault.Memory)
        ⊎ ((f ≡ fault.Arguments error) × (kind_of error ≢ kind.OutOfMemory)
        × IsNoShow (kind_of error)))
        × Keeps (O.contents output.old) (O.contents output.new))) }
{
    match error.kind() {
        ErrorKind::DisplayHelp | ErrorKind::DisplayVersion => match show(output, &error) {
            Ok(()) => Ok(()),
            Err(_) => Err(Fault::Output),
        },
        ErrorKind::OutOfMemory => Err(Fault::Memory),
        _ => Err(Fault::Arguments(error)),
    }
}

// Prints clap's text for help or the version.
fn show<O: Write>(output: &mut O, text: &Error) -> io::Result<()> {
    write!(output, "{text}")?;
    output.flush()
}

// Runs a script. All that may fail for memory or input happens before the first event.
fn run_script<I: Read, O: Write>(
    alloc: Global,
    settings: Settings,
    input: &mut I,
    output: &mut O,
) -> Result<(), Fault>
    ensures done { OnOk result
        (PrintsScript (in_world settings) (I.remaining input.old) (O.contents output.old)
        (O.contents output.new)) }
    ensures fault { IfErr result (IsScriptFault (in_world settings) (I.remaining input.old)) }
    ensures left { IfErr result
        (λ fault. LeavesScript (in_world settings) (I.remaining input.old) fault
        (O.contents output.old) (O.contents output.new)) }
{
    let events = match read_input(alloc, input, None) {
        Ok(events) => events,
        Err(fault) => return Err(fault),
    };
    let mut world = World::new(alloc, settings);
    match world.run(events.as_slice()) {
        Ok(outcomes) => print_lines(output, events.as_slice(), outcomes.as_slice()),
        Err(_) => Err(Fault::Memory),
    }
}

// Runs a script with each request through a socket. The bytes of sockets are unknown, so the
// clauses can't determine its outcomes.
fn run_loopback<R, I: Read, O: Write>(
    rt: &R,
    settings: Settings,
    input: &mut I,
    output: &mut O,
) -> Result<(), Fault>
where
    R: AllocGlobal + Net<Listener = TcpListener, Stream = TcpStream>,
    ensures done { OnOk result
        (PrintsScript (by_loopback settings) (I.remaining input.old) (O.contents output.old)
        (O.contents output.new)) }
    ensures fault { IfErr result (IsScriptFault (by_loopback settings) (I.remaining input.old)) }
    ensures left { IfErr result
        (λ fault. LeavesScript (by_loopback settings) (I.remaining input.old) fault
        (O.contents output.old) (O.contents output.new)) }
{
    let events = match read_input(rt.alloc(), input, Some(MAX_REQUEST)) {
        Ok(events) => events,
        Err(fault) => return Err(fault),
    };
    match run_by_sockets(rt, settings, events.as_slice()) {
        Ok(outcomes) => print_lines(output, events.as_slice(), outcomes.as_slice()),
        Err(fault) => Err(fault),
    }
}

// Reads the events of the input's script, whose requests have at most `longest` bytes.
fn read_input<I: Read>(
    alloc: Global,
    input: &mut I,
    longest: Option<u64>,
) -> Result<Vec<Event>, Fault>
    ensures given { IfOk result
        (λ events. IfSome (I.remaining input.old) (λ text. IsScript longest text events.items)) }
    ensures fault { IfErr result (IsReadFault longest (I.remaining input.old)) }
{
    match read_script(alloc, input) {
        Ok(script) => read_events(alloc, script.as_slice(), longest),
        Err(fault) => Err(fault),
    }
}

// Prints the lines. A failed output has the beginning of them.
fn print_lines<O: Write>(
    output: &mut O,
    events: &[Event],
    outcomes: &[Outcome],
) -> Result<(), Fault>
    ensures done { OnOk result
        (Appends (O.contents output.old) (O.contents output.new)
        (lines_text events.now outcomes.now)) }
    ensures fault { IfErr result (λ f. (f ≡ fault.Output)
        × AppendsFront (O.contents output.old) (O.contents output.new)
        (lines_text events.now outcomes.now)) }
{
    match print_all(output, events, outcomes) {
        Ok(()) => Ok(()),
        Err(_) => Err(Fault::Output),
    }
}

// Prints a line for each event, and flushes.
fn print_all<O: Write>(output: &mut O, events: &[Event], outcomes: &[Outcome]) -> io::Result<()>
    ensures { Prints result (O.contents output.old) (O.contents output.new)
        (lines_text events.now outcomes.now) }
{
    match print_outcomes(output, events, outcomes) {
        Ok(()) => output.flush(),
        Err(error) => Err(error),
    }
}
