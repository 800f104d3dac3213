//! Says whether sources can be loaded: `check_facts`.

ghost use Rattle.std.specs.Prelude.{◌≡◌, None, Ok, Err, OnErr, OnOk, IfErr, IfOk, false, map};
ghost use Rattle.std.specs.Prelude.{codes, string_bytes};
ghost use Rattle.std.specs.FinMap as sets;
ghost use Rattle.std.specs.Str.{bytes_eq};
ghost use Rattle.tk_put.specs.Put.{Prints};
ghost use Rattle.tk_handle.specs.Ranges.{IsRegion};
ghost use Rattle.tk_store.specs.StoreFields.{held_facts};
ghost use Rattle.tk_region.specs.RegionFields.{RegionFields};
ghost use Rattle.tokend.specs.CheckRun.{
  BeginsCheck,
  Checks,
  ChecksFacts,
  IsRefusedSource,
  IsReported,
  IsReportedAs,
  LoadsEach,
  LoadsSource,
  LoadsSources,
  max_settings,
  loaded_text,
};
ghost use Rattle.tokend.specs.FactsRun.{IsFactsFault, IsSourceFault, known_of};
ghost use Rattle.tokend.specs.Status.{LeavesBegun};
ghost use Rattle.tokend.specs.Telling.{writer_of};

use crate::facts::{bad, tell_cut, unread};
use crate::fault::{FactsFault, Fault};
use crate::load::{LoadFault, load};
use crate::options::{Check, Sources};
use itoa::Buffer;
use std::alloc::Global;
use std::fs::OpenOptions;
use std::io::{self, Read, Write};
use std::rt::Files;
use tk_edge::Sink;
use tk_handle::RegionNumber;
use tk_message::Lives;
use tk_put::put_all;
use tk_region::Region;
use tk_world::Settings;

// What loading sources gave.
#[derive(Clone, Copy)]
struct Loaded {
    // How many facts the region holds.
    facts: u64,
    // How many bytes are dropped at the ends of the sources.
    cut: u64,
}

/// Loads each source, in order, into a region without facts, prints how many facts it holds then,
/// and flushes.
///
/// How many bytes are dropped at the ends of the sources is written to `faults`.
pub(crate) fn check_facts<R: AllocGlobal + Files, I: Read, O: Write, F: Sink>(
    rt: &R,
    check: &Check,
    input: &mut I,
    output: &mut O,
    faults: &mut F,
) -> Result<(), Fault>
    requires { IsRegion check.now.region }
    ensures done { OnOk result
        (ChecksFacts check.now (I.remaining input.old)
        (record { before = O.contents output.old; after = O.contents output.new })
        (record {
          before = writer_of F.holds F.failed faults.old;
          after = writer_of F.holds F.failed faults.new;
        })) }
    ensures fault { IfErr result IsFactsFault }
    ensures left { IfErr result
        (λ fault. LeavesBegun (BeginsCheck check.now (I.remaining input.old) fault
        (O.contents output.old) (O.contents output.new)) fault (O.contents output.old)
        (O.contents output.new)) }
    ensures silent { OnErr result (faults.new ≡ faults.old) }
{
    let loaded = match load_all(rt, check, input) {
        Ok(loaded) => loaded,
        Err(fault) => return Err(fault),
    };
    match print_count(output, loaded.facts) {
        Ok(()) => {
            tell_cut(faults, loaded.cut);
            Ok(())
        }
        Err(_) => Err(Fault::Output),
    }
}

// Prints the number of facts, and flushes.
fn print_count<O: Write>(output: &mut O, count: u64) -> io::Result<()>
    ensures { Prints result (O.contents output.old) (O.contents output.new) (loaded_text count) }
{
    match put_count(output, count) {
        Ok(()) => output.flush(),
        Err(error) => Err(error),
    }
}

// Prints the number of facts.
fn put_count<O: Write>(output: &mut O, count: u64) -> io::Result<()>
    ensures { Prints result (O.contents output.old) (O.contents output.new) (loaded_text count) }
{
    let mut digits = Buffer::new();
    let count = digits.format(count).as_bytes();
    put_all(output, &[b"loaded ", count, b" facts\n"])
}

// Loads all sources into a region of the check's number.
fn load_all<R: AllocGlobal + Files, I: Read>(
    rt: &R,
    check: &Check,
    input: &mut I,
) -> Result<Loaded, Fault>
    requires { IsRegion check.now.region }
    ensures loaded { IfOk result
        (λ loaded. (region : RegionFields) × Checks check.now (I.remaining input.old)
        (Ok loaded.cut) region × (loaded.facts ≡ sets.len (held_facts region.facts))) }
    ensures fault { IfErr result
        (λ fault. IsSourceFault fault × ((region : RegionFields)
        × Checks check.now (I.remaining input.old) (Err fault) region)) }
{
    let number = RegionNumber::new(check.region).unwrap();
    let mut region = Region::new(rt.alloc(), number, settings());
    let loaded = load_sources(rt, &mut region, &check.sources, input);
    let facts = region.len();
    drop(region);
    match loaded {
        Ok(cut) => Ok(Loaded { facts, cut }),
        Err(fault) => Err(fault),
    }
}

// Returns the greatest settings.
fn settings() -> Settings
    ensures { result ≡ max_settings }
{
    let lives = Lives {
        code: Settings::MAX_CODE,
        access: Settings::MAX_ACCESS,
        refresh: Settings::MAX_REFRESH,
        family: Settings::MAX_FAMILY,
    };
    Settings::new(lives, Settings::MAX_CAP).unwrap()
}

// Loads the sources, or the standard input if there are none.
fn load_sources<R: AllocGlobal + Files, I: Read>(
    rt: &R,
    region: &mut Region,
    sources: &Sources,
    input: &mut I,
) -> Result<u64, Fault>
    ensures { LoadsSources sources.now (I.remaining input.old) region.old result region.new }
{
    if sources.names.is_empty() {
        load_source(rt, region, "-", input)
    } else {
        load_each(rt, region, &sources.names, input)
    }
}

// Loads the sources of these names, in order. Returns how many bytes are dropped at their ends.
fn load_each<R: AllocGlobal + Files, I: Read>(
    rt: &R,
    region: &mut Region,
    names: &[String],
    input: &mut I,
) -> Result<u64, Fault>
    ensures { LoadsEach (map string_bytes names.now) (I.remaining input.old) region.old result
        region.new }
{
    let Some((name, more)) = names.split_first() else {
        return Ok(0);
    };
    let cut = match load_source(rt, region, name, input) {
        Ok(cut) => cut,
        Err(fault) => return Err(fault),
    };
    match load_each(rt, region, more, input) {
        Ok(later) => Ok(cut.saturating_add(later)),
        Err(fault) => Err(fault),
    }
}

// Loads the source of this name.
fn load_source<R: AllocGlobal + Files, I: Read>(
    rt: &R,
    region: &mut Region,
    name: &str,
    input: &mut I,
) -> Result<u64, Fault>
    ensures loaded { LoadsSource name.now (known_of name.now (I.remaining input.old)) region.old
        result region.new }
    ensures left { bytes_eq name.now (codes "-") ≡ false
        → I.remaining input.new ≡ I.remaining input.old }
{
    if name == "-" {
        let loaded = load(rt.alloc(), region, input);
        told(rt.alloc(), name, loaded)
    } else {
        load_file(rt, region, name)
    }
}

// Loads the file of this name, whose bytes no clause knows.
fn load_file<R: AllocGlobal + Files>(rt: &R, region: &mut Region, name: &str) -> Result<u64, Fault>
    ensures { LoadsSource name.now None region.old result region.new }
{
    let Ok(mut file) = OpenOptions::new().read(true).open(rt, name) else {
        return Err(unread(rt.alloc(), name));
    };
    let loaded = load(rt.alloc(), region, &mut file);
    told(rt.alloc(), name, loaded)
}

// Returns the program's result of loading the source of this name.
fn told(alloc: Global, name: &str, loaded: Result<u64, LoadFault>) -> Result<u64, Fault>
    ensures { IsReported name.now loaded result }
{
    match loaded {
        Ok(dropped) => Ok(dropped),
        Err(fault) => Err(fault_of(alloc, name, fault)),
    }
}

// Returns the program's fault for that of loading the source of this name.
fn fault_of(alloc: Global, name: &str, fault: LoadFault) -> Fault
    ensures { IsReportedAs name.now fault result }
{
    match fault {
        LoadFault::Malformed(offset) => bad(alloc, name, offset),
        LoadFault::Refused(offset) => refused(alloc, name, offset),
        LoadFault::CannotRead => unread(alloc, name),
        LoadFault::Memory => Fault::Facts(FactsFault::Memory),
    }
}

// Returns the fault of a source with a bundle that is refused, or out of memory.
fn refused(alloc: Global, name: &str, offset: u64) -> Fault
    ensures { IsRefusedSource name.now offset result }
{
    match String::from_str(alloc, name) {
        Ok(name) => Fault::Facts(FactsFault::Refused(name, offset)),
        Err(_) => Fault::Facts(FactsFault::Memory),
    }
}
