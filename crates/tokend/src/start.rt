//! The start of a service: `begin` reads its seed, `load_old` loads its old log, and `prune_old`
//! prunes what was loaded.

ghost use Rattle.std.specs.Prelude.{◌≡◌, IfOk, IfErr, IfSome, is_some, string_bytes};
ghost use Rattle.tk_handle.specs.Ranges.{IsMoment, IsRegion};
ghost use Rattle.tk_region.specs.SettingsFields.{IsSettings};
ghost use Rattle.tokend.specs.CommandLine.{settings_of};
ghost use Rattle.tokend.specs.Serving.{IsSeedFault};
ghost use Rattle.tokend.specs.Starting.{IsStart, IsReportedAs, LoadsFile, LoadsOld, PrunesOld};
ghost use Rattle.tokend.specs.declared.fault.Fault.TheVariants as fault;

use crate::draw::generator;
use crate::fault::{Fault, cannot_read};
use crate::folder::Folder;
use crate::load::{LoadFault, load};
use crate::options::Service;
use crate::server::Server;
use std::alloc::Global;
use std::io::{self, Read};
use tk_edge::{Edge, Sink};
use tk_handle::{Moment, RegionNumber};
use tk_region::Region;

/// Returns the region without facts, with its random words made of the seed. Nothing is to be
/// served yet.
pub(crate) fn begin<I: Read + Drop, L: Sink, D: Folder<I, L>>(
    alloc: Global,
    folder: &D,
    service: &Service,
) -> Result<Server, Fault>
    requires settings { IsSettings (settings_of service.now.numbers) }
    requires region { IsRegion service.now.region }
    ensures start { IfOk result (λ server. IsStart service.now server.edge server.words) }
    ensures fault { IfErr result (IsSeedFault (string_bytes service.now.files.seed)) }
{
    match read_seed(alloc, folder, &service.files.seed) {
        Ok(seed) => {
            let number = RegionNumber::new(service.region).unwrap();
            let settings = service.numbers.settings().with_choices(service.choices);
            let region = Region::new(alloc, number, settings);
            match service.terms(alloc) {
                Ok(terms) => {
                    let (edge, words) = (Edge::new(region, terms), generator(seed, number));
                    Ok(Server::new(alloc, edge, words))
                }
                Err(_) => {
                    drop(region);
                    Err(Fault::Memory)
                }
            }
        }
        Err(fault) => Err(fault),
    }
}

/// Loads the old log of this name, if any, and returns how many bytes at its end were dropped.
pub(crate) fn load_old<I: Read + Drop, L: Sink, D: Folder<I, L>>(
    alloc: Global,
    folder: &D,
    region: &mut Region,
    load: &Option<String>,
) -> Result<u64, Fault>
    ensures { LoadsOld (D.kept folder.now) load.now region.old result region.new }
{
    match load {
        Some(path) => load_file(alloc, folder, region, path),
        None => Ok(0),
    }
}

/// Prunes the region up to this moment, if any, and returns how many facts went.
///
/// If memory runs out, the region is unchanged.
pub(crate) fn prune_old(
    alloc: Global,
    region: &mut Region,
    prune: Option<u64>,
) -> Result<Option<u64>, Fault>
    requires { IfSome prune IsMoment }
    ensures prunes { PrunesOld prune region.old result region.new }
    ensures asked { IfOk result (λ pruned. is_some pruned ≡ is_some prune) }
    ensures fault { IfErr result (λ f. f ≡ fault.Memory) }
{
    let Some(seconds) = prune else {
        return Ok(None);
    };
    match region.prune(alloc, Moment::new(seconds).unwrap()) {
        Ok(count) => Ok(Some(count)),
        Err(_) => Err(Fault::Memory),
    }
}

// Loads the log of this name, and returns how many bytes at its end were dropped.
fn load_file<I: Read + Drop, L: Sink, D: Folder<I, L>>(
    alloc: Global,
    folder: &D,
    region: &mut Region,
    path: &str,
) -> Result<u64, Fault>
    ensures { LoadsFile (D.kept folder.now path.now) path.now region.old result region.new }
{
    match folder.open_old(path) {
        Ok(mut file) => {
            let loaded = load(alloc, region, &mut file);
            drop(file);
            told(alloc, path, loaded)
        }
        Err(_) => told(alloc, path, Err(LoadFault::CannotRead)),
    }
}

// Returns the program's result of loading the log of this name.
fn told(alloc: Global, path: &str, loaded: Result<u64, LoadFault>) -> Result<u64, Fault>
    ensures { IsReportedAs path.now loaded result }
{
    match loaded {
        Ok(dropped) => Ok(dropped),
        Err(LoadFault::Malformed(_) | LoadFault::Refused(_)) => Err(Fault::BadLogFile),
        Err(LoadFault::CannotRead) => Err(cannot_read(alloc, path)),
        Err(LoadFault::Memory) => Err(Fault::Memory),
    }
}

// Reads the 32 bytes of a seed file.
fn read_seed<I: Read + Drop, L: Sink, D: Folder<I, L>>(
    alloc: Global,
    folder: &D,
    path: &str,
) -> Result<[u8; 32], Fault>
    ensures { IfErr result (IsSeedFault path.now) }
{
    let Ok(mut file) = folder.open_old(path) else {
        return Err(cannot_read(alloc, path));
    };
    let mut seed = [0u8; 32];
    if let Err(error) = file.read_exact(&mut seed) {
        if error.kind() == io::ErrorKind::UnexpectedEof {
            return Err(Fault::BadSeedFile);
        }
        return Err(cannot_read(alloc, path));
    }
    match file.read(&mut [0u8; 1]) {
        Ok(0) => Ok(seed),
        Ok(_) => Err(Fault::BadSeedFile),
        Err(_) => Err(cannot_read(alloc, path)),
    }
}
