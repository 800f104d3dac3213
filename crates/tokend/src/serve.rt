//! The service: `serve` starts it, and serves many connections at once, with the log written
//! before each reply.

ghost use Rattle.std.specs.Prelude.{◌≡◌, IfErr, IfSome, IsSome, OnOk, OnErr, is_some, true};
ghost use Rattle.std.specs.Option.{unwrap_or};
ghost use Rattle.tk_handle.specs.Ranges.{IsMoment, IsRegion};
ghost use Rattle.tk_region.specs.SettingsFields.{IsSettings};
ghost use Rattle.tokend.specs.CommandLine.{settings_of};
ghost use Rattle.tokend.specs.ServiceRun.{HasOpened, HasRun, IsServiceRun};
ghost use Rattle.tokend.specs.Serving.{
  Announces,
  IsListenFault,
  IsServiceFault,
  IsStartFault,
  LeavesAnnouncement,
  LeavesOpening,
  LeavesService,
};
ghost use Rattle.tokend.specs.Starting.{first_region};
ghost use Rattle.tokend.specs.Telling.{writer_of};
ghost use Rattle.tokend.specs.Turns.{ServesLogged, ServesWith, keeps_in};

use crate::fault::Fault;
use crate::folder::Folder;
use crate::listen::{Opening, listen};
use crate::metrics::Tally;
use crate::options::Service;
use crate::pruning::Pruning;
use crate::records::Records;
use crate::repeats::Repeats;
use crate::server::Server;
use crate::start::{begin, load_old, prune_old};
use crate::turns::serve_on;
use std::io::{Read, Write};
use std::net::Net;
use std::rt::Files;
use std::time::Clock;
use tk_edge::{Discard, Sink};

/// Serves a region, for the given number of connections or without end.
///
/// Faults that end the service happen before its first line is written. A fault of a connection is
/// a line on `faults`, and ends that connection alone.
pub(crate) fn serve<R, I: Read + Drop, L: Sink + Drop, D: Folder<I, L>, O: Write, F: Sink>(
    rt: &R,
    folder: &D,
    service: &Service,
    output: &mut O,
    faults: &mut F,
) -> Result<(), Fault>
where
    R: AllocGlobal + Files + Clock + Net,
    requires settings { IsSettings (settings_of service.now.numbers) }
    requires region { IsRegion service.now.region }
    requires prune { IfSome service.now.files.prune IsMoment }
    ensures done { OnOk result
        (IsServiceRun (D.kept folder.now) L.holds (D.opens folder.now service.now.files.log_part)
        service.now
        (record { before = O.contents output.old; after = O.contents output.new })
        (record {
          before = writer_of F.holds F.failed faults.old;
          after = writer_of F.holds F.failed faults.new;
        })) }
    ensures fault { IfErr result (IsServiceFault service.now) }
    ensures left { IfErr result
        (λ fault. LeavesService (D.kept folder.now) service.now (first_region service.now) fault
        (O.contents output.old) (O.contents output.new)) }
    ensures silent { OnErr result (faults.new ≡ faults.old) }
{
    if service.pushes.refuses_ahead && is_ahead(rt, service.files.prune) {
        return Err(Fault::PruneAhead);
    }
    match begin(rt.alloc(), folder, service) {
        Ok(mut start) => {
            let served = load_and_serve(rt, folder, service, &mut start, output, faults);
            drop(start);
            served
        }
        Err(fault) => Err(fault),
    }
}

// Returns whether the moment of a prune is later than the clock, as far as that can be read.
fn is_ahead<C: Clock>(clock: &C, prune: Option<u64>) -> bool
    ensures { result ≡ true → IsSome prune }
{
    match (prune, clock.since_1970()) {
        (Some(seconds), Ok(now)) => now.as_secs() < seconds,
        (Some(_), Err(_)) => true,
        (None, _) => false,
    }
}

// Loads the old log, if there is one, and serves.
fn load_and_serve<R, I: Read + Drop, L: Sink + Drop, D: Folder<I, L>, O: Write, F: Sink>(
    rt: &R,
    folder: &D,
    service: &Service,
    start: &mut Server,
    output: &mut O,
    faults: &mut F,
) -> Result<(), Fault>
where
    R: AllocGlobal + Files + Clock + Net,
    requires { IfSome service.now.files.prune IsMoment }
    ensures done { OnOk result
        (HasRun (D.kept folder.now) L.holds (D.opens folder.now service.now.files.log_part)
        service.now
        start.old.edge start.old.words
        (record { before = O.contents output.old; after = O.contents output.new })
        (record {
          before = writer_of F.holds F.failed faults.old;
          after = writer_of F.holds F.failed faults.new;
        })) }
    ensures fault { IfErr result (IsServiceFault service.now) }
    ensures left { IfErr result
        (λ fault. LeavesService (D.kept folder.now) service.now start.old.edge.region fault
        (O.contents output.old) (O.contents output.new)) }
    ensures silent { OnErr result (faults.new ≡ faults.old) }
{
    let old = &service.files.load;
    match load_old(rt.alloc(), folder, start.edge.region_mut(), old) {
        Ok(dropped) => prune_and_serve(rt, folder, service, dropped, start, output, faults),
        Err(fault) => Err(fault),
    }
}

// Prunes the region, if requested, and serves. `dropped` is how many bytes of the old log were
// dropped.
fn prune_and_serve<R, I: Read + Drop, L: Sink + Drop, D: Folder<I, L>, O: Write, F: Sink>(
    rt: &R,
    folder: &D,
    service: &Service,
    dropped: u64,
    start: &mut Server,
    output: &mut O,
    faults: &mut F,
) -> Result<(), Fault>
where
    R: AllocGlobal + Files + Clock + Net,
    requires { IfSome service.now.files.prune IsMoment }
    ensures done { OnOk result
        (HasOpened L.holds (D.opens folder.now service.now.files.log_part) service.now dropped
        start.old.edge
        start.old.words
        (record { before = O.contents output.old; after = O.contents output.new })
        (record {
          before = writer_of F.holds F.failed faults.old;
          after = writer_of F.holds F.failed faults.new;
        })) }
    ensures fault { IfErr result (IsStartFault service.now) }
    ensures left { IfErr result
        (λ fault. LeavesOpening service.now dropped fault (O.contents output.old)
        (O.contents output.new)) }
    ensures silent { OnErr result (faults.new ≡ faults.old) }
{
    match prune_old(rt.alloc(), start.edge.region_mut(), service.files.prune) {
        Ok(pruned) => {
            let opening = Opening { dropped, pruned };
            log_and_serve(rt, folder, service, opening, start, output, faults)
        }
        Err(fault) => Err(fault),
    }
}

// Opens the new log, if there is one, and serves.
fn log_and_serve<R, I: Read + Drop, L: Sink + Drop, D: Folder<I, L>, O: Write, F: Sink>(
    rt: &R,
    folder: &D,
    service: &Service,
    opening: Opening,
    start: &mut Server,
    output: &mut O,
    faults: &mut F,
) -> Result<(), Fault>
where
    R: AllocGlobal + Files + Clock + Net,
    ensures done { OnOk result
        (Announces opening service.now.at (O.contents output.old) (O.contents output.new)) }
    ensures served { OnOk result
        (ServesLogged L.holds (D.opens folder.now service.now.files.log_part)
        service.now.files.log start.old.words
        service.now.limits.requests (keeps_in service.now.limits.keep)
        (unwrap_or service.now.limits.repeat 0) (is_some service.now.at.inner)
        service.now.files.log_taken
        (record {
          start = start.old.edge;
          end = start.new.edge;
          faults = record {
            before = writer_of F.holds F.failed faults.old;
            after = writer_of F.holds F.failed faults.new;
          };
          prunes = is_some service.now.limits.prune_margin;
        })) }
    ensures fault { IfErr result (IsStartFault service.now) }
    ensures left { IfErr result
        (λ fault. LeavesAnnouncement opening service.now.at fault (O.contents output.old)
        (O.contents output.new)) }
    ensures silent { OnErr result (faults.new ≡ faults.old) }
{
    let Some(path) = &service.files.log else {
        let mut none = Records::new(Discard);
        return announce_and_serve(rt, service, opening, start, &mut none, output, faults);
    };
    match folder.open_new(rt.alloc(), path, service.files.log_part) {
        Ok(log) => {
            let mut log = Records::new(log);
            let served = announce_and_serve(rt, service, opening, start, &mut log, output, faults);
            drop(log);
            served
        }
        Err(fault) => Err(fault),
    }
}

// Listens, prints the announcement, and serves.
fn announce_and_serve<R, L: Sink, O: Write, F: Sink>(
    rt: &R,
    service: &Service,
    opening: Opening,
    start: &mut Server,
    log: &mut Records<L>,
    output: &mut O,
    faults: &mut F,
) -> Result<(), Fault>
where
    R: AllocGlobal + Files + Clock + Net,
    ensures done { OnOk result
        (Announces opening service.now.at (O.contents output.old) (O.contents output.new)) }
    ensures served { OnOk result
        (ServesWith start.old.words service.now.limits.requests (keeps_in service.now.limits.keep)
        (unwrap_or service.now.limits.repeat 0) (is_some service.now.at.inner)
        service.now.files.log_taken
        (record {
          start = start.old.edge;
          end = start.new.edge;
          faults = record {
            before = writer_of F.holds F.failed faults.old;
            after = writer_of F.holds F.failed faults.new;
          };
          prunes = is_some service.now.limits.prune_margin;
        })
        (record { before = L.holds log.old.log; after = L.holds log.new.log })) }
    ensures fault { IfErr result IsListenFault }
    ensures left { IfErr result
        (λ fault. LeavesAnnouncement opening service.now.at fault (O.contents output.old)
        (O.contents output.new)) }
    ensures silent { OnErr result (faults.new ≡ faults.old) }
{
    let pruning = Pruning::start(rt, service.limits.prune_margin);
    match listen(rt, service, opening, output) {
        Ok(mut connections) => {
            let keep = service.limits.keep.unwrap_or(0);
            connections.keep(keep);
            start.keeps = keep > 0;
            start.repeats = Repeats::new(rt.alloc(), service.limits.repeat.unwrap_or(0));
            start.pruning = pruning;
            start.has_inner = service.at.inner.is_some();
            start.log_taken = service.files.log_taken;
            start.left = service.limits.requests.unwrap_or(u64::MAX);
            start.tally = Tally::new(start.left);
            start.fault = None;
            serve_on(rt, &mut connections, start, log, faults);
            Ok(())
        }
        Err(fault) => Err(fault),
    }
}
