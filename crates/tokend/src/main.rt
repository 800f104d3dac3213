//! The program `tokend`: an authorization server in several regions, whose sets of facts merge.
//!
//! `tokend serve` replies to the HTTP requests of one region and writes the log before each reply.
//! `tokend script` runs events in a world of regions, `tokend loopback` the same with each request
//! through a socket. `tokend facts` prints what logs, bundles and vectors hold, or says whether
//! they can be loaded. The crates below decide what an event or a request does, and what its line
//! contains. This crate has the arguments, files, sockets, clocks, and the exit statuses: 0 done; 1
//! memory or a device failed; 2 bad arguments, or a bad script, seed, log, source of facts or
//! folder of a socket; 3 another server answers at the socket.
//!
//! In reading order:
//!
//! - `command_line`, what clap knows; `arguments`, `options`: the arguments, and their task.
//! - `draw`, random words; `address`, where a service listens; `folder`, `log_file`, `parted`,
//!   `part_name`, `load`: logs. `start`, a service before its first connection; `bind`, `listen`,
//!   its sockets; `serve`, its connections; `turns`, a turn at a time; `server`, what is decided of
//!   each; `pruning`, what goes between turns; `metrics`, `exposition`, `showing`: what is counted.
//! - `script`, `loopback`; `sources`, `facts`, `check`: the files that are printed or checked.
//! - `fault`, `telling`: what may go wrong, with its line and status; `program`, all in order.
//! - `promises`: the promises about regions. The definitions are in `specs/`, listed in `Lib`.
#![tactic(auto)]

mod accepting;
mod address;
mod ahead;
mod arguments;
mod bind;
mod challenges;
mod check;
mod choices;
mod command_line;
mod connection;
mod connections;
mod door;
mod draw;
mod exposition;
mod facts;
mod fault;
mod files;
pub mod folder;
mod kinds;
mod leaving;
mod limits;
mod listen;
mod load;
mod log_file;
mod loopback;
mod losses;
mod metrics;
mod notices;
mod options;
mod part_name;
mod parted;
mod program;
pub mod promises;
mod pruning;
mod pushes;
mod ranges;
mod records;
mod repeating;
mod repeats;
mod replies_text;
mod script;
mod serve;
mod server;
mod showing;
mod socket;
mod sources;
mod start;
mod telling;
mod turns;

use arguments::arguments;
use fault::Fault;
use folder::Disk;
use program::{finish, run_program};
use std::io::BufWriter;
use std::process::ExitCode;
use telling::Steady;
use tk_edge::Counted;

fn main(rt: HostRuntime) -> ExitCode {
    let (mut input, mut faults) = (rt.stdin(), Counted::new(Steady { inner: rt.stderr() }));
    let folder = Disk { rt: &rt };
    let status = match (arguments(&rt), BufWriter::new(rt.alloc(), rt.stdout())) {
        (Ok(arguments), Ok(mut output)) => {
            let status = run_program(
                &rt,
                &folder,
                arguments.as_slice(),
                &mut input,
                &mut output,
                &mut faults,
            );
            // Dropping a buffer writes it once more, so the bytes that a failed output left are
            // taken out first.
            let _ = output.into_parts();
            status
        }
        (Err(fault), _) => finish(Err(fault), &mut faults),
        (_, Err(_)) => finish(Err(Fault::Memory), &mut faults),
    };
    ExitCode::from(status)
}
