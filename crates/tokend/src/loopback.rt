//! Runs a script's events with each request through a socket of this machine: `run_by_sockets`.
//!
//! A world runs the events, as it does without sockets. `Sockets` carries the requests.

ghost use Rattle.std.specs.Prelude.{◌≡◌, ◌≢◌, Err, IfOk, IfErr};
ghost use Rattle.tk_edge.specs.declared.tell.Fault.TheVariants as fault;
ghost use Rattle.tk_world.specs.WorldFields.{new_world};
ghost use Rattle.tokend.specs.Connection.{IsConnection, end_of};
ghost use Rattle.tokend.specs.LoopbackRun.{by_sockets, IsSocketFault, RunsBySockets};

use crate::fault::Fault;
use std::alloc::Global;
use std::io::{self, Read, Write};
use std::mem::replace;
use std::net::{Ipv4Addr, Net, OpenListener, OpenStream, Shutdown, TcpListener, TcpStream};
use tk_edge::{Counted, Discard, Edge, Fault as EdgeFault, PathSet, Reach, Served, Taken};
use tk_handle::Moment;
use tk_world::{Carrier, Event, Outcome, RunError, Settings, World};

/// The greatest length of a request, in bytes. A socket takes that many before the other side
/// reads.
pub(crate) const MAX_REQUEST: u64 = 16_384;

/// For how many bytes of a reply memory is taken before its request is served.
const REPLY_ROOM: usize = 4_096;

/// Runs the events in order in a new world, and returns one outcome for each. A socket that fails
/// ends the run.
pub(crate) fn run_by_sockets<R>(
    rt: &R,
    settings: Settings,
    events: &[Event],
) -> Result<Vec<Outcome>, Fault>
where
    R: AllocGlobal + Net<Listener = TcpListener, Stream = TcpStream>,
    ensures run { IfOk result
        (λ outcomes. RunsBySockets (new_world settings) events.now outcomes.items) }
    ensures fault { IfErr result IsSocketFault }
{
    let Ok(listener) = TcpListener::bind(rt, (Ipv4Addr::new(127, 0, 0, 1), 0)) else {
        return Err(Fault::SocketFailed);
    };
    let mut world = World::new(rt.alloc(), settings);
    let ran = world.run_by(&Sockets { rt, listener }, events);
    // The promises about any world hold of this one.
    world.known();
    match ran {
        Ok(outcomes) => Ok(outcomes),
        Err(RunError::Memory) => Err(Fault::Memory),
        Err(RunError::Lost(SocketFault::Memory)) => Err(Fault::Memory),
        Err(RunError::Lost(SocketFault::Failed)) => Err(Fault::SocketFailed),
    }
}

// Why a request by a socket was lost.
#[derive(Clone, Copy)]
enum SocketFault {
    // There is no memory for the bytes of the reply.
    Memory,
    // A socket failed.
    Failed,
}

// Carries each request by a connection to this listener.
#[derive(Drop)]
struct Sockets<'a, R> {
    rt: &'a R,
    listener: TcpListener,
}

impl<'a, R> Carrier for Sockets<'a, R>
where
    R: AllocGlobal + Net<Listener = TcpListener, Stream = TcpStream>,
{
    type Fault = SocketFault;

    // The bytes of sockets are unknown, so that this can't be the way of `World::run`.
    ghost way = { by_sockets };

    // The client's end sends the whole request before the region's end reads it, and reads the
    // reply after the region's end is closed.
    fn carry(
        &self,
        edge: &mut Edge,
        now: Moment,
        words: &[u64; 6],
        bytes: &[u8],
    ) -> Result<Outcome, SocketFault> {
        let alloc = self.rt.alloc();
        let Ok(client) = send(self.rt, &self.listener, bytes) else {
            return Err(SocketFault::Failed);
        };
        let Ok((mut stream, _)) = self.listener.accept() else {
            return Err(SocketFault::Failed);
        };
        let request = read_whole(alloc, &mut stream)?;
        let Ok(mut reply) = Vec::with_capacity(alloc, REPLY_ROOM) else {
            return Ok(Outcome::Memory);
        };
        match serve_bytes(alloc, edge, now, words, request.as_slice(), &mut reply) {
            Ok(Served::Done(status)) => {
                let bytes = return_reply(alloc, stream, reply.as_slice(), client)?;
                Ok(Outcome::Reply { status, bytes })
            }
            Err(EdgeFault::Memory) => Ok(Outcome::Memory),
            // The reply is written to memory.
            Err(EdgeFault::Write) => Err(SocketFault::Memory),
            _ => Err(SocketFault::Failed),
        }
    }
}

// Connects, writes the request and shuts down the writing side.
fn send<R>(rt: &R, listener: &TcpListener, bytes: &[u8]) -> io::Result<TcpStream>
where
    R: Net<Listener = TcpListener, Stream = TcpStream>,
{
    let mut client = TcpStream::connect(rt, listener.local_addr()?)?;
    client.write_all(bytes)?;
    client.shutdown(Shutdown::Write)?;
    Ok(client)
}

// Serves the request that came over the region's end, behind which nothing follows. No log is kept,
// so that none fails.
fn serve_bytes(
    alloc: Global,
    edge: &mut Edge,
    now: Moment,
    words: &[u64; 6],
    bytes: &[u8],
    reply: &mut Vec<u8>,
) -> Result<Served, EdgeFault>
    ensures connection { IsConnection now words.now bytes.now edge.old edge.new result }
    ensures unlogged { result ≢ Err fault.Log }
{
    let mut writer = Counted::new(replace(reply, Vec::new(alloc)));
    let served = edge.serve_front(
        alloc,
        Reach::plain(PathSet::Admin),
        bytes,
        true,
        &mut writer,
        &mut Discard,
        false,
        now,
        words,
    );
    *reply = writer.inner;
    end_of(served)
}

// Returns how a connection ended whose client has ended its side.
fn end_of(served: Result<Option<(Served, Taken)>, EdgeFault>) -> Result<Served, EdgeFault>
    ensures { result ≡ end_of served }
{
    match served {
        Ok(Some((served, _))) => Ok(served),
        Ok(None) => Err(EdgeFault::Read),
        Err(fault) => Err(fault),
    }
}

// Sends the reply over the region's end, closes that, and reads the reply at the client's end.
fn return_reply(
    alloc: Global,
    mut stream: TcpStream,
    reply: &[u8],
    mut client: TcpStream,
) -> Result<Vec<u8>, SocketFault> {
    let sent = stream.write_all(reply);
    drop(stream);
    match sent {
        Ok(()) => read_whole(alloc, &mut client),
        Err(_) => Err(SocketFault::Failed),
    }
}

// Reads what comes over a stream to its end.
fn read_whole(alloc: Global, stream: &mut TcpStream) -> Result<Vec<u8>, SocketFault> {
    let mut bytes = Vec::new(alloc);
    match stream.read_to_end(&mut bytes) {
        Ok(_) => Ok(bytes),
        Err(error) if error.kind() == io::ErrorKind::OutOfMemory => Err(SocketFault::Memory),
        Err(_) => Err(SocketFault::Failed),
    }
}
