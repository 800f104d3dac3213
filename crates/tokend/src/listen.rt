//! The sockets of a service, and the lines before its first connection: `listen`.

ghost use Rattle.std.specs.Prelude.{◌++◌, OnOk, IfErr, string_bytes};
ghost use Rattle.tk_put.specs.Put.{Prints, joined_text};
ghost use Rattle.tokend.specs.Serving.{
  announced,
  dropped_bytes,
  dropped_line,
  inner_line,
  listening_at,
  listening_line,
  outer_line,
  pruned_facts,
  pruned_line,
  Announces,
  IsBindFault,
  IsListenedOn,
  IsListenFault,
  LeavesAnnouncement,
};

use crate::address::{Address, Addresses};
use crate::bind::{bind, bind_path};
use crate::connections::{Connections, NoRoom};
use crate::fault::Fault;
use crate::options::Service;
use crate::socket::Listener;
use itoa::Buffer;
use std::io::{self, Write};
use std::net::Net;
use std::rt::Files;
use tk_put::put_all;

/// What a start announces of its region before it listens.
#[derive(Clone, Copy)]
pub struct Opening {
    /// How many bytes at the end of the old log were dropped.
    pub dropped: u64,
    /// How many facts a prune took, if there was one.
    pub pruned: Option<u64>,
}

/// Listens at the sockets of a service, and prints the announcement.
pub(crate) fn listen<R: AllocGlobal + Files + Net, O: Write>(
    rt: &R,
    service: &Service,
    opening: Opening,
    output: &mut O,
) -> Result<Connections, Fault>
    ensures done { OnOk result
        (Announces opening service.now.at (O.contents output.old) (O.contents output.new)) }
    ensures fault { IfErr result IsListenFault }
    ensures left { IfErr result
        (λ fault. LeavesAnnouncement opening service.now.at fault (O.contents output.old)
        (O.contents output.new)) }
{
    match bind(rt, &service.at.outer) {
        Ok((outer, port)) => listen_inner(rt, service, opening, outer, port, output),
        Err(fault) => Err(fault),
    }
}

// Listens at the inner socket too, if there is one, and prints the announcement. `port` is the one
// of the outer socket.
fn listen_inner<R: AllocGlobal + Files + Net, O: Write>(
    rt: &R,
    service: &Service,
    opening: Opening,
    outer: Listener,
    port: u16,
    output: &mut O,
) -> Result<Connections, Fault>
    requires { IsListenedOn service.now.at.outer port }
    ensures done { OnOk result
        (Announces opening service.now.at (O.contents output.old) (O.contents output.new)) }
    ensures fault { IfErr result IsListenFault }
    ensures left { IfErr result
        (λ fault. LeavesAnnouncement opening service.now.at fault (O.contents output.old)
        (O.contents output.new)) }
{
    let inner = match bind_inner(rt, &service.at.inner) {
        Ok(inner) => inner,
        Err(fault) => return Err(fault),
    };
    let most = service.connections as usize;
    match Connections::new(rt, rt.alloc(), outer, inner, most) {
        Ok(connections) => match announce(output, opening, &service.at, port) {
            Ok(()) => Ok(connections),
            Err(_) => Err(Fault::Output),
        },
        Err(NoRoom::Memory) => Err(Fault::Memory),
        Err(NoRoom::System) => Err(Fault::CannotListen),
    }
}

// Makes the inner socket, if there is one.
fn bind_inner<R: Files + Net>(rt: &R, path: &Option<String>) -> Result<Option<Listener>, Fault>
    ensures { IfErr result IsBindFault }
{
    match path {
        Some(path) => match bind_path(rt, path) {
            Ok(listener) => Ok(Some(listener)),
            Err(fault) => Err(fault),
        },
        None => Ok(None),
    }
}

// Prints the lines before the first connection.
fn announce<O: Write>(output: &mut O, opening: Opening, at: &Addresses, port: u16) -> io::Result<()>
    ensures { Prints result (O.contents output.old) (O.contents output.new)
        (announced opening at.now port) }
{
    match put_dropped(output, opening.dropped) {
        Ok(()) => announce_prune(output, opening.pruned, at, port),
        Err(error) => Err(error),
    }
}

// Prints the line of the prune, if there was one, and the lines of the sockets.
fn announce_prune<O: Write>(
    output: &mut O,
    pruned: Option<u64>,
    at: &Addresses,
    port: u16,
) -> io::Result<()>
    ensures { Prints result (O.contents output.old) (O.contents output.new)
        (pruned_line pruned ++ (inner_line at.now.inner ++ outer_line at.now.outer port)) }
{
    match put_pruned(output, pruned) {
        Ok(()) => announce_sockets(output, at, port),
        Err(error) => Err(error),
    }
}

// Prints the line of the inner socket, if there is one, and that of the outer one.
fn announce_sockets<O: Write>(output: &mut O, at: &Addresses, port: u16) -> io::Result<()>
    ensures { Prints result (O.contents output.old) (O.contents output.new)
        (inner_line at.now.inner ++ outer_line at.now.outer port) }
{
    match put_inner(output, &at.inner) {
        Ok(()) => put_outer(output, &at.outer, port),
        Err(error) => Err(error),
    }
}

// Prints the line of the dropped bytes, if there are any.
fn put_dropped<O: Write>(output: &mut O, dropped: u64) -> io::Result<()>
    ensures { Prints result (O.contents output.old) (O.contents output.new)
        (dropped_line dropped) }
{
    if dropped == 0 {
        return put_all(output, &[]);
    }
    put_dropped_bytes(output, dropped)
}

// Prints the line of this number of dropped bytes.
fn put_dropped_bytes<O: Write>(output: &mut O, dropped: u64) -> io::Result<()>
    ensures { Prints result (O.contents output.old) (O.contents output.new)
        (dropped_bytes dropped) }
{
    let mut digits = Buffer::new();
    let dropped = digits.format(dropped).as_bytes();
    put_all(output, &[b"dropped ", dropped, b" bytes\n"])
}

// Prints the line of the facts that a prune took, if there was one.
fn put_pruned<O: Write>(output: &mut O, pruned: Option<u64>) -> io::Result<()>
    ensures { Prints result (O.contents output.old) (O.contents output.new)
        (pruned_line pruned) }
{
    match pruned {
        Some(count) => put_pruned_facts(output, count),
        None => put_all(output, &[]),
    }
}

// Prints the line of a prune that took this number of facts.
fn put_pruned_facts<O: Write>(output: &mut O, count: u64) -> io::Result<()>
    ensures { Prints result (O.contents output.old) (O.contents output.new)
        (pruned_facts count) }
{
    let mut digits = Buffer::new();
    let count = digits.format(count).as_bytes();
    put_all(output, &[b"pruned ", count, b"\n"])
}

// Prints the line of the inner socket, if there is one.
fn put_inner<O: Write>(output: &mut O, path: &Option<String>) -> io::Result<()>
    ensures { Prints result (O.contents output.old) (O.contents output.new) (inner_line path.now) }
{
    match path {
        Some(path) => put_all(output, &[b"inner unix:", path.as_bytes(), b"\n"]),
        None => put_all(output, &[]),
    }
}

// Prints the line of the outer socket, and flushes.
fn put_outer<O: Write>(output: &mut O, address: &Address, port: u16) -> io::Result<()>
    ensures { Prints result (O.contents output.old) (O.contents output.new)
        (outer_line address.now port) }
{
    match address {
        Address::Port(_) => put_port(output, port),
        Address::Socket(path) => put_path(output, path),
    }
}

// Prints the line of the port, and flushes.
fn put_port<O: Write>(output: &mut O, port: u16) -> io::Result<()>
    ensures { Prints result (O.contents output.old) (O.contents output.new) (listening_line port) }
{
    let mut digits = Buffer::new();
    let port = digits.format(port).as_bytes();
    put_and_flush(output, &[b"listening 127.0.0.1:", port, b"\n"])
}

// Prints the line of a Unix socket, and flushes.
fn put_path<O: Write>(output: &mut O, path: &String) -> io::Result<()>
    ensures { Prints result (O.contents output.old) (O.contents output.new)
        (listening_at (string_bytes path.now)) }
{
    put_and_flush(output, &[b"listening unix:", path.as_bytes(), b"\n"])
}

// Writes the pieces and flushes.
fn put_and_flush<O: Write>(output: &mut O, pieces: &[&[u8]]) -> io::Result<()>
    ensures { Prints result (O.contents output.old) (O.contents output.new)
        (joined_text pieces.now) }
{
    put_all(output, pieces)?;
    output.flush()
}
