//! The sockets of a service: `bind` makes the one of an address, and `bind_path` a Unix socket.

ghost use Rattle.std.specs.Prelude.{IfErr, IfOk};
ghost use Rattle.tokend.specs.Serving.{IsBindFault, IsListenedOn};

use crate::address::Address;
use crate::fault::Fault;
use crate::socket::Listener;
use mio::net::{TcpListener, UnixListener, UnixStream};
use std::fs::{metadata, remove_file, set_permissions, symlink_metadata};
use std::io::ErrorKind;
use std::net::{Ipv4Addr, Net, SocketAddr};
use std::os::fd::AsRawFd;
use std::os::unix::fs::{FileTypeExt, MetadataExt, PermissionsExt};
use std::path::Path;
use std::rt::Files;

/// Who may connect to a Unix socket: its user and its group.
const SOCKET_MODE: u32 = 0o660;

/// The bits of a folder's mode by which others than its user may write it.
const OTHERS_WRITE: u32 = 0o022;

/// How many clients may wait to be accepted at a Unix socket. The system takes its own limit if
/// that is less.
const MAX_WAITING: i32 = 4_096;

/// Makes the socket of an address. Returns it with its port, or with 0 if it has none.
pub(crate) fn bind<R: Files + Net>(rt: &R, address: &Address) -> Result<(Listener, u16), Fault>
    ensures port { IfOk result (λ bound. IsListenedOn address.now bound.1) }
    ensures fault { IfErr result IsBindFault }
{
    match address {
        Address::Port(port) => bind_port(rt, *port),
        Address::Socket(path) => match bind_path(rt, path) {
            Ok(listener) => Ok((listener, 0)),
            Err(fault) => Err(fault),
        },
    }
}

// Listens on the port, or on any free one for 0.
fn bind_port<N: Net>(net: &N, port: u16) -> Result<(Listener, u16), Fault>
    ensures port { IfOk result (λ bound. IsListenedOn (Address.Port port) bound.1) }
    ensures fault { IfErr result IsBindFault }
{
    let asked = SocketAddr::from((Ipv4Addr::new(127, 0, 0, 1), port));
    let Ok(listener) = TcpListener::bind(net, asked) else {
        return Err(Fault::CannotListen);
    };
    let Ok(address) = listener.local_addr() else {
        return Err(Fault::CannotListen);
    };
    let found = address.port();
    let port = if port == 0 { found } else { port };
    Ok((Listener::Port(listener), port))
}

/// Makes the Unix socket of this path, which its user and its group may use.
///
/// # Errors
///
/// `SharedFolder` if somebody else may write the folder, `SocketInUse` if somebody answers at the
/// path, `CannotListen` if the system fails or the path is that of another kind of file.
pub(crate) fn bind_path<R: Files + Net>(rt: &R, path: &str) -> Result<Listener, Fault>
    ensures { IfErr result IsBindFault }
{
    check_folder(rt, path)?;
    remove_left_over(rt, path)?;
    let Ok(listener) = UnixListener::bind(rt, path) else {
        return Err(Fault::CannotListen);
    };
    if set_permissions(rt, path, PermissionsExt::from_mode(SOCKET_MODE)).is_err() {
        return Err(Fault::CannotListen);
    }
    // The standard library has a shorter queue.
    if libc::net::listen(listener.as_raw_fd(), MAX_WAITING) == 0 {
        Ok(Listener::Path(listener))
    } else {
        Err(Fault::CannotListen)
    }
}

// Looks whether the folder of a path is the user's, and nobody else may write it.
fn check_folder<F: Files>(files: &F, path: &str) -> Result<(), Fault>
    ensures { IfErr result IsBindFault }
{
    let folder = match Path::new(path).parent() {
        Some(folder) if !folder.as_str().is_empty() => folder,
        _ => Path::new("."),
    };
    let Ok(found) = metadata(files, folder) else {
        return Err(Fault::CannotListen);
    };
    if found.uid() == libc::geteuid() && found.mode() & OTHERS_WRITE == 0 {
        Ok(())
    } else {
        Err(Fault::SharedFolder)
    }
}

// Removes the socket of this path that a server left, at which nobody answers.
fn remove_left_over<R: Files + Net>(rt: &R, path: &str) -> Result<(), Fault>
    ensures { IfErr result IsBindFault }
{
    let Ok(found) = symlink_metadata(rt, path) else {
        return Ok(());
    };
    if !found.file_type().is_socket() {
        return Err(Fault::CannotListen);
    }
    if is_answered(rt, path) {
        return Err(Fault::SocketInUse);
    }
    match remove_file(rt, path) {
        Ok(()) => Ok(()),
        Err(_) => Err(Fault::CannotListen),
    }
}

// Returns whether somebody answers at a Unix socket, or has too many clients to answer one more.
fn is_answered<N: Net>(net: &N, path: &str) -> bool {
    match UnixStream::connect(net, path) {
        Ok(_) => true,
        Err(error) => error.kind() == ErrorKind::WouldBlock,
    }
}
