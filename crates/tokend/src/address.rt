//! Where a service listens: `Address`, `Addresses`, and how they are read from the arguments.

ghost use Rattle.std.specs.Prelude.{◌≡◌, IfOk, IfSome, IfNone, Some, None, codes, if◌then◌else◌};
ghost use Rattle.clap.specs.Words.{first_of, found_of, rows_of, subcommand_rows_of};
ghost use Rattle.tokend.specs.CommandLine.{HasAddress, HasAddresses, IsNoAddress};
ghost use Rattle.tokend.specs.Task.{is_unplaced, is_unplaced_in};
ghost use Rattle.tokend.specs.declared.address.Address.TheVariants as Address;

use crate::options::{number, read_text};
use clap::ArgMatches;
use std::alloc::{AllocError, Global};

/// A socket at which a service listens.
#[derive(Drop)]
pub enum Address {
    /// The port at 127.0.0.1, 0 for any free one.
    Port(u16),
    /// The Unix socket of this path.
    Socket(String),
}

impl Address {
    /// The greatest port.
    pub const MAX_PORT: u64 = 65_535;
}

/// The sockets at which a service listens.
#[derive(Drop)]
pub struct Addresses {
    /// The socket for clients, or for all paths if there is no inner one.
    pub outer: Address,
    /// The path of the Unix socket at which operators and other regions are answered, and nowhere
    /// else, if there is one.
    pub inner: Option<String>,
}

/// Reads where a service listens. There is none if not exactly one of `--port` and `--socket` is
/// given.
pub(crate) fn read_addresses(
    alloc: Global,
    matches: &ArgMatches<'_>,
) -> Result<Option<Addresses>, AllocError>
    ensures addresses { IfOk result
        (λ read. IfSome read (HasAddresses (rows_of (found_of matches.now)))) }
    ensures none { IfOk result
        (λ read. IfNone read (IsNoAddress (rows_of (found_of matches.now)))) }
{
    let Some(outer) = read_address(alloc, matches)? else {
        return Ok(None);
    };
    let inner = read_text(alloc, matches, "inner")?;
    Ok(Some(Addresses { outer, inner }))
}

/// Returns whether the subcommand has not exactly one of `--port` and `--socket`.
pub(crate) fn is_unplaced(matches: &ArgMatches<'_>) -> bool
    ensures { result ≡ is_unplaced (subcommand_rows_of matches.now) }
{
    match matches.subcommand() {
        Some((_, values)) => is_unplaced_in(values),
        None => false,
    }
}

// Returns whether not exactly one of `--port` and `--socket` is among these options.
fn is_unplaced_in(matches: &ArgMatches<'_>) -> bool
    ensures { result ≡ is_unplaced_in (rows_of (found_of matches.now)) }
{
    let has_socket = matches.get_str("socket").is_some();
    if matches.get_str("port").is_some() {
        has_socket
    } else {
        !has_socket
    }
}

// Reads the socket for clients.
fn read_address(alloc: Global, matches: &ArgMatches<'_>) -> Result<Option<Address>, AllocError>
    ensures address { IfOk result
        (λ read. IfSome read (HasAddress (rows_of (found_of matches.now)))) }
    ensures none { IfOk result
        (λ read. IfNone read (IsNoAddress (rows_of (found_of matches.now)))) }
{
    let has_port = matches.get_str("port").is_some();
    match read_text(alloc, matches, "socket")? {
        Some(path) => Ok(socket_alone(path, has_port)),
        None => Ok(read_port(matches)),
    }
}

// Returns the Unix socket of this path, if there is no port beside it.
fn socket_alone(path: String, has_port: bool) -> Option<Address>
    ensures { result ≡ (if has_port then None else Some (Address.Socket path)) }
{
    if has_port {
        drop(path);
        return None;
    }
    Some(Address::Socket(path))
}

// Reads the port, if there is one.
fn read_port(matches: &ArgMatches<'_>) -> Option<Address>
    requires { first_of (codes "socket") (rows_of (found_of matches.now)) ≡ None }
    ensures address { IfSome result (HasAddress (rows_of (found_of matches.now))) }
    ensures none { IfNone result (IsNoAddress (rows_of (found_of matches.now))) }
{
    match number(matches, "port", 0, Address::MAX_PORT) {
        Some(port) => Some(Address::Port(port as u16)),
        None => None,
    }
}
