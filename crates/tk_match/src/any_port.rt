//! URIs of a program on this machine, which listens at any port (RFC 8252, 7.3).

ghost use Rattle.std.specs.Prelude.{◌≡◌};
ghost use Rattle.std.specs.Option.{option_copied};
ghost use Rattle.tk_match.specs.AnyPort as spec;

use tk_format::read_decimal;

/// The greatest port (RFC 9293, 3.1).
const MAX_PORT: u64 = 65_535;

// What is before the port: `http` and a host that is this machine.
const IPV4: &[u8] = b"http://127.0.0.1";

const IPV6: &[u8] = b"http://[::1]";

const NAME: &[u8] = b"http://localhost";

// Returns whether a registered URI has `*` in place of its port.
pub(crate) fn is_any_port(uri: &[u8]) -> bool
    ensures { result ≡ spec.is_any_port uri.now }
{
    any_port_path(uri, IPV4).is_some()
        || any_port_path(uri, IPV6).is_some()
        || any_port_path(uri, NAME).is_some()
}

// Returns whether the sent URI is the any-port URI at some port, or without one.
pub(crate) fn matches_any_port(registered: &[u8], sent: &[u8]) -> bool
    ensures { result ≡ spec.matches_any_port registered.now sent.now }
{
    is_at(registered, sent, IPV4) || is_at(registered, sent, IPV6) || is_at(registered, sent, NAME)
}

// Returns whether both are URIs of the host, and the sent one is the other at some port.
fn is_at(registered: &[u8], sent: &[u8], host: &[u8]) -> bool
    ensures { result ≡ spec.is_rest (spec.any_port_path registered.now host.now)
        (spec.behind host.now sent.now) }
{
    let Some(path) = any_port_path(registered, host) else {
        return false;
    };
    match behind(host, sent) {
        Some(rest) => is_port_before(path, rest),
        None => false,
    }
}

// Returns the path of an any-port URI of the host.
fn any_port_path<'a>(uri: &'a [u8], host: &[u8]) -> Option<&'a [u8]>
    ensures { option_copied result ≡ spec.any_port_path uri.now host.now }
{
    let port = behind(host, uri)?;
    path_in(behind(b":*", port)?)
}

// Returns what follows the start in a text that begins with it.
fn behind<'a>(start: &[u8], text: &'a [u8]) -> Option<&'a [u8]>
    ensures { option_copied result ≡ spec.behind start.now text.now }
{
    text.strip_prefix(start)
}

// Returns the text, if it is empty or begins with a slash.
fn path_in(text: &[u8]) -> Option<&[u8]>
    ensures { option_copied result ≡ spec.path_in text.now }
{
    match text {
        [] | [b'/', ..] => Some(text),
        _ => None,
    }
}

// Returns whether the text is a port with its colon, or neither, and then the path.
fn is_port_before(path: &[u8], text: &[u8]) -> bool
    ensures { result ≡ spec.is_port_before path.now text.now }
{
    match text.strip_suffix(path) {
        Some(port) => is_port_part(port),
        None => false,
    }
}

// Returns whether the text is nothing, or a colon and a port.
fn is_port_part(text: &[u8]) -> bool
    ensures { result ≡ spec.is_port_part text.now }
{
    match text {
        [] => true,
        [first, port @ ..] => *first == b':' && is_port(port),
    }
}

// Returns whether the text is a port, as a decimal without leading zeros.
fn is_port(text: &[u8]) -> bool
    ensures { result ≡ spec.is_port text.now }
{
    match read_decimal(text) {
        Some(port) => (1..=MAX_PORT).contains(&port),
        None => false,
    }
}
