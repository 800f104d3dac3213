//! The kinds of redirection URIs: `RedirectKinds`.

/// Kinds of redirection URIs (RFC 8252, 7).
#[derive(Clone, Copy)]
pub struct RedirectKinds {
    /// A page of an application: the scheme is `https`.
    pub https: bool,
    /// A program on this machine: the scheme is `http`, and the host is 127.0.0.1, [::1] or
    /// localhost. Its port may be `*`, which stands for any port.
    pub loopback: bool,
    /// An application on a device: the scheme has a dot.
    pub app: bool,
}

ghost use Rattle.std.specs.Prelude.{◌≡◌, ◌==◌, IfOk, None, false, true};
ghost use Rattle.std.specs.List.{list_all, list_any};
ghost use Rattle.std.specs.Option.{option_copied};
ghost use Rattle.url.specs.Parser.{parse_url};
ghost use Rattle.tk_match.specs.RedirectKinds as spec;

use crate::any_port::is_any_port;
use crate::uri::Uri;
use std::alloc::{AllocError, Global};
use url::{ParseError, Url};

// Returns whether each URI is of one of the kinds.
pub(crate) fn are_listed(
    alloc: Global,
    kinds: RedirectKinds,
    uris: &[Uri],
) -> Result<bool, AllocError>
    ensures { IfOk result (λ listed. listed ≡ list_all (spec.is_listed kinds) uris.now) }
{
    for uri in uris {
        if !is_listed(alloc, kinds, uri.as_str())? {
            return Ok(false);
        }
    }
    Ok(true)
}

// Returns whether the text is at any port, if `loopback` is listed, or a URL of one of the kinds.
fn is_listed(alloc: Global, kinds: RedirectKinds, uri: &str) -> Result<bool, AllocError>
    ensures { IfOk result (λ listed. listed ≡ spec.is_listed kinds uri.now) }
{
    if kinds.loopback && is_any_port(uri.as_bytes()) {
        return Ok(true);
    }
    is_url_listed(alloc, kinds, uri)
}

// Returns whether the text is read as a URL of one of the kinds.
fn is_url_listed(alloc: Global, kinds: RedirectKinds, uri: &str) -> Result<bool, AllocError>
    ensures { IfOk result (λ listed. listed ≡ spec.is_read_among kinds (parse_url None uri.now)) }
{
    match Url::parse(alloc, uri) {
        Ok(url) => Ok(is_among(kinds, &url)),
        Err(ParseError::OutOfMemory | ParseError::Overflow) => Err(AllocError),
        Err(_) => Ok(false),
    }
}

// Returns whether the URL is of one of the kinds.
fn is_among(kinds: RedirectKinds, url: &Url) -> bool
    ensures { result ≡ spec.is_among kinds url.now }
{
    kinds.https && is_https(url) || kinds.loopback && is_loopback(url) || kinds.app && is_app(url)
}

fn is_https(url: &Url) -> bool
    ensures { result ≡ spec.is_https url.now }
{
    url.scheme() == "https"
}

fn is_loopback(url: &Url) -> bool
    ensures { result ≡ spec.is_loopback url.now }
{
    url.scheme() == "http" && is_this_machine(url.host_str())
}

// Returns whether the host is this machine.
fn is_this_machine(host: Option<&str>) -> bool
    ensures { result ≡ spec.is_this_machine (option_copied host.entry) }
{
    match host {
        Some(host) => host == "127.0.0.1" || host == "[::1]" || host == "localhost",
        None => false,
    }
}

fn is_app(url: &Url) -> bool
    ensures { result ≡ spec.is_app url.now }
{
    has_dot(url.scheme().as_bytes())
}

fn has_dot(text: &[u8]) -> bool
    ensures { result ≡ list_any (λ b. b == 46) text.now }
{
    text.iter().any(|b| *b == b'.')
}
