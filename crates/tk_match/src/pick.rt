//! Which registered URI a request means (RFC 6749, 3.1.2.3).

ghost use Rattle.std.specs.Prelude.{◌≡◌, IsTrue, Some, None};
ghost use Rattle.std.specs.List.{list_any};
ghost use Rattle.std.specs.Str.{IsUtf8};
ghost use Rattle.tk_match.specs.Pick as spec;
ghost use Rattle.tk_match.specs.Pick.{picked, shown_pick, IfUri};
ghost use Rattle.tk_match.specs.Redirects.{is_uri};

use crate::any_port::{is_any_port, matches_any_port};
use crate::uri::{Uri, is_uri};

/// The URI that a request means, or why it means no URI (RFC 6749, 3.1.2.3).
#[derive(Clone, Copy)]
pub enum Pick<'a> {
    /// The URI that was sent and matches a registered one, or the only registered URI if no URI was
    /// sent.
    Uri(&'a [u8]),
    /// No URI was sent, and several are registered, or the only one is at any port.
    Missing,
    /// The URI that was sent matches no registered one.
    Unknown,
}

// Returns the sent URI, if it matches a registered one.
#[tactic(auto, using(crate::proofs::AsciiTexts::uri_utf8))]
pub(crate) fn sent_uri<'a>(uris: &[Uri], sent: &'a [u8]) -> Pick<'a>
    ensures value { shown_pick result ≡ picked uris.now (Some sent.now) }
    ensures uri { IfUri result (λ uri. IsTrue (is_uri uri)) }
    ensures utf8 { IfUri result IsUtf8 }
{
    if is_uri(sent) && matches_some(uris, sent) {
        Pick::Uri(sent)
    } else {
        Pick::Unknown
    }
}

fn matches_some(uris: &[Uri], sent: &[u8]) -> bool
    ensures { result ≡ list_any (λ uri. spec.matches uri sent.now) uris.now }
{
    uris.iter().any(|uri| matches(uri.as_bytes(), sent))
}

// Returns whether the sent URI matches the registered one.
fn matches(registered: &[u8], sent: &[u8]) -> bool
    ensures { result ≡ spec.matches registered.now sent.now }
{
    if is_any_port(registered) {
        matches_any_port(registered, sent)
    } else {
        registered == sent
    }
}

// Returns the only URI, if there are no others and it has a port of its own.
#[tactic(auto, using(crate::proofs::AsciiTexts::uri_utf8))]
pub(crate) fn only_uri(uris: &[Uri]) -> Pick<'_>
    ensures value { shown_pick result ≡ picked uris.now None }
    ensures uri { IfUri result (λ uri. IsTrue (is_uri uri)) }
    ensures utf8 { IfUri result IsUtf8 }
{
    match uris {
        [uri] => named_port(uri),
        _ => Pick::Missing,
    }
}

// Returns the URI, unless it is at any port.
#[tactic(auto, using(crate::proofs::AsciiTexts::uri_utf8))]
fn named_port(uri: &Uri) -> Pick<'_>
    ensures value { shown_pick result ≡ spec.at_own_port uri.now }
    ensures uri { IfUri result (λ uri. IsTrue (is_uri uri)) }
    ensures utf8 { IfUri result IsUtf8 }
{
    if is_any_port(uri.as_bytes()) {
        Pick::Missing
    } else {
        Pick::Uri(uri.as_bytes())
    }
}
