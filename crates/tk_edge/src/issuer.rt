//! The issuer of a server: `Issuer`, and `with_iss`, which names it in a redirect.

use std::marker::Model;

/// The issuer of a server, a URL under which clients know it (RFC 8414, 2). Contracts see its
/// bytes.
///
/// At most 512 bytes: `https://`, a host of letters, digits, `-` and `.`, perhaps a port, and
/// perhaps a path that doesn't end in a slash. The hosts `127.0.0.1` and `localhost` may have
/// `http://`. No byte is one that JSON or a header field would have to escape (own).
#[derive(Drop)]
pub struct Issuer {
    text: String,
}

impl Model for Issuer {
    ghost use Rattle.std.specs.Prelude.{ℕ, List, IsTrue, string_bytes};
    ghost use Rattle.tk_edge.specs.Issuer.{is_issuer};

    ghost Value = { List ℕ };

    ghost view = { λ i. string_bytes i.text };

    ghost invariant = { λ i. IsTrue (is_issuer (string_bytes i.text)) };
}

ghost use Rattle.std.specs.Prelude.{◌≡◌, ◌==◌, IfOk, IsTrue, Some, None, codes, string_bytes};
ghost use Rattle.std.specs.Prelude.{if◌then◌else◌};
ghost use Rattle.std.specs.List.{list_all};
ghost use Rattle.std.specs.Option.{option_map};
ghost use Rattle.form_urlencoded.specs.Form.{append_pair};
ghost use Rattle.tk_match.specs.AnyPort.{behind, is_port, is_port_part};
ghost use Rattle.tk_edge.specs.Issuer as spec;

use crate::path::{is_named, place_of};
use form_urlencoded::Serializer;
use std::alloc::{AllocError, Global};
use tk_format::read_decimal;
use tk_message::Reply;

/// The greatest length of an issuer in bytes. This limit is our own.
const MAX_BYTES: usize = 512;

/// The greatest port (RFC 9293, 3.1).
const MAX_PORT: u64 = 65_535;

impl Issuer {
    /// Reads an issuer, or returns `None` if the text is none.
    ///
    /// # Errors
    ///
    /// `AllocError` if memory runs out.
    pub fn read(alloc: Global, text: &str) -> Result<Option<Issuer>, AllocError>
        ensures { IfOk result (λ read. read ≡ spec.issuer_in text.now) }
    {
        if !is_issuer(text.as_bytes()) {
            return Ok(None);
        }
        let text = String::from_str(alloc, text)?;
        Ok(Some(Issuer { text }))
    }

    /// Returns the issuer as a text.
    pub fn as_str(&self) -> &str
        ensures value { result.now ≡ self.now }
        ensures known { IsTrue (spec.is_issuer self.now) }
    {
        self.text.as_str()
    }

    /// Returns the bytes of the issuer.
    pub fn as_bytes(&self) -> &[u8]
        ensures value { result.now ≡ self.now }
        ensures known { IsTrue (spec.is_issuer self.now) }
    {
        self.text.as_bytes()
    }

    /// Returns a copy of this issuer, or `AllocError` if memory runs out.
    pub fn copy(&self, alloc: Global) -> Result<Issuer, AllocError>
        ensures { IfOk result (λ issuer. issuer ≡ self.now) }
    {
        let text = String::from_str(alloc, self.as_str())?;
        Ok(Issuer { text })
    }
}

/// Returns whether a text is an issuer.
pub fn is_issuer(text: &[u8]) -> bool
    ensures { result ≡ spec.is_issuer text.now }
{
    text.len() <= MAX_BYTES && (is_at(true, text, b"https://") || is_at(false, text, b"http://"))
}

// Returns whether a text is the scheme, a host, perhaps a port, and perhaps a path. `secure` is
// whether the host may be any.
fn is_at(secure: bool, text: &[u8], scheme: &[u8]) -> bool
    ensures { result ≡ spec.is_place secure (behind scheme.now text.now) }
{
    match text.strip_prefix(scheme) {
        Some(rest) => is_place(secure, rest),
        None => false,
    }
}

// Returns whether a text is a host, perhaps a port, and perhaps a path.
fn is_place(secure: bool, rest: &[u8]) -> bool
    ensures { result ≡ spec.is_place secure (Some rest.now) }
{
    let slash = place_of(rest, b'/');
    is_authority(secure, &rest[..slash]) && is_path(&rest[slash..])
}

// Returns whether a text is a host and perhaps a port.
fn is_authority(secure: bool, text: &[u8]) -> bool
    ensures { result ≡ spec.is_authority secure text.now }
{
    let colon = place_of(text, b':');
    is_host(secure, &text[..colon]) && is_port_part(&text[colon..])
}

// Returns whether a text is a host, and of this machine unless it may be any.
fn is_host(secure: bool, text: &[u8]) -> bool
    ensures { result ≡ spec.is_host secure text.now }
{
    if secure {
        !text.is_empty() && has_host_bytes(text)
    } else {
        is_named(text, b"127.0.0.1") || is_named(text, b"localhost")
    }
}

fn has_host_bytes(text: &[u8]) -> bool
    ensures { result ≡ list_all spec.is_host_byte text.now }
{
    text.iter().all(|b| is_host_byte(*b))
}

fn is_host_byte(byte: u8) -> bool
    ensures { result ≡ spec.is_host_byte byte }
{
    byte.is_ascii_alphanumeric() || byte == b'-' || byte == b'.'
}

// Returns whether the text is nothing, or a colon and a port.
fn is_port_part(text: &[u8]) -> bool
    ensures { result ≡ is_port_part text.now }
{
    match text {
        [] => true,
        [first, port @ ..] => *first == b':' && is_port(port),
    }
}

// Returns whether the text is a port, as a decimal without leading zeros.
fn is_port(text: &[u8]) -> bool
    ensures { result ≡ is_port text.now }
{
    match read_decimal(text) {
        Some(port) => (1..=MAX_PORT).contains(&port),
        None => false,
    }
}

// Returns whether the text is no path, or a path that doesn't end in a slash.
fn is_path(text: &[u8]) -> bool
    ensures { result ≡ spec.is_path text.now }
{
    has_path_bytes(text) && !ends_in_slash(text)
}

fn ends_in_slash(text: &[u8]) -> bool
    ensures { result ≡ spec.ends_in_slash text.now }
{
    match text.strip_suffix(b"/") {
        Some(_) => true,
        None => false,
    }
}

fn has_path_bytes(text: &[u8]) -> bool
    ensures { result ≡ list_all spec.is_path_byte text.now }
{
    text.iter().all(|b| is_path_byte(*b))
}

fn is_path_byte(byte: u8) -> bool
    ensures { result ≡ spec.is_path_byte byte }
{
    byte.is_ascii_alphanumeric() || b"-._~!$&'()*+,;=:@/".contains(&byte)
}

// Names the issuer, if there is one, in a reply that is a redirect (RFC 9207, 2).
pub(crate) fn with_iss(issuer: &Option<Issuer>, reply: Reply) -> Result<Reply, AllocError>
    ensures { IfOk result (λ named. named ≡ spec.with_iss issuer.now reply) }
{
    let Some(issuer) = issuer else {
        return Ok(reply);
    };
    let Reply {
        status,
        location,
        asks,
        body,
    } = reply;
    let location = located(issuer, location)?;
    Ok(Reply {
        status,
        location,
        asks,
        body,
    })
}

// Adds the issuer to the parameters of a location, if there is one.
fn located(issuer: &Issuer, location: Option<String>) -> Result<Option<String>, AllocError>
    ensures { IfOk result (λ named. option_map string_bytes named
        ≡ option_map (spec.iss_behind issuer.now) (option_map string_bytes location)) }
{
    match location {
        Some(location) => {
            let location = with_pair(location, issuer.as_str())?;
            Ok(Some(location))
        }
        None => Ok(None),
    }
}

// Appends the parameter `iss` in form encoding.
fn with_pair(location: String, issuer: &str) -> Result<String, AllocError>
    ensures { IfOk result (λ named. string_bytes named
        ≡ append_pair (string_bytes location) (codes "iss") issuer.now) }
{
    let mut form = Serializer::new(location);
    form.append_pair("iss", issuer)?;
    Ok(form.finish())
}
