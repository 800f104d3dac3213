//! A redirection URI, byte for byte.

use std::marker::Model;

/// A redirection URI that may be kept: 1 to 512 visible ASCII bytes, none of them `#`. Contracts
/// see its bytes.
#[derive(Drop)]
pub struct Uri {
    text: String,
}

impl Model for Uri {
    ghost use Rattle.std.specs.Prelude.{ℕ, List, IsTrue, string_bytes};

    ghost Value = { List ℕ };

    ghost use Rattle.tk_match.specs.Redirects.{is_uri};

    ghost view = { λ u. string_bytes u.text };

    ghost invariant = { λ u. IsTrue (is_uri (string_bytes u.text)) };
}

ghost use Rattle.std.specs.Prelude.{◌≡◌, ◌↔◌, ◌⊎◌, true, false, IfOk, OnOk, IfErr, IsErrOf, IsTrue};
ghost use Rattle.std.specs.List.{list_all};
ghost use Rattle.tk_match.specs.Redirects.{is_uri, is_uri_byte, is_absolute, Refuses};
ghost use Rattle.tk_match.specs.Redirects.{is_registrable};

use crate::any_port::is_any_port;
use crate::redirects::RedirectError;
use std::alloc::{AllocError, Global};
use url::{ParseError, Url};

/// The greatest length of a URI in bytes. This limit is our own.
const MAX_BYTES: usize = 512;

impl Uri {
    /// Returns the URI as a text.
    pub fn as_str(&self) -> &str
        ensures value { result.now ≡ self.now }
        ensures known { IsTrue (is_uri self.now) }
    {
        self.text.as_str()
    }

    /// Returns the bytes of the URI.
    pub fn as_bytes(&self) -> &[u8]
        ensures value { result.now ≡ self.now }
        ensures known { IsTrue (is_uri self.now) }
    {
        self.text.as_bytes()
    }

    /// Reads a URI from its bytes. The URI need not be an absolute URL.
    ///
    /// Returns `Malformed` if the bytes are no URI that may be kept, and `Memory` if memory runs
    /// out. No other error is returned.
    pub fn read(alloc: Global, text: &[u8]) -> Result<Uri, RedirectError>
        ensures ok { IfOk result (λ uri. (uri ≡ text.now) × IsTrue (is_uri text.now)) }
        ensures err { IfErr result (λ e.
            (e ≡ RedirectError.Malformed) ⊎ (e ≡ RedirectError.Memory)) }
        ensures bad { IsErrOf result RedirectError.Malformed → is_uri text.now ≡ false }
    {
        if !is_uri(text) {
            return Err(RedirectError::Malformed);
        }
        let Ok(text) = str::from_utf8(text) else {
            unreachable!("visible ASCII");
        };
        let text = String::from_str(alloc, text)?;
        Ok(Uri { text })
    }

    /// Returns a copy of this URI. Fails if memory runs out.
    pub fn copy(&self, alloc: Global) -> Result<Uri, AllocError>
        ensures { IfOk result (λ uri. uri ≡ self.now) }
    {
        let text = String::from_str(alloc, self.as_str())?;
        Ok(Uri { text })
    }

    /// Returns whether both have the same bytes (RFC 6749, 3.1.2.3).
    pub fn same(&self, other: &Uri) -> bool
        ensures { IsTrue result ↔ (self.now ≡ other.now) }
    {
        self.as_str() == other.as_str()
    }

    // A URL that is too long for `url` is refused with `Memory`.
    pub(crate) fn check_absolute(&self, alloc: Global) -> Result<(), RedirectError>
        ensures ok { OnOk result (is_absolute self.now ≡ true) }
        ensures err { IfErr result (λ e.
            (e ≡ RedirectError.Malformed) ⊎ (e ≡ RedirectError.Memory)) }
        ensures bad { IsErrOf result RedirectError.Malformed → is_absolute self.now ≡ false }
        ensures refused { IsErrOf result RedirectError.Malformed → Refuses self.now }
    {
        match Url::parse(alloc, self.as_str()) {
            Ok(_) => Ok(()),
            Err(ParseError::OutOfMemory | ParseError::Overflow) => Err(RedirectError::Memory),
            Err(_) => Err(RedirectError::Malformed),
        }
    }

    // A URI at any port isn't read as a URL.
    pub(crate) fn check_registrable(&self, alloc: Global) -> Result<(), RedirectError>
        ensures ok { OnOk result (is_registrable self.now ≡ true) }
        ensures err { IfErr result (λ e.
            (e ≡ RedirectError.Malformed) ⊎ (e ≡ RedirectError.Memory)) }
        ensures bad { IsErrOf result RedirectError.Malformed → is_registrable self.now ≡ false }
        ensures refused { IsErrOf result RedirectError.Malformed → Refuses self.now }
    {
        if is_any_port(self.as_bytes()) {
            Ok(())
        } else {
            self.check_absolute(alloc)
        }
    }
}

// Returns whether the text is 1 to 512 visible ASCII bytes without `#`.
pub(crate) fn is_uri(text: &[u8]) -> bool
    ensures { result ≡ is_uri text.now }
{
    (1..=MAX_BYTES).contains(&text.len()) && has_uri_bytes(text)
}

fn has_uri_bytes(text: &[u8]) -> bool
    ensures { result ≡ list_all is_uri_byte text.now }
{
    text.iter().all(|b| is_uri_byte(*b))
}

fn is_uri_byte(byte: u8) -> bool
    ensures { result ≡ is_uri_byte byte }
{
    (0x21..=0x7e).contains(&byte) && byte != b'#'
}
