//! The redirection URIs of a client (RFC 6749, 3.1.2).

use crate::uri::Uri;
use std::marker::Model;

/// The redirection URIs of a client as they were registered: 1 to 8, counting equal ones (RFC 6749,
/// 3.1.2).
#[derive(Drop)]
pub struct Redirects {
    uris: Vec<Uri>,
}

impl Model for Redirects {
    ghost use Rattle.std.specs.Prelude.{◌≡◌, ℕ, List, None};

    ghost Value = { List (List ℕ) };

    ghost use Rattle.tk_match.specs.Redirects.{redirects_refusal};

    ghost view = { λ r. r.uris.items };

    ghost invariant = { λ r. redirects_refusal r.uris.items ≡ None };
}

/// The reason why a list of redirection URIs was refused.
///
/// The tests are made in the order of the variants, and the first that fails is returned. `Memory`
/// may be returned by any call.
#[derive(Clone, Copy)]
pub enum RedirectError {
    /// The list has no URI.
    Empty,
    /// The list has more than 8 URIs, counting equal ones.
    TooMany,
    /// A URI is not 1 to 512 visible ASCII bytes without `#`, or is no absolute URL though that was
    /// required.
    Malformed,
    /// Memory ran out, or a URL was longer than the `url` crate reads.
    Memory,
}

impl From<AllocError> for RedirectError {
    ghost use Rattle.std.specs.Prelude.{◌≡◌};
    ghost use Rattle.tk_match.specs.declared.redirects.RedirectError.TheVariants.{Memory};

    ghost from_gives = { λ _ e. e ≡ Memory };

    fn from(_: AllocError) -> RedirectError {
        RedirectError::Memory
    }
}

ghost use Rattle.std.specs.Prelude.{◌≡◌, ◌↔◌, ◌⊎◌, ◌++◌, ◌∷◌, [], All, Any, IfOk, IfErr, OnOk};
ghost use Rattle.std.specs.Prelude.{IsErrOf, IsTrue, None, Some, true, false, map};
ghost use Rattle.std.specs.List.{list_all};
ghost use Rattle.std.specs.Option.{option_copied};
ghost use Rattle.std.specs.Str.{IsUtf8};
ghost use Rattle.tk_match.specs.Pick.{picked, shown_pick, IfUri, Matches};
ghost use Rattle.tk_match.specs.RedirectKinds.{is_listed};
ghost use Rattle.tk_match.specs.Redirects.{is_uri, redirects_refusal, redirects_of};
ghost use Rattle.tk_match.specs.Redirects.{registration_refusal, is_absolute, ReadsAsUrl, Refuses};
ghost use Rattle.tk_match.specs.Redirects.{client_refusal, is_registrable};

use crate::pick::{Pick, only_uri, sent_uri};
use crate::redirect_kinds::{RedirectKinds, are_listed};
use std::alloc::{AllocError, Global};

/// The greatest number of URIs of a client, counting equal ones. This limit is our own.
const MAX_URIS: usize = 8;

impl Redirects {
    /// Returns the list of URIs, checked for a registration at this region.
    ///
    /// Each URI must be a URL that the crate `url` reads without a base, whatever its scheme.
    /// Returns the first error that applies, in the order of [`RedirectError`]. `Memory` is also
    /// returned if a URL is too long for `url`, whose contract gives no bound.
    pub fn new(alloc: Global, uris: &[&[u8]]) -> Result<Redirects, RedirectError>
        ensures ok { IfOk result (λ r. redirects_of (map (λ x. x.now) uris.now) ≡ Some r) }
        ensures absolute { OnOk result (All ReadsAsUrl (map (λ x. x.now) uris.now)) }
        ensures registered { OnOk result (registration_refusal (map (λ x. x.now) uris.now) ≡ None) }
        ensures empty { IsErrOf result RedirectError.Empty
            → registration_refusal (map (λ x. x.now) uris.now) ≡ Some RedirectError.Empty }
        ensures too_many { IsErrOf result RedirectError.TooMany
            → registration_refusal (map (λ x. x.now) uris.now) ≡ Some RedirectError.TooMany }
        ensures bad { IsErrOf result RedirectError.Malformed
            → registration_refusal (map (λ x. x.now) uris.now) ≡ Some RedirectError.Malformed }

        // A URL that `url` refuses because it is too long is never reported as `Malformed`.
        ensures refused { IsErrOf result RedirectError.Malformed
            → (redirects_refusal (map (λ x. x.now) uris.now) ≡ Some RedirectError.Malformed)
            ⊎ Any Refuses (map (λ x. x.now) uris.now) }
    {
        let redirects = Redirects::kept(alloc, uris)?;
        check_absolute(alloc, redirects.uris())?;
        Ok(redirects)
    }

    /// Returns the list of URIs, checked for a registration that takes URIs at any port (RFC 8252,
    /// 7.3).
    ///
    /// Each URI must be a URL, as for [`Redirects::new`], or `http://127.0.0.1:*`, `http://[::1]:*`
    /// or `http://localhost:*`, then nothing or a path. Returns the first error that applies, in
    /// the order of [`RedirectError`]. `Memory` is also returned if a URL is too long for `url`.
    pub fn of_client(alloc: Global, uris: &[&[u8]]) -> Result<Redirects, RedirectError>
        ensures ok { IfOk result (λ r. redirects_of (map (λ x. x.now) uris.now) ≡ Some r) }
        ensures registrable { OnOk result (client_refusal (map (λ x. x.now) uris.now) ≡ None) }
        ensures empty { IsErrOf result RedirectError.Empty
            → client_refusal (map (λ x. x.now) uris.now) ≡ Some RedirectError.Empty }
        ensures too_many { IsErrOf result RedirectError.TooMany
            → client_refusal (map (λ x. x.now) uris.now) ≡ Some RedirectError.TooMany }
        ensures bad { IsErrOf result RedirectError.Malformed
            → client_refusal (map (λ x. x.now) uris.now) ≡ Some RedirectError.Malformed }

        // A URL that `url` refuses because it is too long is never reported as `Malformed`.
        ensures refused { IsErrOf result RedirectError.Malformed
            → (redirects_refusal (map (λ x. x.now) uris.now) ≡ Some RedirectError.Malformed)
            ⊎ Any Refuses (map (λ x. x.now) uris.now) }
    {
        let redirects = Redirects::kept(alloc, uris)?;
        check_registrable(alloc, redirects.uris())?;
        Ok(redirects)
    }

    /// Returns the list of URIs, as another region registered it.
    ///
    /// The URIs need not be absolute URLs. Returns the first error that applies, in the order of
    /// [`RedirectError`].
    pub fn kept(alloc: Global, uris: &[&[u8]]) -> Result<Redirects, RedirectError>
        ensures ok { IfOk result (λ r. redirects_of (map (λ x. x.now) uris.now) ≡ Some r) }
        ensures empty { IsErrOf result RedirectError.Empty
            → redirects_refusal (map (λ x. x.now) uris.now) ≡ Some RedirectError.Empty }
        ensures too_many { IsErrOf result RedirectError.TooMany
            → redirects_refusal (map (λ x. x.now) uris.now) ≡ Some RedirectError.TooMany }
        ensures bad { IsErrOf result RedirectError.Malformed
            → redirects_refusal (map (λ x. x.now) uris.now) ≡ Some RedirectError.Malformed }

        // These clauses state the errors by `redirects_of`, for a format of such lists.
        ensures empty_none { IsErrOf result RedirectError.Empty
            → redirects_of (map (λ x. x.now) uris.now) ≡ None }
        ensures too_many_none { IsErrOf result RedirectError.TooMany
            → redirects_of (map (λ x. x.now) uris.now) ≡ None }
        ensures bad_none { IsErrOf result RedirectError.Malformed
            → redirects_of (map (λ x. x.now) uris.now) ≡ None }
    {
        if uris.is_empty() {
            return Err(RedirectError::Empty);
        }
        if uris.len() > MAX_URIS {
            return Err(RedirectError::TooMany);
        }
        let uris = read_each(alloc, uris)?;
        Ok(Redirects { uris })
    }

    /// Returns whether each URI is an absolute URL. A URI at any port is none.
    ///
    /// Fails if memory runs out, or if a URL is too long for `url`.
    pub fn are_absolute(&self, alloc: Global) -> Result<bool, AllocError>
        ensures { IfOk result (λ absolute. absolute ≡ list_all is_absolute self.now) }
    {
        match check_absolute(alloc, self.uris()) {
            Ok(()) => Ok(true),
            Err(RedirectError::Memory) => Err(AllocError),
            Err(_) => Ok(false),
        }
    }

    /// Returns whether each URI is of one of the kinds.
    ///
    /// Fails if memory runs out, or if a URL is too long for `url`.
    pub fn are_among(&self, alloc: Global, kinds: RedirectKinds) -> Result<bool, AllocError>
        ensures { IfOk result (λ listed. listed ≡ list_all (is_listed kinds) self.now) }
    {
        are_listed(alloc, kinds, self.uris())
    }

    /// Returns the URIs in the order of their registration.
    pub fn uris(&self) -> &[Uri]
        ensures { result.now ≡ self.now }
    {
        self.uris.as_slice()
    }

    /// Gives a caller's proof the fact that the list breaks no rule. Does nothing at run time.
    pub fn known(&self)
        ensures { redirects_refusal self.now ≡ None }
    {
        let _ = &self.uris;
    }

    /// Returns a copy of the list, in the same order. Fails if memory runs out.
    pub fn copy(&self, alloc: Global) -> Result<Redirects, AllocError>
        ensures { IfOk result (λ r. r ≡ self.now) }
    {
        let uris = copied(alloc, &self.uris)?;
        Ok(Redirects { uris })
    }

    /// Returns whether both have the same URIs in the same order.
    pub fn same(&self, other: &Redirects) -> bool
        ensures { IsTrue result ↔ (self.now ≡ other.now) }
    {
        same_uris(&self.uris, &other.uris)
    }

    /// Returns the URI that a request means, given the URI that it sent (RFC 6749, 3.1.2.3; RFC
    /// 8252, 7.3).
    pub fn pick<'a>(&'a self, sent: Option<&'a [u8]>) -> Pick<'a>
        ensures value { shown_pick result ≡ picked self.now (option_copied sent.entry) }
        ensures uri { IfUri result (λ uri. IsTrue (is_uri uri)) }
        ensures utf8 { IfUri result IsUtf8 }
        ensures matches { IfUri result (λ uri.
            Any (λ registered. Matches registered uri) self.now) }
    {
        match sent {
            Some(sent) => sent_uri(&self.uris, sent),
            None => only_uri(&self.uris),
        }
    }
}

// Reads each of the texts as a URI.
fn read_each(alloc: Global, texts: &[&[u8]]) -> Result<Vec<Uri>, RedirectError>
    ensures ok { IfOk result (λ uris. uris.items ≡ map (λ x. x.now) texts.now) }
    ensures rule { OnOk result (list_all is_uri (map (λ x. x.now) texts.now) ≡ true) }
    ensures err { IfErr result (λ e. (e ≡ RedirectError.Malformed) ⊎ (e ≡ RedirectError.Memory)) }
    ensures bad { IsErrOf result RedirectError.Malformed
        → list_all is_uri (map (λ x. x.now) texts.now) ≡ false }
{
    let mut uris = Vec::with_capacity(alloc, texts.len())?;
    for text in texts {
        put_read(alloc, &mut uris, text)?;
    }
    Ok(uris)
}

// Reads one URI and adds it behind the others.
fn put_read(alloc: Global, uris: &mut Vec<Uri>, text: &[u8]) -> Result<(), RedirectError>
    ensures ok { OnOk result (uris.new.items ≡ uris.old.items ++ (text.now ∷ [])) }
    ensures rule { OnOk result (is_uri text.now ≡ true) }
    ensures err { IfErr result (λ e. (e ≡ RedirectError.Malformed) ⊎ (e ≡ RedirectError.Memory)) }
    ensures bad { IsErrOf result RedirectError.Malformed → is_uri text.now ≡ false }
{
    let uri = Uri::read(alloc, text)?;
    match uris.push(uri) {
        Ok(()) => Ok(()),
        Err(_) => Err(RedirectError::Memory),
    }
}

// Fails with `Malformed` at the first URI that is no absolute URL.
fn check_absolute(alloc: Global, uris: &[Uri]) -> Result<(), RedirectError>
    ensures ok { OnOk result (list_all is_absolute uris.now ≡ true) }
    ensures err { IfErr result (λ e. (e ≡ RedirectError.Malformed) ⊎ (e ≡ RedirectError.Memory)) }
    ensures bad { IsErrOf result RedirectError.Malformed → list_all is_absolute uris.now ≡ false }
    ensures refused { IsErrOf result RedirectError.Malformed → Any Refuses uris.now }
{
    for uri in uris {
        uri.check_absolute(alloc)?;
    }
    Ok(())
}

// Fails with `Malformed` at the first URI that is neither an absolute URL nor at any port.
fn check_registrable(alloc: Global, uris: &[Uri]) -> Result<(), RedirectError>
    ensures ok { OnOk result (list_all is_registrable uris.now ≡ true) }
    ensures err { IfErr result (λ e. (e ≡ RedirectError.Malformed) ⊎ (e ≡ RedirectError.Memory)) }
    ensures bad { IsErrOf result RedirectError.Malformed
        → list_all is_registrable uris.now ≡ false }
    ensures refused { IsErrOf result RedirectError.Malformed → Any Refuses uris.now }
{
    for uri in uris {
        uri.check_registrable(alloc)?;
    }
    Ok(())
}

fn copied(alloc: Global, uris: &[Uri]) -> Result<Vec<Uri>, AllocError>
    ensures { IfOk result (λ copies. copies.items ≡ uris.now) }
{
    let mut copies = Vec::with_capacity(alloc, uris.len())?;
    for uri in uris {
        copies.push(uri.copy(alloc)?)?;
    }
    Ok(copies)
}

fn same_uris(left: &[Uri], right: &[Uri]) -> bool
    ensures { IsTrue result ↔ (left.now ≡ right.now) }
{
    if left.len() != right.len() {
        return false;
    }
    for (i, uri) in left.iter().enumerate() {
        if !uri.same(&right[i]) {
            return false;
        }
    }
    true
}
