//! Refreshes that are repeated: `repeat_of` gives the reply to one again.

ghost use Rattle.std.specs.Prelude.{◌≡◌, IfOk, map};
ghost use Rattle.std.specs.List.{list_all};
ghost use Rattle.std.specs.Option.{option_copied, option_map};
ghost use Rattle.tk_ledger.specs.Status.{status_here};
ghost use Rattle.tk_grant.specs.Repeat as spec;

use crate::granted::{access_handle, refresh_handle};
use crate::judged::known_names;
use std::alloc::{AllocError, Global};
use tk_family::Steps;
use tk_handle::{Dot, Handle, Moment};
use tk_ledger::{Ledger, Standing, Status};
use tk_message::{Endpoint, JsonReply, Params, Reply, Request};

/// Returns whether a request is for new tokens by a refresh token (RFC 6749, 6).
pub fn is_refresh_request(request: &Request) -> bool
    ensures { result ≡ spec.is_refresh_request request.now }
{
    is_token(request.endpoint) && has_refresh_type(request.params.value("grant_type"))
}

// Returns whether the endpoint is that of tokens.
fn is_token(endpoint: Endpoint) -> bool
    ensures { result ≡ spec.is_token endpoint }
{
    matches!(endpoint, Endpoint::Token)
}

// Returns whether the grant type is that of refresh tokens.
fn has_refresh_type(grant_type: Option<&str>) -> bool
    ensures { result ≡ spec.is_refresh_type (option_copied grant_type.entry) }
{
    match grant_type {
        Some(text) => text == "refresh_token",
        None => false,
    }
}

/// Returns whether a request to the token endpoint is an earlier one again: the parameters that the
/// endpoint knows and the `Authorization` are the same, byte for byte (own).
///
/// A request with one of these parameters twice is no repeat.
pub fn is_again(earlier: &Request, request: &Request) -> bool
    ensures { result ≡ spec.is_again earlier.now request.now }
{
    let names = known_names();
    is_same(
        bytes_of(&earlier.authorization),
        bytes_of(&request.authorization),
    ) && have_same(&names, &earlier.params, &request.params)
        && !request.params.has_twice(&names)
}

// Returns the bytes of a value, if there is one.
fn bytes_of(value: &Option<Vec<u8>>) -> Option<&[u8]>
    ensures { option_copied result ≡ option_map (λ v. v.items) value.now }
{
    match value {
        Some(value) => Some(value.as_slice()),
        None => None,
    }
}

// Returns whether both requests have the same values of these names.
fn have_same(names: &[&str], earlier: &Params, params: &Params) -> bool
    ensures { result ≡ spec.have_same (map (λ x. x.now) names.now) earlier.now params.now }
{
    all_same(names, earlier, params)
}

fn all_same(names: &[&str], earlier: &Params, params: &Params) -> bool
    ensures { result ≡ list_all (λ name. spec.has_same name.now earlier.now params.now) names.now }
{
    names.iter().all(|name| has_same(name, earlier, params))
}

// Returns whether both requests have the same value of a name.
fn has_same(name: &str, earlier: &Params, params: &Params) -> bool
    ensures { result ≡ spec.has_same name.now earlier.now params.now }
{
    is_same(
        text_bytes(earlier.value(name)),
        text_bytes(params.value(name)),
    )
}

// Returns the bytes of a text, if there is one.
fn text_bytes(text: Option<&str>) -> Option<&[u8]>
    ensures { option_copied result ≡ option_copied text.entry }
{
    match text {
        Some(text) => Some(text.as_bytes()),
        None => None,
    }
}

// Returns whether both values are the same, or there is none of either.
fn is_same(earlier: Option<&[u8]>, value: Option<&[u8]>) -> bool
    ensures { result ≡ spec.is_same (option_copied earlier.entry) (option_copied value.entry) }
{
    match (earlier, value) {
        (Some(earlier), Some(value)) => earlier == value,
        (None, None) => true,
        _ => false,
    }
}

/// Returns the reply with the two tokens that the fact at this dot minted, of these random words,
/// if both are live at the moment (own).
///
/// The reply equals the one given when the tokens were minted, but for `expires_in`, which is the
/// life that the access token has left. No fact is made. Returns an error if memory runs out.
pub fn repeat_of(
    alloc: Global,
    ledger: &Ledger,
    now: Moment,
    dot: Dot,
    words: &[u64; 6],
) -> Result<Option<Reply>, AllocError>
    ensures { IfOk result (λ reply. reply ≡ spec.repeat_of ledger.now now dot words.now) }
{
    let (access, refresh) = (access_handle(dot, words), refresh_handle(dot, words));
    match (live(ledger, now, &access), live(ledger, now, &refresh)) {
        (Some(standing), Some(_)) => {
            let lifetime = standing.expiry.seconds().saturating_sub(now.seconds());
            let reply = JsonReply::Tokens(&access, lifetime, &refresh, standing.scope).reply(
                alloc,
            )?;
            Ok(Some(reply))
        }
        _ => Ok(None),
    }
}

// Returns the standing of a token, if it is live.
fn live<'a>(ledger: &'a Ledger, now: Moment, handle: &Handle) -> Option<Standing<'a>>
    ensures { result ≡ spec.live_in (status_here ledger.now now handle.now) }
{
    live_in(ledger.status(now, handle, &mut Steps::new()))
}

// Returns the standing of a status, if it is that of a live token.
fn live_in<'a>(status: Status<'a>) -> Option<Standing<'a>>
    ensures { result ≡ spec.live_in status.entry }
{
    match status {
        Status::Unseen => None,
        Status::Wrong => None,
        Status::Broken(_) => None,
        Status::Known(standing) => live_as(standing),
    }
}

// Returns the standing, if it is that of a live token.
fn live_as<'a>(standing: Standing<'a>) -> Option<Standing<'a>>
    ensures { result ≡ spec.live_as standing.entry }
{
    if standing.state.is_live() {
        Some(standing)
    } else {
        None
    }
}
