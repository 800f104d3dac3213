//! The laws of token requests.

ghost use Rattle.tk_grant.specs.Laws.{GrantsAlike, GrantsWithin, RefreshesAnew, RepeatsReply};

/// States a law: two stores that answer each handle alike, and have the same clients, decide a
/// token request alike.
///
/// A token whose family is closed, or that is under no code, is an invalid grant, whatever the
/// reason (RFC 6749, 5.2).
pub fn grants_alike()
    ensures { GrantsAlike }
{}

/// States a law: the fact made for a token request uses a code or refresh token that was minted,
/// and its tokens end with their family at the latest.
pub fn grants_within()
    ensures { GrantsWithin }
{}

/// States a law: a refresh that is repeated gets the reply that was given to it, but for
/// `expires_in`.
///
/// The fact that was made then must be held at its dot.
pub fn repeats_reply()
    ensures { RepeatsReply }
{}

/// States a law: a refresh by a client that keeps its refresh token is never repeated.
///
/// Its fact mints no refresh token, so no reply is given again, and the request gets a new access
/// token.
pub fn refreshes_anew()
    ensures { RefreshesAnew }
{}
