//! The JSON bodies of replies, as texts.

ghost use Rattle.std.specs.Prelude.{◌≡◌, ◌∷◌, ◌++◌, [], IfOk, OnOk, codes, decimal, true};
ghost use Rattle.json.specs.Token.{begin_object, key, string};
ghost use Rattle.json.specs.Token.{number as a_number, boolean as a_flag};
ghost use Rattle.serde_json.specs.Data.{
  string as text_value,
  boolean,
  number,
  unsigned,
  object,
  member,
  no_members,
};
ghost use Rattle.serde_json.specs.Written.{compact_text};
ghost use Rattle.tk_handle.specs.ClientId.{client_text as client_name};
ghost use Rattle.tk_message.specs.Bodies as spec;

use crate::object::{begin, end, put_flag, put_handle, put_number, put_text};
use json::Writer;
use std::alloc::{AllocError, Global};
use tk_fact::{ClientKind, ClientLives};
use tk_handle::{Dot, Handle, client_text, consent_text, login_text};
use tk_ledger::Standing;
use tk_scope::Scope;

// How many bytes a body has at most beside the texts of a scope and a subject, unless it has
// bytes that JSON escapes.
const ROOM: usize = 224;

// Returns an object of one member, a text.
pub(crate) fn one_text(alloc: Global, name: &str, text: &str) -> Result<Vec<u8>, AllocError>
    ensures { IfOk result (λ body. body.items
        ≡ compact_text (object (member name.now (text_value text.now) no_members))) }
{
    let mut out = begin(alloc, ROOM)?;
    put_text(&mut out, name, text)?;
    end(out)
}

// Returns an object of one member, a number.
pub(crate) fn one_number(alloc: Global, name: &str, value: u64) -> Result<Vec<u8>, AllocError>
    ensures { IfOk result (λ body. body.items
        ≡ compact_text (object (member name.now (number (unsigned value)) no_members))) }
{
    let mut out = begin(alloc, ROOM)?;
    put_number(&mut out, name, value)?;
    end(out)
}

// Returns an object of one member, true or false.
pub(crate) fn one_flag(alloc: Global, name: &str, flag: bool) -> Result<Vec<u8>, AllocError>
    ensures { IfOk result (λ body. body.items
        ≡ compact_text (object (member name.now (boolean flag) no_members))) }
{
    let mut out = begin(alloc, ROOM)?;
    put_flag(&mut out, name, flag)?;
    end(out)
}

// Returns the body with the id of the client that was added at the dot (own).
pub(crate) fn client_body(alloc: Global, client: Dot) -> Result<Vec<u8>, AllocError>
    ensures { IfOk result (λ body. body.items ≡ compact_text (spec.client_body client)) }
{
    let id = client_text(alloc, client)?;
    one_text(alloc, "client_id", id.as_str())
}

// Returns the body with the id of the consent that was given at the dot (own).
pub(crate) fn consent_body(alloc: Global, consent: Dot) -> Result<Vec<u8>, AllocError>
    ensures { IfOk result (λ body. body.items ≡ compact_text (spec.consent_body consent)) }
{
    let id = consent_text(alloc, consent)?;
    one_text(alloc, "consent_id", id.as_str())
}

// Returns the body with the id of the login that the code of the dot began (own).
pub(crate) fn login_body(alloc: Global, code: Dot) -> Result<Vec<u8>, AllocError>
    ensures { IfOk result (λ body. body.items ≡ compact_text (spec.login_body code)) }
{
    let id = login_text(alloc, code)?;
    one_text(alloc, "login_id", id.as_str())
}

// Returns the body that shows the client that was added at the dot (own).
pub(crate) fn shown_body(
    alloc: Global,
    client: Dot,
    client_kind: &ClientKind,
    lives: Option<ClientLives>,
    live: bool,
    scope: &Scope,
) -> Result<Vec<u8>, AllocError>
    ensures { IfOk result (λ body. body.items
        ≡ compact_text (spec.shown_body client client_kind.now lives live scope.now)) }
{
    let mut out = begin(alloc, scope.text().len().saturating_add(ROOM))?;
    put_shown(alloc, &mut out, client, client_kind, lives, live, scope)?;
    end(out)
}

// Writes the members that show a client.
pub(crate) fn put_shown(
    alloc: Global,
    out: &mut Writer,
    client: Dot,
    client_kind: &ClientKind,
    lives: Option<ClientLives>,
    live: bool,
    scope: &Scope,
) -> Result<(), AllocError>
    ensures ok { OnOk result (out.new.tokens ≡ out.old.tokens
        ++ (spec.number_written (codes "access_life") (spec.access_life lives)
        ++ (key (codes "client_id") ∷ string (client_name client) ∷ []
        ++ (spec.number_written (codes "family_life") (spec.family_life lives)
        ++ (key (codes "kind") ∷ string (spec.kind_name client_kind.now)
        ∷ key (codes "live") ∷ a_flag live ∷ []
        ++ (spec.refresh_written client_kind.now
        ++ (spec.number_written (codes "refresh_life") (spec.refresh_life lives)
        ++ key (codes "scope") ∷ string scope.now ∷ []))))))) }
    ensures before { OnOk result (out.new.before ≡ out.old.before) }
{
    let id = client_text(alloc, client)?;
    put_optional(out, "access_life", lives.map(|lives| lives.access))?;
    put_text(out, "client_id", id.as_str())?;
    put_optional(out, "family_life", lives.map(|lives| lives.family))?;
    put_text(out, "kind", kind_name(client_kind))?;
    put_flag(out, "live", live)?;
    put_refresh(out, client_kind)?;
    put_optional(out, "refresh_life", lives.map(|lives| lives.refresh))?;
    put_text(out, "scope", scope.text())
}

// Writes a member that is a number, if there is one.
pub(crate) fn put_optional(
    out: &mut Writer,
    name: &str,
    value: Option<u64>,
) -> Result<(), AllocError>
    ensures ok { OnOk result
        (out.new.tokens ≡ out.old.tokens ++ spec.number_written name.now value) }
    ensures before { OnOk result (out.new.before ≡ out.old.before) }
{
    match value {
        Some(value) => put_number(out, name, value),
        None => Ok(()),
    }
}

// Writes the member that says that a client keeps its refresh token, if it does.
fn put_refresh(out: &mut Writer, client_kind: &ClientKind) -> Result<(), AllocError>
    ensures ok { OnOk result
        (out.new.tokens ≡ out.old.tokens ++ spec.refresh_written client_kind.now) }
    ensures before { OnOk result (out.new.before ≡ out.old.before) }
{
    match client_kind {
        ClientKind::Keeping(_) => put_text(out, "refresh", "kept"),
        ClientKind::Public | ClientKind::Confidential(_) | ClientKind::Resource(_) => Ok(()),
    }
}

// Returns the name of a client's kind.
fn kind_name(client_kind: &ClientKind) -> &'static str
    ensures { result.now ≡ spec.kind_name client_kind.now }
{
    match client_kind {
        ClientKind::Public => "public",
        ClientKind::Confidential(_) | ClientKind::Keeping(_) => "confidential",
        ClientKind::Resource(_) => "resource",
    }
}

// Returns the body with an access token that lives `lifetime` seconds, a refresh token, and the
// scope of the access token (RFC 6749, 5.1).
pub(crate) fn token_body(
    alloc: Global,
    access: &Handle,
    lifetime: u64,
    refresh: &Handle,
    scope: &Scope,
) -> Result<Vec<u8>, AllocError>
    ensures { IfOk result (λ body. body.items
        ≡ compact_text (spec.token_body access.now lifetime refresh.now scope.now)) }
{
    let scope = scope.text();
    let mut out = begin(alloc, scope.len().saturating_add(ROOM))?;
    put_handle(&mut out, "access_token", access)?;
    put_number(&mut out, "expires_in", lifetime)?;
    put_handle(&mut out, "refresh_token", refresh)?;
    put_text(&mut out, "scope", scope)?;
    put_text(&mut out, "token_type", "Bearer")?;
    end(out)
}

// Returns the body with an access token that lives `lifetime` seconds, and its scope, without a
// refresh token (RFC 6749, 5.1).
pub(crate) fn refreshed_body(
    alloc: Global,
    access: &Handle,
    lifetime: u64,
    scope: &Scope,
) -> Result<Vec<u8>, AllocError>
    ensures { IfOk result (λ body. body.items
        ≡ compact_text (spec.refreshed_body access.now lifetime scope.now)) }
{
    let scope = scope.text();
    let mut out = begin(alloc, scope.len().saturating_add(ROOM))?;
    put_handle(&mut out, "access_token", access)?;
    put_number(&mut out, "expires_in", lifetime)?;
    put_text(&mut out, "scope", scope)?;
    put_text(&mut out, "token_type", "Bearer")?;
    end(out)
}

// Returns the body of an active access token (RFC 7662, 2.2).
pub(crate) fn access_body(alloc: Global, standing: &Standing<'_>) -> Result<Vec<u8>, AllocError>
    ensures { IfOk result (λ body. body.items
        ≡ compact_text (spec.standing_body spec.access_body standing.now)) }
{
    let mut out = begin_standing(alloc, standing)?;
    put_standing(alloc, &mut out, standing)?;
    put_text(&mut out, "token_type", "Bearer")?;
    end(out)
}

// Returns the body of an active refresh token, which has no `token_type` (RFC 7662, 2.2).
pub(crate) fn refresh_body(alloc: Global, standing: &Standing<'_>) -> Result<Vec<u8>, AllocError>
    ensures { IfOk result (λ body. body.items
        ≡ compact_text (spec.standing_body spec.refresh_body standing.now)) }
{
    let mut out = begin_standing(alloc, standing)?;
    put_standing(alloc, &mut out, standing)?;
    end(out)
}

// Begins the body of an active token, with room for all of it.
fn begin_standing(alloc: Global, standing: &Standing<'_>) -> Result<Writer, AllocError>
    ensures before { IfOk result (λ out. out.before ≡ []) }
    ensures tokens { IfOk result (λ out. out.tokens ≡ begin_object ∷ []) }
{
    let scope = standing.scope.text().len();
    let subject = standing.subject.as_str().len();
    begin(alloc, scope.saturating_add(subject).saturating_add(ROOM))
}

// Writes the members that the bodies of active access and refresh tokens share.
fn put_standing(alloc: Global, out: &mut Writer, standing: &Standing<'_>) -> Result<(), AllocError>
    ensures ok { OnOk result (out.new.tokens ≡ out.old.tokens
        ++ key (codes "active") ∷ a_flag true
        ∷ key (codes "client_id") ∷ string (client_name standing.now.client)
        ∷ key (codes "exp") ∷ a_number (decimal standing.now.expiry)
        ∷ key (codes "iat") ∷ a_number (decimal standing.now.start)
        ∷ key (codes "scope") ∷ string standing.now.scope
        ∷ key (codes "sub") ∷ string standing.now.subject ∷ []) }
    ensures before { OnOk result (out.new.before ≡ out.old.before) }
{
    let id = client_text(alloc, standing.client)?;
    put_flag(out, "active", true)?;
    put_text(out, "client_id", id.as_str())?;
    put_number(out, "exp", standing.expiry.seconds())?;
    put_number(out, "iat", standing.start.seconds())?;
    put_text(out, "scope", standing.scope.text())?;
    put_text(out, "sub", standing.subject.as_str())
}
