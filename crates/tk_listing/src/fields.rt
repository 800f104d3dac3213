//! Writes the members of a fact's fields, in the order of its bytes.

ghost use Rattle.std.specs.Prelude.{◌≡◌, ◌++◌, OnOk};
ghost use Rattle.std.specs.Option.{option_copied};
ghost use Rattle.tk_listing.specs.FactMembers as spec;

use crate::members::{
    put_digits, put_dot, put_flag, put_hex, put_name, put_number, put_plain, put_quoted, put_text,
    put_time, put_uris,
};
use std::alloc::AllocError;
use tk_fact::{
    AccessRefreshed, Body, By, ClientAdded, ClientKind, ClientLives, CodeIssued, CodeRedeemed,
    ConsentGiven, MintedToken, RefreshRotated, SecretSet, SubjectOut, TokenRevoked,
};
use tk_format::Writer;
use tk_handle::{Kind, TokenId};
use tk_match::Challenge;

/// Writes the members of a fact's fields.
#[tactic(auto, unfolding(crate::specs::FactMembers::fields_of))]
pub(crate) fn put_fields(writer: &mut Writer, body: &Body) -> Result<(), AllocError>
    ensures { OnOk result (writer.new ≡ writer.old ++ spec.fields_of body.now) }
{
    match body {
        Body::ClientAdded(fields) => put_client(writer, fields),
        Body::ClientRetired(fields) => put_dot(writer, b"client", fields.client),
        Body::ConsentGiven(fields) => put_consent(writer, fields),
        Body::ConsentWithdrawn(fields) => put_dot(writer, b"consent", fields.consent),
        Body::CodeIssued(fields) => put_code(writer, fields),
        Body::CodeRedeemed(fields) => put_redeemed(writer, fields),
        Body::RefreshRotated(fields) => put_rotated(writer, fields),
        Body::TokenRevoked(fields) => put_revoked(writer, fields),
        Body::ReuseSeen(fields) => put_token(writer, fields.token),
        Body::SubjectOut(fields) => put_out(writer, fields),
        Body::AccessRefreshed(fields) => put_refreshed(writer, fields),
        Body::SecretSet(fields) => put_secret_set(writer, fields),
    }
}

/// Writes by whom and when a fact was administered, if an operator was named.
#[tactic(auto, unfolding(crate::specs::FactMembers::by_members))]
pub(crate) fn put_by(writer: &mut Writer, by: Option<&By>) -> Result<(), AllocError>
    ensures { OnOk result (writer.new ≡ writer.old ++ spec.by_members (option_copied by.entry)) }
{
    match by {
        Some(by) => put_named_by(writer, by),
        None => Ok(()),
    }
}

// Writes by whom and when a fact was administered, as an object.
#[tactic(auto, unfolding(crate::specs::FactMembers::by_member))]
fn put_named_by(writer: &mut Writer, by: &By) -> Result<(), AllocError>
    ensures { OnOk result (writer.new ≡ writer.old ++ spec.by_member by.now) }
{
    put_name(writer, b"by")?;
    begin_by(writer, by.operator.as_bytes())?;
    put_time(writer, b"moment", by.moment)?;
    writer.put_bytes(b"}")
}

// Writes the beginning of an object with an operator.
#[tactic(auto, unfolding(crate::specs::FactMembers::begun_by))]
fn begin_by(writer: &mut Writer, operator: &[u8]) -> Result<(), AllocError>
    ensures { OnOk result (writer.new ≡ writer.old ++ spec.begun_by operator.now) }
{
    writer.put_bytes(b"{\"operator\":")?;
    put_quoted(writer, operator)
}

// Writes the members of a client that is added.
#[tactic(auto, unfolding(crate::specs::FactMembers::client_fields))]
fn put_client(writer: &mut Writer, fields: &ClientAdded) -> Result<(), AllocError>
    ensures { OnOk result (writer.new ≡ writer.old ++ spec.client_fields fields.now) }
{
    put_client_kind(writer, &fields.client_kind)?;
    put_text(writer, b"scope", fields.scope.text().as_bytes())?;
    put_uris(writer, b"uris", fields.redirects.uris())?;
    put_lives(writer, &fields.lives)
}

// Writes the lives that a client was registered with, if it has any.
#[tactic(auto, unfolding(crate::specs::FactMembers::lives_members))]
fn put_lives(writer: &mut Writer, lives: &Option<ClientLives>) -> Result<(), AllocError>
    ensures { OnOk result (writer.new ≡ writer.old ++ spec.lives_members lives.now) }
{
    match lives {
        Some(lives) => put_given_lives(writer, lives),
        None => Ok(()),
    }
}

// Writes the lives that a client was registered with, in seconds.
#[tactic(auto, unfolding(crate::specs::FactMembers::given_lives))]
fn put_given_lives(writer: &mut Writer, lives: &ClientLives) -> Result<(), AllocError>
    ensures { OnOk result (writer.new ≡ writer.old ++ spec.given_lives lives.now) }
{
    put_number(writer, b"access_life", lives.access)?;
    put_number(writer, b"refresh_life", lives.refresh)?;
    put_number(writer, b"family_life", lives.family)
}

// Writes the client kind, with the digest of the client's secret if it has one.
fn put_client_kind(writer: &mut Writer, client_kind: &ClientKind) -> Result<(), AllocError>
    ensures { OnOk result (writer.new ≡ writer.old ++ spec.client_kind_members client_kind.now) }
{
    match client_kind {
        ClientKind::Public => put_plain(writer, b"client_kind", b"public"),
        ClientKind::Confidential(digest) => put_secret(writer, b"confidential", digest),
        ClientKind::Resource(digest) => put_secret(writer, b"resource", digest),
        ClientKind::Keeping(digest) => put_keeping(writer, b"confidential", digest),
    }
}

// Writes the client kind, that the client keeps its refresh token, and the digest of its secret.
#[tactic(auto, unfolding(crate::specs::FactMembers::keeping_members))]
fn put_keeping(writer: &mut Writer, kind: &[u8], digest: &[u8]) -> Result<(), AllocError>
    ensures { OnOk result (writer.new ≡ writer.old ++ spec.keeping_members kind.now digest.now) }
{
    put_plain(writer, b"client_kind", kind)?;
    put_kept(writer, digest)
}

// Writes that a client keeps its refresh token, and the digest of the client's secret.
#[tactic(auto, unfolding(crate::specs::FactMembers::kept_members))]
fn put_kept(writer: &mut Writer, digest: &[u8]) -> Result<(), AllocError>
    ensures { OnOk result (writer.new ≡ writer.old ++ spec.kept_members digest.now) }
{
    put_plain(writer, b"refresh", b"kept")?;
    put_hex(writer, b"secret_digest", digest)
}

// Writes the client kind, and the digest of the client's secret.
#[tactic(auto, unfolding(crate::specs::FactMembers::secret_members))]
fn put_secret(writer: &mut Writer, kind: &[u8], digest: &[u8]) -> Result<(), AllocError>
    ensures { OnOk result (writer.new ≡ writer.old ++ spec.secret_members kind.now digest.now) }
{
    put_plain(writer, b"client_kind", kind)?;
    put_hex(writer, b"secret_digest", digest)
}

// Writes the members of a consent that is given.
#[tactic(auto, unfolding(crate::specs::FactMembers::consent_fields))]
fn put_consent(writer: &mut Writer, fields: &ConsentGiven) -> Result<(), AllocError>
    ensures { OnOk result (writer.new ≡ writer.old ++ spec.consent_fields fields.now) }
{
    put_dot(writer, b"client", fields.client)?;
    put_text(writer, b"subject", fields.subject.as_bytes())?;
    put_text(writer, b"scope", fields.scope.text().as_bytes())
}

// Writes the members of a code that is issued.
#[tactic(auto, unfolding(crate::specs::FactMembers::code_fields))]
fn put_code(writer: &mut Writer, fields: &CodeIssued) -> Result<(), AllocError>
    ensures { OnOk result (writer.new ≡ writer.old ++ spec.code_fields fields.now) }
{
    put_dot(writer, b"client", fields.client)?;
    put_dot(writer, b"consent", fields.consent)?;
    put_hex(writer, b"digest", &fields.digest)?;
    put_time(writer, b"start", fields.start)?;
    put_time(writer, b"expiry", fields.expiry)?;
    put_time(writer, b"family_end", fields.family_end)?;
    put_bound(writer, fields)
}

// Writes the members of a code's rights, and of what a token request must match.
#[tactic(auto, unfolding(crate::specs::FactMembers::bound_fields))]
fn put_bound(writer: &mut Writer, fields: &CodeIssued) -> Result<(), AllocError>
    ensures { OnOk result (writer.new ≡ writer.old ++ spec.bound_fields fields.now) }
{
    put_text(writer, b"subject", fields.subject.as_bytes())?;
    put_text(writer, b"scope", fields.scope.text().as_bytes())?;
    put_text(writer, b"uri", fields.uri.as_bytes())?;
    put_flag(writer, b"uri_sent", fields.sent)?;
    put_challenge(writer, &fields.challenge)
}

// Writes the method and the text of a challenge, if there is one.
#[tactic(auto, unfolding(crate::specs::FactMembers::challenge_members))]
fn put_challenge(writer: &mut Writer, challenge: &Option<Challenge>) -> Result<(), AllocError>
    ensures { OnOk result (writer.new ≡ writer.old ++ spec.challenge_members challenge.now) }
{
    match challenge {
        Some(challenge) => { put_given(writer, challenge.is_s256(), challenge.text().as_bytes()) }
        None => Ok(()),
    }
}

// Writes the method and the text of a challenge.
#[tactic(auto, unfolding(crate::specs::FactMembers::given_members))]
fn put_given(writer: &mut Writer, is_s256: bool, text: &[u8]) -> Result<(), AllocError>
    ensures { OnOk result (writer.new ≡ writer.old ++ spec.given_members is_s256 text.now) }
{
    put_method(writer, is_s256)?;
    put_hex(writer, b"challenge", text)
}

// Writes the method of a challenge.
#[tactic(auto, unfolding(crate::specs::FactMembers::method_member))]
fn put_method(writer: &mut Writer, is_s256: bool) -> Result<(), AllocError>
    ensures { OnOk result (writer.new ≡ writer.old ++ spec.method_member is_s256) }
{
    put_plain(writer, b"challenge_method", method_name(is_s256))
}

// Returns the name of a challenge's method.
#[tactic(auto, unfolding(crate::specs::FactMembers::method_name))]
fn method_name(is_s256: bool) -> &'static [u8]
    ensures { result.now ≡ spec.method_name is_s256 }
{
    if is_s256 { b"S256" } else { b"plain" }
}

// Writes the members of a code that is redeemed.
#[tactic(auto, unfolding(crate::specs::FactMembers::redeemed_fields))]
fn put_redeemed(writer: &mut Writer, fields: &CodeRedeemed) -> Result<(), AllocError>
    ensures { OnOk result (writer.new ≡ writer.old ++ spec.redeemed_fields fields.now) }
{
    put_dot(writer, b"code", fields.code)?;
    put_time(writer, b"start", fields.start)?;
    put_two(writer, &fields.access, &fields.refresh)
}

// Writes the members of a refresh token that is rotated.
#[tactic(auto, unfolding(crate::specs::FactMembers::rotated_fields))]
fn put_rotated(writer: &mut Writer, fields: &RefreshRotated) -> Result<(), AllocError>
    ensures { OnOk result (writer.new ≡ writer.old ++ spec.rotated_fields fields.now) }
{
    put_dot(writer, b"parent", fields.parent)?;
    put_number(writer, b"generation", u64::from(fields.generation))?;
    put_time(writer, b"start", fields.start)?;
    put_two(writer, &fields.access, &fields.refresh)
}

// Writes the members of an access token that is refreshed.
#[tactic(auto, unfolding(crate::specs::FactMembers::refreshed_fields))]
fn put_refreshed(writer: &mut Writer, fields: &AccessRefreshed) -> Result<(), AllocError>
    ensures { OnOk result (writer.new ≡ writer.old ++ spec.refreshed_fields fields.now) }
{
    put_dot(writer, b"parent", fields.parent)?;
    put_time(writer, b"start", fields.start)?;
    put_minted(writer, b"access_token", &fields.access)
}

// Writes the members of a secret that is set.
#[tactic(auto, unfolding(crate::specs::FactMembers::set_fields))]
fn put_secret_set(writer: &mut Writer, fields: &SecretSet) -> Result<(), AllocError>
    ensures { OnOk result (writer.new ≡ writer.old ++ spec.set_fields fields.now) }
{
    put_dot(writer, b"client", fields.client)?;
    put_number(writer, b"turn", fields.turn)?;
    put_hex(writer, b"secret_digest", &fields.digest)?;
    put_time(writer, b"moment", fields.moment)
}

// Writes the two tokens of a grant.
#[tactic(auto, unfolding(crate::specs::FactMembers::minted_members))]
fn put_two(
    writer: &mut Writer,
    access: &MintedToken,
    refresh: &MintedToken,
) -> Result<(), AllocError>
    ensures { OnOk result
        (writer.new ≡ writer.old ++ spec.minted_members access.now refresh.now) }
{
    put_minted(writer, b"access_token", access)?;
    put_minted(writer, b"refresh_token", refresh)
}

// Writes a token that a fact mints, as an object.
#[tactic(auto, unfolding(crate::specs::FactMembers::minted_member))]
fn put_minted(writer: &mut Writer, name: &[u8], token: &MintedToken) -> Result<(), AllocError>
    ensures { OnOk result (writer.new ≡ writer.old ++ spec.minted_member name.now token.now) }
{
    put_name(writer, name)?;
    begin_digest(writer, &token.digest)?;
    put_time(writer, b"expiry", token.expiry)?;
    put_text(writer, b"scope", token.scope.text().as_bytes())?;
    writer.put_bytes(b"}")
}

// Writes the beginning of an object with a digest.
#[tactic(auto, unfolding(crate::specs::FactMembers::begun_digest))]
fn begin_digest(writer: &mut Writer, digest: &[u8]) -> Result<(), AllocError>
    ensures { OnOk result (writer.new ≡ writer.old ++ spec.begun_digest digest.now) }
{
    writer.put_bytes(b"{\"digest\":\"")?;
    put_digits(writer, digest)?;
    writer.put_bytes(b"\"")
}

// Writes the members of a token that is revoked.
#[tactic(auto, unfolding(crate::specs::FactMembers::revoked_fields))]
fn put_revoked(writer: &mut Writer, fields: &TokenRevoked) -> Result<(), AllocError>
    ensures { OnOk result (writer.new ≡ writer.old ++ spec.revoked_fields fields.now) }
{
    put_token(writer, fields.token)?;
    put_hex(writer, b"digest", &fields.digest)?;
    put_dot(writer, b"client", fields.client)
}

// Writes the dot of the fact that minted a token, and the token's kind.
#[tactic(auto, unfolding(crate::specs::FactMembers::token_members))]
fn put_token(writer: &mut Writer, token: TokenId) -> Result<(), AllocError>
    ensures { OnOk result (writer.new ≡ writer.old ++ spec.token_members token) }
{
    put_dot(writer, b"token", token.dot)?;
    put_plain(writer, b"token_kind", token_kind(token.kind))
}

// Returns the name of a kind of token.
fn token_kind(kind: Kind) -> &'static [u8]
    ensures { result.now ≡ spec.token_kind kind }
{
    match kind {
        Kind::Code => b"code",
        Kind::Access => b"access_token",
        Kind::Refresh => b"refresh_token",
    }
}

// Writes the members of a sign-out.
#[tactic(auto, unfolding(crate::specs::FactMembers::sign_out_fields))]
fn put_out(writer: &mut Writer, fields: &SubjectOut) -> Result<(), AllocError>
    ensures { OnOk result (writer.new ≡ writer.old ++ spec.sign_out_fields fields.now) }
{
    put_text(writer, b"subject", fields.subject.as_bytes())?;
    put_time(writer, b"moment", fields.moment)
}
