//! The challenge that an authorization request sends (RFC 7636, 4.3 and 4.4.1; RFC 9700, 2.1.1).

ghost use Rattle.std.specs.Prelude.{◌≡◌, IfOk};
ghost use Rattle.std.specs.Option.{option_copied};
ghost use Rattle.tk_authorize.specs.Challenge as spec;

use crate::denial::Denial;
use std::alloc::{AllocError, Global};
use tk_fact::ClientKind;
use tk_match::{Challenge, ChallengeError};
use tk_message::ChallengeRules;

// Returns the challenge, `None` if the client may do without, or the first denial that holds.
pub(crate) fn find_challenge(
    alloc: Global,
    rules: ChallengeRules,
    client_kind: &ClientKind,
    method: Option<&str>,
    text: Option<&str>,
) -> Result<Result<Option<Challenge>, Denial>, AllocError>
    ensures { IfOk result (λ challenge.
        challenge ≡ spec.challenge_sent rules client_kind.now (option_copied method.entry)
        (option_copied text.entry)) }
{
    match text {
        Some(text) => read_challenge(alloc, rules, method_of(method), text),
        None => Ok(without_challenge(rules, client_kind, method)),
    }
}

// Judges a request that sends no challenge.
fn without_challenge(
    rules: ChallengeRules,
    client_kind: &ClientKind,
    method: Option<&str>,
) -> Result<Option<Challenge>, Denial>
    ensures { result ≡ spec.without_challenge rules client_kind.now (option_copied method.entry) }
{
    if method.is_some() {
        return Err(Denial::ChallengeMethodAlone);
    }
    if is_required(rules, client_kind) {
        return Err(Denial::MissingChallenge);
    }
    Ok(None)
}

// Returns whether a client of this kind must send a challenge.
fn is_required(rules: ChallengeRules, client_kind: &ClientKind) -> bool
    ensures { result ≡ spec.is_required rules client_kind.now }
{
    rules.of_all || is_public(client_kind)
}

// Returns whether a client of this kind is public.
fn is_public(client_kind: &ClientKind) -> bool
    ensures { result ≡ spec.is_public client_kind.now }
{
    match client_kind {
        ClientKind::Public => true,
        ClientKind::Confidential(_) => false,
        ClientKind::Resource(_) => false,
        ClientKind::Keeping(_) => false,
    }
}

// Returns the method that was sent, or `plain` if none was sent.
fn method_of(method: Option<&str>) -> &str
    ensures { result.now ≡ spec.method_of (option_copied method.entry) }
{
    match method {
        Some(method) => method,
        None => "plain",
    }
}

// Reads a challenge with its method, if the rules take the method.
fn read_challenge(
    alloc: Global,
    rules: ChallengeRules,
    method: &str,
    text: &str,
) -> Result<Result<Option<Challenge>, Denial>, AllocError>
    ensures { IfOk result (λ challenge. challenge ≡ spec.read_challenge rules method.now text.now) }
{
    if rules.only_s256 && method != "S256" {
        return Ok(Err(Denial::UnsupportedChallengeMethod));
    }
    read_known(alloc, method, text)
}

// Reads a challenge with its method.
fn read_known(
    alloc: Global,
    method: &str,
    text: &str,
) -> Result<Result<Option<Challenge>, Denial>, AllocError>
    ensures { IfOk result (λ challenge. challenge ≡ spec.read_known method.now text.now) }
{
    match Challenge::read(alloc, method.as_bytes(), text.as_bytes()) {
        Ok(challenge) => Ok(Ok(Some(challenge))),
        Err(ChallengeError::Method) => Ok(Err(Denial::UnsupportedChallengeMethod)),
        Err(ChallengeError::Malformed) => Ok(Err(Denial::MalformedChallenge)),
        Err(ChallengeError::Memory) => Err(AllocError),
    }
}
