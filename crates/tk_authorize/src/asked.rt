//! The scope and challenge that are requested by the parameters of an authorization request.

ghost use Rattle.std.specs.Prelude.{◌≡◌, IfOk};
ghost use Rattle.std.specs.List.{list_all};
ghost use Rattle.std.specs.Option.{option_copied};
ghost use Rattle.tk_params.specs.Params.{has_twice};
ghost use Rattle.tk_authorize.specs.Asked as spec;

use crate::challenge::find_challenge;
use crate::denial::Denial;
use std::alloc::{AllocError, Global};
use tk_fact::ClientKind;
use tk_match::Challenge;
use tk_message::{ChallengeRules, Params, scope_asked};
use tk_scope::Scope;

// The scope and challenge with which a code is requested.
#[derive(Drop)]
pub(crate) struct Asked {
    pub(crate) scope: Scope,
    pub(crate) challenge: Option<Challenge>,
}

// Returns what the parameters request, or the first denial that holds. `whole` is the client's
// scope, `rules` are those of challenges.
pub(crate) fn find_asked(
    alloc: Global,
    rules: ChallengeRules,
    client_kind: &ClientKind,
    whole: &Scope,
    params: &Params,
) -> Result<Result<Asked, Denial>, AllocError>
    ensures { IfOk result (λ asked. asked ≡ spec.asked_of rules client_kind.now whole.now
        params.now) }
{
    if has_duplicate(params) {
        return Ok(Err(Denial::DuplicateParameter));
    }
    if !is_state(params.value("state")) {
        return Ok(Err(Denial::MalformedState));
    }
    ask_by_type(
        alloc,
        rules,
        client_kind,
        whole,
        params,
        params.value("response_type"),
    )
}

// Returns whether a parameter other than the client's and the URI's occurs twice.
fn has_duplicate(params: &Params) -> bool
    ensures { result ≡ has_twice spec.other_names params.now }
{
    let names = [
        "response_type",
        "scope",
        "state",
        "code_challenge",
        "code_challenge_method",
    ];
    params.has_twice(&names)
}

// Returns whether a state, if there is one, may be sent back.
pub(crate) fn is_state(state: Option<&str>) -> bool
    ensures { result ≡ spec.is_state (option_copied state.entry) }
{
    match state {
        Some(text) => is_all_printable(text.as_bytes()),
        None => true,
    }
}

// Returns whether all bytes are printable ASCII.
fn is_all_printable(bytes: &[u8]) -> bool
    ensures { result ≡ list_all spec.is_printable bytes.now }
{
    bytes.iter().all(|b| (0x20..=0x7e).contains(b))
}

// Returns what the parameters request, by the response type.
fn ask_by_type(
    alloc: Global,
    rules: ChallengeRules,
    client_kind: &ClientKind,
    whole: &Scope,
    params: &Params,
    response_type: Option<&str>,
) -> Result<Result<Asked, Denial>, AllocError>
    ensures { IfOk result (λ asked. asked ≡ spec.asked_by_type rules client_kind.now whole.now
        params.now (option_copied response_type.entry)) }
{
    let Some(response_type) = response_type else {
        return Ok(Err(Denial::MissingResponseType));
    };
    if response_type == "code" {
        let scope = scope_asked(alloc, whole, params.value("scope"))?;
        return ask_by_scope(alloc, rules, client_kind, params, scope);
    }
    Ok(Err(Denial::UnsupportedResponseType))
}

// Returns what the parameters request, by their scope.
fn ask_by_scope(
    alloc: Global,
    rules: ChallengeRules,
    client_kind: &ClientKind,
    params: &Params,
    scope: Option<Scope>,
) -> Result<Result<Asked, Denial>, AllocError>
    ensures { IfOk result (λ asked. asked ≡ spec.asked_by_scope rules client_kind.now params.now
        scope) }
{
    let Some(scope) = scope else {
        return Ok(Err(Denial::WrongScope));
    };
    let method = params.value("code_challenge_method");
    let text = params.value("code_challenge");
    let challenge = find_challenge(alloc, rules, client_kind, method, text)?;
    Ok(asked_with(scope, challenge))
}

// Joins the scope and the challenge.
fn asked_with(scope: Scope, challenge: Result<Option<Challenge>, Denial>) -> Result<Asked, Denial>
    ensures { result ≡ spec.asked_with scope challenge }
{
    match challenge {
        Ok(challenge) => Ok(Asked { scope, challenge }),
        Err(why) => Err(why),
    }
}
