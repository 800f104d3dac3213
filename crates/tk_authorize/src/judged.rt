//! Judgements of authorization requests: the client, where the reply goes, and whether a code is
//! issued (RFC 6749, 3.1.2, 4.1.1 and 4.1.2.1; RFC 7636, 4.3).

ghost use Rattle.std.specs.Prelude.{◌≡◌, IfOk, Some, true};
ghost use Rattle.std.specs.Option.{option_copied};
ghost use Rattle.tk_match.specs.Redirects.{is_uri};
ghost use Rattle.tk_params.specs.Params.{has_twice};
ghost use Rattle.tk_store.specs.StoreFields.{held_facts};
ghost use Rattle.tk_authorize.specs.Judged as spec;

use crate::approval::{Approval, approve};
use crate::asked::find_asked;
use crate::denial::Denial;
use crate::refusal::Refusal;
use std::alloc::{AllocError, Global};
use tk_fact::ClientLives;
use tk_handle::{Dot, read_client};
use tk_ledger::Ledger;
use tk_match::{Pick, RedirectError, Uri};
use tk_message::{ChallengeRules, Params};

// The URI that the reply goes to, and the client that a code is issued to, with its lives.
#[derive(Drop)]
pub(crate) struct Target {
    pub(crate) client: Dot,
    pub(crate) lives: Option<ClientLives>,
    pub(crate) uri: Uri,
    // Whether the request named the URI.
    pub(crate) sent: bool,
}

// The judgement of an authorization request.
#[derive(Drop)]
pub(crate) enum Judged {
    Refused(Refusal),
    Denied(Target, Denial),
    Approved(Target, Approval),
}

// Judges a request by its parameters and the subject that has signed in: the first case that holds.
pub(crate) fn judge(
    alloc: Global,
    ledger: &Ledger,
    rules: ChallengeRules,
    params: &Params,
    subject: Option<&[u8]>,
) -> Result<Judged, AllocError>
    ensures { IfOk result (λ judged. judged ≡ spec.judged_of (held_facts ledger.now) rules
        params.now (option_copied subject.entry)) }
{
    if has_duplicate(params) {
        return Ok(Judged::Refused(Refusal::DuplicateClientOrRedirect));
    }
    judge_by_id(
        alloc,
        ledger,
        rules,
        params,
        subject,
        params.value("client_id"),
    )
}

// Returns whether the client id or the redirection URI occurs twice.
fn has_duplicate(params: &Params) -> bool
    ensures { result ≡ has_twice spec.target_names params.now }
{
    let names = ["client_id", "redirect_uri"];
    params.has_twice(&names)
}

// Judges a request by its client id.
fn judge_by_id(
    alloc: Global,
    ledger: &Ledger,
    rules: ChallengeRules,
    params: &Params,
    subject: Option<&[u8]>,
    id: Option<&str>,
) -> Result<Judged, AllocError>
    ensures { IfOk result (λ judged. judged ≡ spec.judged_by_id (held_facts ledger.now) rules
        params.now (option_copied subject.entry) (option_copied id.entry)) }
{
    let Some(id) = id else {
        return Ok(Judged::Refused(Refusal::MissingClient));
    };
    match read_client(id.as_bytes()) {
        Some(client) => judge_client(alloc, ledger, rules, params, subject, client),
        None => Ok(Judged::Refused(Refusal::UnknownClient)),
    }
}

// Judges a request of the client that was added at the dot, if one was.
fn judge_client(
    alloc: Global,
    ledger: &Ledger,
    rules: ChallengeRules,
    params: &Params,
    subject: Option<&[u8]>,
    client: Dot,
) -> Result<Judged, AllocError>
    ensures { IfOk result (λ judged. judged ≡ spec.judged_by_client (held_facts ledger.now) rules
        params.now (option_copied subject.entry) (Some client)) }
{
    let Some(view) = ledger.client(client) else {
        return Ok(Judged::Refused(Refusal::UnknownClient));
    };
    if !view.live {
        return Ok(Judged::Refused(Refusal::RetiredClient));
    }
    let named = bytes_of(params.value("redirect_uri"));
    match view.redirects.pick(named) {
        Pick::Uri(uri) => {
            let asked = find_asked(alloc, rules, view.client_kind, view.scope, params)?;
            let approval = approve(alloc, ledger, client, subject, asked)?;
            let target = find_target(alloc, client, view.lives, uri, named.is_some())?;
            Ok(judged_at(target, approval))
        }
        Pick::Missing => Ok(Judged::Refused(Refusal::MissingRedirect)),
        Pick::Unknown => Ok(Judged::Refused(Refusal::UnknownRedirect)),
    }
}

// Returns the bytes of a text, if there is one.
fn bytes_of(text: Option<&str>) -> Option<&[u8]>
    ensures { option_copied result ≡ option_copied text.entry }
{
    match text {
        Some(text) => Some(text.as_bytes()),
        None => None,
    }
}

// Returns the target at the URI that the request means.
fn find_target(
    alloc: Global,
    client: Dot,
    lives: Option<ClientLives>,
    uri: &[u8],
    sent: bool,
) -> Result<Target, AllocError>
    requires { is_uri uri.now ≡ true }
    ensures { IfOk result (λ target. target ≡ record {
      client = client;
      lives = lives;
      uri = uri.now;
      sent = sent;
    }) }
{
    match Uri::read(alloc, uri) {
        Ok(uri) => Ok(Target {
            client,
            lives,
            uri,
            sent,
        }),
        Err(RedirectError::Memory) => Err(AllocError),
        Err(_) => unreachable!("a URI that is picked is one"),
    }
}

// Judges a request by its approval. From here on the reply goes to the client's URI.
fn judged_at(target: Target, approval: Result<Approval, Denial>) -> Judged
    ensures { result ≡ spec.judged_at target approval }
{
    match approval {
        Ok(approval) => Judged::Approved(target, approval),
        Err(why) => Judged::Denied(target, why),
    }
}
