//! Judgements of requests that give or withdraw a consent (RFC 6749, 4.1).

ghost use Rattle.std.specs.Prelude.{◌≡◌, IfOk, Some};
ghost use Rattle.std.specs.Option.{option_copied};
ghost use Rattle.tk_params.specs.Params.{has_twice};
ghost use Rattle.tk_store.specs.StoreFields.{held_facts};
ghost use Rattle.tk_authorize.specs.Administered as spec;
ghost use Rattle.tk_authorize.specs.SoundAdministered.{IsSoundAdministered};

use crate::admin_refusal::AdminRefusal;
use crate::administered::Administered;
use std::alloc::{AllocError, Global};
use tk_fact::{ConsentGiven, Subject, SubjectError};
use tk_handle::{Dot, read_client, read_consent};
use tk_ledger::Ledger;
use tk_message::{Params, scope_asked};
use tk_scope::Scope;

// ---- given

pub(crate) fn consent(
    alloc: Global,
    ledger: &Ledger,
    params: &Params,
) -> Result<Administered, AllocError>
    ensures value { IfOk result (λ a. a ≡ spec.consented_of (held_facts ledger.now) params.now) }
    ensures sound { IfOk result IsSoundAdministered }
{
    if has_repeats(params) {
        return Ok(Administered::Refused(AdminRefusal::DuplicateParameter));
    }
    let id = params.value("client_id");
    let subject = params.value("subject");
    consent_by(alloc, ledger, id, subject, params.value("scope"))
}

// Returns whether a parameter that the endpoint knows occurs twice.
fn has_repeats(params: &Params) -> bool
    ensures { result ≡ has_twice spec.consent_names params.now }
{
    let names = ["client_id", "subject", "scope"];
    params.has_twice(&names)
}

// Judges a request to give a consent, by its parameters.
fn consent_by(
    alloc: Global,
    ledger: &Ledger,
    id: Option<&str>,
    subject: Option<&str>,
    scope: Option<&str>,
) -> Result<Administered, AllocError>
    ensures value { IfOk result (λ a.
        a ≡ spec.consented_by (held_facts ledger.now) (option_copied id.entry)
        (option_copied subject.entry) (option_copied scope.entry)) }
    ensures sound { IfOk result IsSoundAdministered }
{
    let Some(id) = id else {
        return Ok(Administered::Refused(AdminRefusal::MissingParameter));
    };
    let Some(subject) = subject else {
        return Ok(Administered::Refused(AdminRefusal::MissingParameter));
    };
    let Some(scope) = scope else {
        return Ok(Administered::Refused(AdminRefusal::MissingParameter));
    };
    match read_client(id.as_bytes()) {
        Some(client) => consent_to(alloc, ledger, client, subject, scope),
        None => Ok(Administered::Refused(AdminRefusal::UnknownClient)),
    }
}

// Judges a consent to a client, if the client is live.
fn consent_to(
    alloc: Global,
    ledger: &Ledger,
    client: Dot,
    subject: &str,
    scope: &str,
) -> Result<Administered, AllocError>
    ensures value { IfOk result (λ a. a ≡ spec.consented_to (held_facts ledger.now) subject.now
        scope.now (Some client)) }
    ensures sound { IfOk result IsSoundAdministered }
{
    let Some(view) = ledger.client(client) else {
        return Ok(Administered::Refused(AdminRefusal::UnknownClient));
    };
    if !view.live {
        return Ok(Administered::Refused(AdminRefusal::UnknownClient));
    }
    consent_as(alloc, client, view.scope, subject, scope)
}

// Judges a consent of a subject, if the text names one.
fn consent_as(
    alloc: Global,
    client: Dot,
    whole: &Scope,
    subject: &str,
    scope: &str,
) -> Result<Administered, AllocError>
    ensures value { IfOk result (λ a.
        a ≡ spec.consented_as client whole.now subject.now scope.now) }
    ensures sound { IfOk result IsSoundAdministered }
{
    match Subject::read(alloc, subject.as_bytes()) {
        Ok(subject) => {
            let scope = scope_asked(alloc, whole, Some(scope))?;
            Ok(consent_for(client, subject, scope))
        }
        Err(SubjectError::Malformed) => Ok(Administered::Refused(AdminRefusal::MalformedSubject)),
        Err(SubjectError::Memory) => Err(AllocError),
    }
}

// Judges a consent to a scope, if there is one.
fn consent_for(client: Dot, subject: Subject, scope: Option<Scope>) -> Administered
    ensures value { result ≡ spec.consented_for client subject scope }
    ensures sound { IsSoundAdministered result }
{
    let Some(scope) = scope else {
        return Administered::Refused(AdminRefusal::WrongScope);
    };
    // This call gives the proof that the subject's name is within its limits.
    let _name = subject.as_str();
    Administered::Consents(ConsentGiven {
        client,
        subject,
        scope,
        by: None,
    })
}

// ---- withdrawn

pub(crate) fn withdraw(ledger: &Ledger, params: &Params) -> Administered
    ensures value { result ≡ spec.withdrawn_of (held_facts ledger.now) params.now }
    ensures sound { IsSoundAdministered result }
{
    if is_id_twice(params) {
        return Administered::Refused(AdminRefusal::DuplicateParameter);
    }
    withdraw_by(ledger, params.value("consent_id"))
}

// Returns whether the consent id occurs twice.
fn is_id_twice(params: &Params) -> bool
    ensures { result ≡ has_twice spec.withdrawal_names params.now }
{
    let names = ["consent_id"];
    params.has_twice(&names)
}

// Judges a request to withdraw a consent, by its id.
fn withdraw_by(ledger: &Ledger, id: Option<&str>) -> Administered
    ensures value { result ≡ spec.withdrawn_by (held_facts ledger.now) (option_copied id.entry) }
    ensures sound { IsSoundAdministered result }
{
    let Some(id) = id else {
        return Administered::Refused(AdminRefusal::MissingParameter);
    };
    match read_consent(id.as_bytes()) {
        Some(consent) => withdraw_at(ledger, consent),
        None => Administered::Refused(AdminRefusal::UnknownConsent),
    }
}

// Withdraws the consent that was given at the dot, if one was.
fn withdraw_at(ledger: &Ledger, consent: Dot) -> Administered
    ensures value { result ≡ spec.withdrawn_to (held_facts ledger.now) (Some consent) }
    ensures sound { IsSoundAdministered result }
{
    match ledger.consent(consent) {
        Some(view) => Administered::Withdraws(consent, view.live),
        None => Administered::Refused(AdminRefusal::UnknownConsent),
    }
}
