//! Decisions of requests for what a subject has.

ghost use Rattle.std.specs.Prelude.{◌≡◌, IfOk};
ghost use Rattle.std.specs.Option.{option_copied};
ghost use Rattle.tk_params.specs.Params.{has_twice};
ghost use Rattle.tk_store.specs.StoreFields.{held_facts};
ghost use Rattle.tk_message.specs.Decision.{Passes};
ghost use Rattle.tk_authorize.specs.SubjectListing as spec;

use crate::admin_refusal::AdminRefusal;
use std::alloc::{AllocError, Global};
use tk_fact::{Subject, SubjectError};
use tk_handle::{Dot, Moment, read_consent, read_login};
use tk_ledger::Ledger;
use tk_message::{Decision, JsonReply, Params, Request};

// What a request for what a subject has requests.
#[derive(Drop)]
pub(crate) struct SubjectAsked {
    pub(crate) subject: Subject,
    // The consent behind which the page of consents begins, if one is named.
    pub(crate) consents_after: Option<Dot>,
    // The login behind which the page of logins begins, if one is named.
    pub(crate) logins_after: Option<Dot>,
}

/// Decides a request for what a subject has at a moment, GET `/admin/subject` (own). Makes no fact.
///
/// The reply has at most 128 live consents of the subject and at most 128 of its logins, each in
/// the order of their ids' dots: the first, or those behind the consent that `consents_after` names
/// and the login that `logins_after` names. If others follow, `next_consent` and `next_login` have
/// the last id of the page, with which the next one is requested. `signed_out` is when the subject
/// last signed out everywhere. A subject that is unknown has nothing.
///
/// The first of these that holds refuses the request:
///
/// 1. A parameter is sent twice, or `subject` isn't sent, or isn't the name of a subject:
///    `invalid_request`.
/// 2. `consents_after` is no consent id, or `logins_after` no login id: `not_found`.
///
/// Whether the sender may administer is not examined: the front end must see to that. Returns an
/// error if memory runs out.
pub fn decide_subject(
    alloc: Global,
    ledger: &Ledger,
    now: Moment,
    request: &Request,
) -> Result<Decision, AllocError>
    ensures value { IfOk result (λ d. d ≡ spec.subject_of (held_facts ledger.now) now
        request.now.params) }

    // The request makes no fact.
    ensures passes { IfOk result (λ d. Passes d.made) }
{
    match find_asked(alloc, &request.params)? {
        Ok(asked) => decide_asked(alloc, ledger, now, &asked),
        Err(why) => Decision::refuse(alloc, why.code()),
    }
}

// Shows what the subject has.
fn decide_asked(
    alloc: Global,
    ledger: &Ledger,
    now: Moment,
    asked: &SubjectAsked,
) -> Result<Decision, AllocError>
    ensures value { IfOk result (λ d. d
        ≡ spec.decided_shown (held_facts ledger.now) now asked.now) }
    ensures passes { IfOk result (λ d. Passes d.made) }
{
    let SubjectAsked {
        subject,
        consents_after,
        logins_after,
    } = asked;
    let page = JsonReply::SubjectPage(ledger, now, subject, *consents_after, *logins_after);
    Ok(Decision::answer(page.reply(alloc)?))
}

// Returns what the parameters request, or the first refusal that holds.
fn find_asked(
    alloc: Global,
    params: &Params,
) -> Result<Result<SubjectAsked, AdminRefusal>, AllocError>
    ensures { IfOk result (λ asked. asked ≡ spec.asked_of params.now) }
{
    if has_repeats(params) {
        return Ok(Err(AdminRefusal::DuplicateParameter));
    }
    let consent = params.value("consents_after");
    let login = params.value("logins_after");
    ask_by(alloc, params.value("subject"), consent, login)
}

// Returns whether a parameter that the endpoint knows occurs twice.
fn has_repeats(params: &Params) -> bool
    ensures { result ≡ has_twice spec.subject_names params.now }
{
    let names = ["subject", "consents_after", "logins_after"];
    params.has_twice(&names)
}

// Returns what is requested, by the subject, which is required.
fn ask_by(
    alloc: Global,
    subject: Option<&str>,
    consent: Option<&str>,
    login: Option<&str>,
) -> Result<Result<SubjectAsked, AdminRefusal>, AllocError>
    ensures { IfOk result (λ asked. asked ≡ spec.asked_by (option_copied subject.entry)
        (option_copied consent.entry) (option_copied login.entry)) }
{
    let Some(subject) = subject else {
        return Ok(Err(AdminRefusal::MissingParameter));
    };
    match Subject::read(alloc, subject.as_bytes()) {
        Ok(subject) => Ok(ask_behind(subject, consent, login)),
        Err(SubjectError::Malformed) => Ok(Err(AdminRefusal::MalformedSubject)),
        Err(SubjectError::Memory) => Err(AllocError),
    }
}

// Returns what is requested of the subject.
fn ask_behind(
    subject: Subject,
    consent: Option<&str>,
    login: Option<&str>,
) -> Result<SubjectAsked, AdminRefusal>
    ensures { result ≡ spec.asked_behind subject
        (spec.consents_after (option_copied consent.entry))
        (spec.logins_after (option_copied login.entry)) }
{
    let consents_after = consent_asked(consent)?;
    let logins_after = login_asked(login)?;
    Ok(SubjectAsked {
        subject,
        consents_after,
        logins_after,
    })
}

// Returns the dot of a consent id, if one was sent.
fn consent_asked(id: Option<&str>) -> Result<Option<Dot>, AdminRefusal>
    ensures { result ≡ spec.consents_after (option_copied id.entry) }
{
    let Some(id) = id else {
        return Ok(None);
    };
    match read_consent(id.as_bytes()) {
        Some(consent) => Ok(Some(consent)),
        None => Err(AdminRefusal::UnknownConsent),
    }
}

// Returns the dot of a login id, if one was sent.
fn login_asked(id: Option<&str>) -> Result<Option<Dot>, AdminRefusal>
    ensures { result ≡ spec.logins_after (option_copied id.entry) }
{
    let Some(id) = id else {
        return Ok(None);
    };
    match read_login(id.as_bytes()) {
        Some(login) => Ok(Some(login)),
        None => Err(AdminRefusal::UnknownLogin),
    }
}
