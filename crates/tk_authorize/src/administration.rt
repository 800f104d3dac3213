//! Decisions of administration requests.

ghost use Rattle.std.specs.Prelude.{◌≡◌, IfOk};
ghost use Rattle.tk_store.specs.StoreFields.{held_facts};
ghost use Rattle.tk_message.specs.Bodies.{client_body, login_body, subject_body};
ghost use Rattle.tk_message.specs.Decision.{answered, Passes};
ghost use Rattle.tk_message.specs.Reply.{json_reply};
ghost use Rattle.tk_authorize.specs.Administration as spec;
ghost use Rattle.tk_authorize.specs.SoundAdministered.{IsSoundAdministered};

use crate::administered::{Administered, ShownClient, administer};
use crate::chosen::choose;
use crate::operators::{by_asked, with_operator};
use std::alloc::{AllocError, Global};
use tk_fact::{
    Body, ClientAdded, ClientRetired, ConsentGiven, ConsentWithdrawn, SecretSet, Subject,
    SubjectOut, TokenRevoked,
};
use tk_handle::{Dot, Moment};
use tk_ledger::Ledger;
use tk_message::{Decision, JsonReply, Place, Request, StatusCode};

/// Decides an administration request at a moment (own). Returns the reply, and the fact that the
/// request makes, if any.
///
/// Administrators add, show and retire clients, change their secrets, give and withdraw consents,
/// sign subjects out everywhere, and end logins. The region's choices say which redirection URIs a
/// new client may have, and whether a consent is given again if one that is held is good. A request
/// for another endpoint is `not_found`. Whether the sender may administer is not examined: the
/// front end must see to that. If the request names an operator, the fact has by whom and when it
/// was administered. Returns an error if memory runs out.
pub fn decide_admin(
    alloc: Global,
    ledger: &Ledger,
    place: &Place,
    now: Moment,
    request: &Request,
) -> Result<Decision, AllocError>
    ensures value { IfOk result (λ d. d ≡ spec.administration_of (held_facts ledger.now) place.now
        now request.now) }

    // The fact that the request makes, if any, passes its check.
    ensures passes { IfOk result (λ d. Passes d.made) }
{
    match by_asked(alloc, now, request.operator())? {
        Ok(by) => {
            let decision = decide_alone(alloc, ledger, place, now, request)?;
            Ok(with_operator(decision, by))
        }
        Err(why) => Decision::refuse(alloc, why.code()),
    }
}

// Decides a request in which no operator is named.
fn decide_alone(
    alloc: Global,
    ledger: &Ledger,
    place: &Place,
    now: Moment,
    request: &Request,
) -> Result<Decision, AllocError>
    ensures value { IfOk result (λ d. d ≡ spec.decided_alone (held_facts ledger.now) place.now
        now request.now) }
    ensures passes { IfOk result (λ d. Passes d.made) }
{
    let administered = administer(alloc, ledger, now, request)?;
    let chosen = choose(alloc, ledger, place.choices, administered)?;
    decide_by(alloc, place, chosen)
}

// Decides a request by its judgement.
fn decide_by(
    alloc: Global,
    place: &Place,
    administered: Administered,
) -> Result<Decision, AllocError>
    requires { IsSoundAdministered administered }
    ensures value { IfOk result (λ d. d ≡ spec.administered_by place.now administered) }
    ensures passes { IfOk result (λ d. Passes d.made) }
{
    match administered {
        Administered::Refused(why) => Decision::refuse(alloc, why.code()),
        Administered::Registers(client) => decide_registered(alloc, place, client),
        Administered::Shows(shown) => decide_shown(alloc, &shown),
        Administered::Retires(client, live) => decide_retired(alloc, client, live),
        Administered::Consents(consent) => decide_consented(alloc, place, consent),
        Administered::HasConsent(consent) => decide_held(alloc, consent),
        Administered::Withdraws(consent, live) => decide_withdrawn(alloc, consent, live),
        Administered::AlreadyOut(subject) => decide_already_out(alloc, &subject),
        Administered::SignsOut(sign_out) => decide_out(alloc, sign_out),
        Administered::LogsOut(login, revocation) => decide_ended(alloc, login, revocation),
        Administered::AlreadyEnded(login) => decide_already_ended(alloc, login),
        Administered::SetsSecret(secret) => decide_set(alloc, secret),
        Administered::HasSecret(client) => decide_has(alloc, client),
    }
}

// Adds a client.
fn decide_registered(
    alloc: Global,
    place: &Place,
    client: ClientAdded,
) -> Result<Decision, AllocError>
    requires { IsSoundAdministered (Administered.Registers client) }
    ensures value { IfOk result (λ d. d ≡ spec.decided_registered place.now client) }
    ensures passes { IfOk result (λ d. Passes d.made) }
{
    let reply = JsonReply::Client(StatusCode::Created, place.next_dot()).reply(alloc)?;
    Ok(Decision {
        reply,
        made: Some(Body::ClientAdded(client)),
    })
}

// Shows a client.
fn decide_shown(alloc: Global, shown: &ShownClient) -> Result<Decision, AllocError>
    ensures { IfOk result (λ d. d ≡ spec.decided_shown shown.now) }
{
    let ShownClient {
        client,
        client_kind,
        lives,
        live,
        scope,
    } = shown;
    let shown = JsonReply::Shown(*client, client_kind, *lives, *live, scope);
    Ok(Decision::answer(shown.reply(alloc)?))
}

// Retires a client. A client that is not live makes no fact.
fn decide_retired(alloc: Global, client: Dot, live: bool) -> Result<Decision, AllocError>
    ensures value { IfOk result (λ d. d ≡ spec.decided_retired client live) }
    ensures passes { IfOk result (λ d. Passes d.made) }
{
    let reply = JsonReply::Client(StatusCode::Ok, client).reply(alloc)?;
    let made = if live {
        Some(Body::ClientRetired(ClientRetired { client, by: None }))
    } else {
        None
    };
    Ok(Decision { reply, made })
}

// Gives a consent.
fn decide_consented(
    alloc: Global,
    place: &Place,
    consent: ConsentGiven,
) -> Result<Decision, AllocError>
    requires { IsSoundAdministered (Administered.Consents consent) }
    ensures value { IfOk result (λ d. d ≡ spec.decided_consented place.now consent) }
    ensures passes { IfOk result (λ d. Passes d.made) }
{
    let reply = JsonReply::Consent(StatusCode::Created, place.next_dot()).reply(alloc)?;
    Ok(Decision {
        reply,
        made: Some(Body::ConsentGiven(consent)),
    })
}

// Names a consent that is held and good, without a fact.
fn decide_held(alloc: Global, consent: Dot) -> Result<Decision, AllocError>
    ensures { IfOk result (λ d. d ≡ spec.decided_held consent) }
{
    let reply = JsonReply::Consent(StatusCode::Ok, consent).reply(alloc)?;
    Ok(Decision::answer(reply))
}

// Withdraws a consent. A consent that is not live makes no fact.
fn decide_withdrawn(alloc: Global, consent: Dot, live: bool) -> Result<Decision, AllocError>
    ensures value { IfOk result (λ d. d ≡ spec.decided_withdrawn consent live) }
    ensures passes { IfOk result (λ d. Passes d.made) }
{
    let reply = JsonReply::Consent(StatusCode::Ok, consent).reply(alloc)?;
    let made = if live {
        Some(Body::ConsentWithdrawn(ConsentWithdrawn { consent, by: None }))
    } else {
        None
    };
    Ok(Decision { reply, made })
}

// Names a subject that is signed out already, without a fact.
fn decide_already_out(alloc: Global, subject: &Subject) -> Result<Decision, AllocError>
    ensures { IfOk result (λ d. d
        ≡ answered (json_reply StatusCode.Ok (subject_body subject.now))) }
{
    let reply = JsonReply::Subject(subject).reply(alloc)?;
    Ok(Decision::answer(reply))
}

// Signs a subject out.
fn decide_out(alloc: Global, sign_out: SubjectOut) -> Result<Decision, AllocError>
    requires { IsSoundAdministered (Administered.SignsOut sign_out) }
    ensures value { IfOk result (λ d. d ≡ spec.decided_out sign_out) }
    ensures passes { IfOk result (λ d. Passes d.made) }
{
    let reply = JsonReply::Subject(&sign_out.subject).reply(alloc)?;
    Ok(Decision {
        reply,
        made: Some(Body::SubjectOut(sign_out)),
    })
}

// Ends a login, by the revocation of its refresh token.
fn decide_ended(alloc: Global, login: Dot, revocation: TokenRevoked) -> Result<Decision, AllocError>
    requires { IsSoundAdministered (Administered.LogsOut login revocation) }
    ensures value { IfOk result (λ d. d ≡ spec.decided_ended login revocation) }
    ensures passes { IfOk result (λ d. Passes d.made) }
{
    let reply = JsonReply::Login(login).reply(alloc)?;
    Ok(Decision {
        reply,
        made: Some(Body::TokenRevoked(revocation)),
    })
}

// Names a login that is ended already, without a fact.
fn decide_already_ended(alloc: Global, login: Dot) -> Result<Decision, AllocError>
    ensures { IfOk result (λ d. d
        ≡ answered (json_reply StatusCode.Ok (login_body login))) }
{
    let reply = JsonReply::Login(login).reply(alloc)?;
    Ok(Decision::answer(reply))
}

// Sets a secret of a client.
fn decide_set(alloc: Global, secret: SecretSet) -> Result<Decision, AllocError>
    requires { IsSoundAdministered (Administered.SetsSecret secret) }
    ensures value { IfOk result (λ d. d ≡ spec.decided_set secret) }
    ensures passes { IfOk result (λ d. Passes d.made) }
{
    let reply = JsonReply::Client(StatusCode::Created, secret.client).reply(alloc)?;
    Ok(Decision {
        reply,
        made: Some(Body::SecretSet(secret)),
    })
}

// Names a client that has the secret already, without a fact.
fn decide_has(alloc: Global, client: Dot) -> Result<Decision, AllocError>
    ensures { IfOk result (λ d. d
        ≡ answered (json_reply StatusCode.Ok (client_body client))) }
{
    let reply = JsonReply::Client(StatusCode::Ok, client).reply(alloc)?;
    Ok(Decision::answer(reply))
}
