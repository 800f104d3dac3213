//! Judgements of administration requests, by their endpoint.

use crate::admin_refusal::AdminRefusal;
use tk_fact::{
    ClientAdded, ClientKind, ClientLives, ConsentGiven, SecretSet, Subject, SubjectOut,
    TokenRevoked,
};
use tk_handle::Dot;
use tk_scope::Scope;

// The judgement of an administration request.
#[derive(Drop)]
pub(crate) enum Administered {
    Refused(AdminRefusal),
    Registers(ClientAdded),
    Shows(ShownClient),
    // Retires the client, unless it is retired already: the flag is whether the client is live.
    Retires(Dot, bool),
    Consents(ConsentGiven),
    // The consent at the dot is held and good.
    HasConsent(Dot),
    // Withdraws the consent, unless it is withdrawn already: the flag is whether the consent is
    // live.
    Withdraws(Dot, bool),
    // The subject was signed out at the moment, or is signed out later.
    AlreadyOut(Subject),
    SignsOut(SubjectOut),
    // Ends the login that the code of the dot began, by this revocation.
    LogsOut(Dot, TokenRevoked),
    // The login is dead already, or its client or consent isn't live.
    AlreadyEnded(Dot),
    SetsSecret(SecretSet),
    // The client has the secret at its last turn.
    HasSecret(Dot),
}

// A client, as an administrator sees it.
#[derive(Drop)]
pub(crate) struct ShownClient {
    pub(crate) client: Dot,
    pub(crate) client_kind: ClientKind,
    pub(crate) lives: Option<ClientLives>,
    pub(crate) live: bool,
    pub(crate) scope: Scope,
}

ghost use Rattle.std.specs.Prelude.{◌≡◌, IfOk};
ghost use Rattle.tk_store.specs.StoreFields.{held_facts};
ghost use Rattle.tk_authorize.specs.Administered as spec;
ghost use Rattle.tk_authorize.specs.SoundAdministered.{IsSoundAdministered};

use crate::clients::{retire, show};
use crate::consents::{consent, withdraw};
use crate::logins::log_out;
use crate::registration::register;
use crate::secrets::change_secret;
use crate::sign_outs::sign_out;
use std::alloc::{AllocError, Global};
use tk_handle::Moment;
use tk_ledger::Ledger;
use tk_message::{Endpoint, Request};

// Judges an administration request by the cases of its endpoint.
pub(crate) fn administer(
    alloc: Global,
    ledger: &Ledger,
    now: Moment,
    request: &Request,
) -> Result<Administered, AllocError>
    ensures value { IfOk result (λ a.
        a ≡ spec.administered_of (held_facts ledger.now) now request.now) }
    ensures sound { IfOk result IsSoundAdministered }
{
    match request.endpoint {
        Endpoint::Authorize
        | Endpoint::Token
        | Endpoint::Introspect
        | Endpoint::Revoke
        | Endpoint::ListClients
        | Endpoint::ShowSubject => { Ok(Administered::Refused(AdminRefusal::UnknownEndpoint)) }
        Endpoint::AddClient => register(alloc, &request.params),
        Endpoint::ShowClient => show(alloc, ledger, &request.params),
        Endpoint::Retire => Ok(retire(ledger, &request.params)),
        Endpoint::ChangeSecret => Ok(change_secret(ledger, now, &request.params)),
        Endpoint::Consent => consent(alloc, ledger, &request.params),
        Endpoint::Withdraw => Ok(withdraw(ledger, &request.params)),
        Endpoint::SignOut => sign_out(alloc, ledger, now, &request.params),
        Endpoint::Logout => Ok(log_out(ledger, now, &request.params)),
    }
}
