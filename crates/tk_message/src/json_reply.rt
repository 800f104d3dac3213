//! What a JSON reply says, and the one function that writes such a reply.

use crate::error_code::ErrorCode;
use crate::status_code::StatusCode;
use tk_fact::{ClientKind, ClientLives, Subject};
use tk_handle::{Dot, Handle, Moment};
use tk_ledger::{Ledger, Standing};
use tk_scope::Scope;

/// What a JSON reply says.
#[derive(Drop)]
pub enum JsonReply<'a> {
    /// The name of an error (RFC 6749, 5.2).
    Error(ErrorCode),
    /// The id of the client that was added at the dot (own).
    Client(StatusCode, Dot),
    /// The client that was added at the dot: its id, kind, lives if it has any, whether it is live,
    /// whether it keeps its refresh token, and its scope (own).
    Shown(Dot, &'a ClientKind, Option<ClientLives>, bool, &'a Scope),
    /// A page of the clients of the ledger that are above the dot, or of the first (own).
    Clients(&'a Ledger, Option<Dot>),
    /// The id of the consent that was given at the dot (own).
    Consent(StatusCode, Dot),
    /// The subject that was signed out (own).
    Subject(&'a Subject),
    /// A page of what a subject has at the moment: its live consents and its logins that are above
    /// a dot each, or the first, and when it last signed out everywhere (own).
    SubjectPage(&'a Ledger, Moment, &'a Subject, Option<Dot>, Option<Dot>),
    /// The id of the login that the code of the dot began (own).
    Login(Dot),
    /// An access token, its life in seconds, a refresh token, and the scope of the access token
    /// (RFC 6749, 5.1).
    Tokens(&'a Handle, u64, &'a Handle, &'a Scope),
    /// An access token, its life in seconds, and its scope, for a client that keeps its refresh
    /// token (RFC 6749, 5.1).
    Refreshed(&'a Handle, u64, &'a Scope),
    /// An active access token: its client, expiry, start, scope and subject (RFC 7662, 2.2).
    Access(Standing<'a>),
    /// An active refresh token: its client, expiry, start, scope and subject (RFC 7662, 2.2).
    Refresh(Standing<'a>),
    /// A token that is not active (RFC 7662, 2.2).
    Inactive,
    /// The number of facts of a bundle that were new (own).
    Taken(u16),
}

ghost use Rattle.std.specs.Prelude.{◌≡◌, IfOk};
ghost use Rattle.serde_json.specs.Written.{compact_text};
ghost use Rattle.tk_message.specs.JsonReply as spec;

use crate::bodies::{
    access_body, client_body, consent_body, login_body, one_flag, one_number, one_text,
    refresh_body, refreshed_body, shown_body, token_body,
};
use crate::client_page::clients_body;
use crate::reply::{Payload, Reply, asks_by};
use crate::subject_page::subject_page;
use std::alloc::{AllocError, Global};

impl JsonReply<'_> {
    /// Returns the reply that says this; an error if memory runs out.
    pub fn reply(self, alloc: Global) -> Result<Reply, AllocError>
        ensures { IfOk result (λ reply. reply ≡ spec.reply_of self.entry) }
    {
        let status = self.status();
        let text = self.body(alloc)?;
        Ok(Reply {
            status,
            location: None,
            asks: asks_by(status),
            body: Payload::Json(text),
        })
    }

    // Returns the status of the reply.
    fn status(&self) -> StatusCode
        ensures { result ≡ spec.status_of self.now }
    {
        match self {
            JsonReply::Error(code) => code.status(),
            JsonReply::Client(status, _) | JsonReply::Consent(status, _) => *status,
            _ => StatusCode::Ok,
        }
    }

    // Returns the text of the reply's body.
    fn body(self, alloc: Global) -> Result<Vec<u8>, AllocError>
        ensures { IfOk result (λ text. text.items ≡ compact_text (spec.body_of self.entry)) }
    {
        match self {
            JsonReply::Error(code) => one_text(alloc, "error", code.name()),
            JsonReply::Client(_, client) => client_body(alloc, client),
            JsonReply::Shown(client, client_kind, lives, live, scope) => shown_body(
                alloc,
                client,
                client_kind,
                lives,
                live,
                scope,
            ),
            JsonReply::Clients(ledger, after) => clients_body(alloc, ledger, after),
            JsonReply::Consent(_, consent) => consent_body(alloc, consent),
            JsonReply::Subject(subject) => one_text(alloc, "subject", subject.as_str()),
            JsonReply::SubjectPage(ledger, now, subject, consents_after, logins_after) => {
                subject_page(alloc, ledger, now, subject, consents_after, logins_after)
            }
            JsonReply::Login(code) => login_body(alloc, code),
            JsonReply::Tokens(access, lifetime, refresh, scope) => {
                token_body(alloc, access, lifetime, refresh, scope)
            }
            JsonReply::Refreshed(access, lifetime, scope) => {
                refreshed_body(alloc, access, lifetime, scope)
            }
            JsonReply::Access(standing) => access_body(alloc, &standing),
            JsonReply::Refresh(standing) => refresh_body(alloc, &standing),
            JsonReply::Inactive => one_flag(alloc, "active", false),
            JsonReply::Taken(count) => one_number(alloc, "took", u64::from(count)),
        }
    }
}
