//! Approvals: what a code is issued for, for whom, and by which consent.

ghost use Rattle.std.specs.Prelude.{◌≡◌, IfOk};
ghost use Rattle.std.specs.Option.{option_copied};
ghost use Rattle.tk_store.specs.StoreFields.{held_facts};
ghost use Rattle.tk_authorize.specs.Approval as spec;

use crate::asked::Asked;
use crate::denial::Denial;
use std::alloc::{AllocError, Global};
use tk_fact::{Subject, SubjectError};
use tk_handle::Dot;
use tk_ledger::Ledger;
use tk_match::Challenge;
use tk_scope::Scope;

// The consent, subject, scope and challenge of a code that may be issued.
#[derive(Drop)]
pub(crate) struct Approval {
    pub(crate) consent: Dot,
    pub(crate) subject: Subject,
    pub(crate) scope: Scope,
    pub(crate) challenge: Option<Challenge>,
}

// Returns the approval of what a client requests, if the subject that has signed in consented to
// it.
pub(crate) fn approve(
    alloc: Global,
    ledger: &Ledger,
    client: Dot,
    subject: Option<&[u8]>,
    asked: Result<Asked, Denial>,
) -> Result<Result<Approval, Denial>, AllocError>
    ensures { IfOk result (λ approval. approval ≡ spec.approval_of (held_facts ledger.now) client
        (option_copied subject.entry) asked) }
{
    match asked {
        Ok(asked) => approve_by_subject(alloc, ledger, client, asked, subject),
        Err(why) => Ok(Err(why)),
    }
}

// Approves what a client requests, if there is a subject that consented to it.
fn approve_by_subject(
    alloc: Global,
    ledger: &Ledger,
    client: Dot,
    asked: Asked,
    subject: Option<&[u8]>,
) -> Result<Result<Approval, Denial>, AllocError>
    ensures { IfOk result (λ approval. approval ≡ spec.approval_by_subject (held_facts ledger.now)
        client asked (option_copied subject.entry)) }
{
    let Some(subject) = subject else {
        drop(asked);
        return Ok(Err(Denial::MissingSubject));
    };
    match Subject::read(alloc, subject) {
        Ok(subject) => {
            let consent = ledger.consent_for(client, &subject, &asked.scope);
            Ok(approval_by_consent(subject, asked, consent))
        }
        Err(why) => {
            drop(asked);
            match why {
                SubjectError::Malformed => Ok(Err(Denial::MalformedSubject)),
                SubjectError::Memory => Err(AllocError),
            }
        }
    }
}

// Approves what a client requests, if there is a consent.
fn approval_by_consent(
    subject: Subject,
    asked: Asked,
    consent: Option<Dot>,
) -> Result<Approval, Denial>
    ensures { result ≡ spec.approval_by_consent subject asked consent }
{
    let Some(consent) = consent else {
        return Err(Denial::MissingConsent);
    };
    let Asked { scope, challenge } = asked;
    Ok(Approval {
        consent,
        subject,
        scope,
        challenge,
    })
}
