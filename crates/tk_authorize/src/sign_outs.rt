//! Judgements of requests that sign a subject out everywhere.

ghost use Rattle.std.specs.Prelude.{◌≡◌, IfOk};
ghost use Rattle.std.specs.Option.{option_copied};
ghost use Rattle.tk_params.specs.Params.{has_twice};
ghost use Rattle.tk_store.specs.StoreFields.{held_facts};
ghost use Rattle.tk_ledger.specs.SignOuts.{is_signed_out};
ghost use Rattle.tk_authorize.specs.Administered as spec;
ghost use Rattle.tk_authorize.specs.SoundAdministered.{IsSoundAdministered};

use crate::admin_refusal::AdminRefusal;
use crate::administered::Administered;
use std::alloc::{AllocError, Global};
use tk_fact::{Subject, SubjectError, SubjectOut};
use tk_handle::Moment;
use tk_ledger::Ledger;
use tk_message::Params;

// Judges a request to sign a subject out everywhere.
pub(crate) fn sign_out(
    alloc: Global,
    ledger: &Ledger,
    now: Moment,
    params: &Params,
) -> Result<Administered, AllocError>
    ensures value { IfOk result (λ a. a
        ≡ spec.signed_out_of (held_facts ledger.now) now params.now) }
    ensures sound { IfOk result IsSoundAdministered }
{
    if is_subject_twice(params) {
        return Ok(Administered::Refused(AdminRefusal::DuplicateParameter));
    }
    sign_out_by(alloc, ledger, now, params.value("subject"))
}

// Returns whether the subject occurs twice.
fn is_subject_twice(params: &Params) -> bool
    ensures { result ≡ has_twice spec.sign_out_names params.now }
{
    let names = ["subject"];
    params.has_twice(&names)
}

// Judges a sign-out by the text of the subject, which is required.
fn sign_out_by(
    alloc: Global,
    ledger: &Ledger,
    now: Moment,
    subject: Option<&str>,
) -> Result<Administered, AllocError>
    ensures value { IfOk result (λ a.
        a ≡ spec.signed_out_by (held_facts ledger.now) now (option_copied subject.entry)) }
    ensures sound { IfOk result IsSoundAdministered }
{
    let Some(subject) = subject else {
        return Ok(Administered::Refused(AdminRefusal::MissingParameter));
    };
    sign_out_as(alloc, ledger, now, subject)
}

// Judges a sign-out of a subject, if the text names one.
fn sign_out_as(
    alloc: Global,
    ledger: &Ledger,
    now: Moment,
    subject: &str,
) -> Result<Administered, AllocError>
    ensures value { IfOk result (λ a.
        a ≡ spec.signed_out_as (held_facts ledger.now) now subject.now) }
    ensures sound { IfOk result IsSoundAdministered }
{
    match Subject::read(alloc, subject.as_bytes()) {
        Ok(subject) => Ok(sign_out_at(ledger, now, subject)),
        Err(SubjectError::Malformed) => Ok(Administered::Refused(AdminRefusal::MalformedSubject)),
        Err(SubjectError::Memory) => Err(AllocError),
    }
}

// Signs a subject out, unless the subject is signed out at the moment or later.
fn sign_out_at(ledger: &Ledger, now: Moment, subject: Subject) -> Administered
    ensures value { result ≡ spec.signed_out_at (held_facts ledger.now) now subject }
    ensures sound { IsSoundAdministered result }
{
    if is_out(ledger, now, &subject) {
        return Administered::AlreadyOut(subject);
    }
    // This call gives the proof that the subject's name is within its limits.
    let _name = subject.as_str();
    Administered::SignsOut(SubjectOut {
        subject,
        moment: now,
        by: None,
    })
}

// Returns whether the subject was signed out at the moment, or is signed out later.
fn is_out(ledger: &Ledger, now: Moment, subject: &Subject) -> bool
    ensures { result ≡ is_signed_out (held_facts ledger.now) subject.now now }
{
    match ledger.signed_out(subject) {
        Some(last) => now.seconds() <= last.seconds(),
        None => false,
    }
}
