//! Judgements of administration requests by the region's choices.

ghost use Rattle.std.specs.Prelude.{◌≡◌, IfOk};
ghost use Rattle.tk_store.specs.StoreFields.{held_facts};
ghost use Rattle.tk_authorize.specs.Chosen as spec;
ghost use Rattle.tk_authorize.specs.SoundAdministered.{IsSoundAdministered};

use crate::admin_refusal::AdminRefusal;
use crate::administered::Administered;
use std::alloc::{AllocError, Global};
use tk_fact::{ClientAdded, ConsentGiven};
use tk_handle::Dot;
use tk_ledger::Ledger;
use tk_match::Redirects;
use tk_message::{Choices, ConsentReuse, RedirectKinds};

// Returns the judgement by the choices of the region.
pub(crate) fn choose(
    alloc: Global,
    ledger: &Ledger,
    choices: Choices,
    judged: Administered,
) -> Result<Administered, AllocError>
    requires { IsSoundAdministered judged }
    ensures value { IfOk result (λ a. a ≡ spec.chosen (held_facts ledger.now) choices judged) }
    ensures sound { IfOk result IsSoundAdministered }
{
    match judged {
        Administered::Registers(client) => choose_client(alloc, choices.redirects, client),
        Administered::Consents(consent) => Ok(choose_consent(ledger, choices.consent, consent)),
        Administered::Refused(_)
        | Administered::Shows(_)
        | Administered::Retires(_, _)
        | Administered::HasConsent(_)
        | Administered::Withdraws(_, _)
        | Administered::AlreadyOut(_)
        | Administered::SignsOut(_)
        | Administered::LogsOut(_, _)
        | Administered::AlreadyEnded(_)
        | Administered::SetsSecret(_)
        | Administered::HasSecret(_) => Ok(judged),
    }
}

// Judges a new client by the kinds of redirection URIs that the region registers.
fn choose_client(
    alloc: Global,
    kinds: Option<RedirectKinds>,
    client: ClientAdded,
) -> Result<Administered, AllocError>
    requires { IsSoundAdministered (Administered.Registers client) }
    ensures value { IfOk result (λ a. a ≡ spec.registered_among kinds client) }
    ensures sound { IfOk result IsSoundAdministered }
{
    if may_register(alloc, kinds, &client.redirects)? {
        Ok(Administered::Registers(client))
    } else {
        Ok(Administered::Refused(AdminRefusal::WrongRedirects))
    }
}

// Returns whether the region registers the redirection URIs. Without kinds each must be absolute.
fn may_register(
    alloc: Global,
    kinds: Option<RedirectKinds>,
    redirects: &Redirects,
) -> Result<bool, AllocError>
    ensures { IfOk result (λ may. may ≡ spec.may_register kinds redirects.now) }
{
    match kinds {
        Some(kinds) => redirects.are_among(alloc, kinds),
        None => redirects.are_absolute(alloc),
    }
}

// Judges a consent by what the region does if a consent that is held is good.
fn choose_consent(ledger: &Ledger, choice: ConsentReuse, consent: ConsentGiven) -> Administered
    requires { IsSoundAdministered (Administered.Consents consent) }
    ensures value { result ≡ spec.consented_again (held_facts ledger.now) choice consent }
    ensures sound { IsSoundAdministered result }
{
    match choice {
        ConsentReuse::New => Administered::Consents(consent),
        ConsentReuse::Held => {
            let held = ledger.consent_for(consent.client, &consent.subject, &consent.scope);
            held_or_given(held, consent)
        }
    }
}

// Judges a consent by the one that is held, if there is one.
fn held_or_given(held: Option<Dot>, consent: ConsentGiven) -> Administered
    requires { IsSoundAdministered (Administered.Consents consent) }
    ensures value { result ≡ spec.held_or_given held consent }
    ensures sound { IsSoundAdministered result }
{
    match held {
        Some(dot) => Administered::HasConsent(dot),
        None => Administered::Consents(consent),
    }
}
