//! Judgements of requests that show or retire a client.

ghost use Rattle.std.specs.Prelude.{◌≡◌, IfOk, Ok as Found};
ghost use Rattle.tk_params.specs.Params.{has_twice};
ghost use Rattle.tk_store.specs.StoreFields.{held_facts};
ghost use Rattle.tk_authorize.specs.Administered as spec;
ghost use Rattle.tk_authorize.specs.SoundAdministered.{IsSoundAdministered};

use crate::admin_refusal::AdminRefusal;
use crate::administered::{Administered, ShownClient};
use crate::client_params::client_asked;
use std::alloc::{AllocError, Global};
use tk_handle::Dot;
use tk_ledger::Ledger;
use tk_message::Params;

// Judges a request to show a client.
pub(crate) fn show(
    alloc: Global,
    ledger: &Ledger,
    params: &Params,
) -> Result<Administered, AllocError>
    ensures value { IfOk result (λ a. a ≡ spec.shown_of (held_facts ledger.now) params.now) }
    ensures sound { IfOk result IsSoundAdministered }
{
    match client_named(params) {
        Ok(client) => show_at(alloc, ledger, client),
        Err(why) => Ok(Administered::Refused(why)),
    }
}

// Shows the client that was added at the dot, if one was.
fn show_at(alloc: Global, ledger: &Ledger, client: Dot) -> Result<Administered, AllocError>
    ensures value { IfOk result (λ a. a ≡ spec.shown_by (held_facts ledger.now) (Found client)) }
    ensures sound { IfOk result IsSoundAdministered }
{
    let Some(view) = ledger.client(client) else {
        return Ok(Administered::Refused(AdminRefusal::UnknownClient));
    };
    let scope = view.scope.copy(alloc)?;
    Ok(Administered::Shows(ShownClient {
        client,
        client_kind: *view.client_kind,
        lives: view.lives,
        live: view.live,
        scope,
    }))
}

// Judges a request to retire a client.
pub(crate) fn retire(ledger: &Ledger, params: &Params) -> Administered
    ensures value { result ≡ spec.retired_of (held_facts ledger.now) params.now }
    ensures sound { IsSoundAdministered result }
{
    match client_named(params) {
        Ok(client) => retire_at(ledger, client),
        Err(why) => Administered::Refused(why),
    }
}

// Retires the client that was added at the dot, if one was.
fn retire_at(ledger: &Ledger, client: Dot) -> Administered
    ensures value { result ≡ spec.retired_by (held_facts ledger.now) (Found client) }
    ensures sound { IsSoundAdministered result }
{
    match ledger.client(client) {
        Some(view) => Administered::Retires(client, view.live),
        None => Administered::Refused(AdminRefusal::UnknownClient),
    }
}

// Returns the dot of the client id in the parameters, whether or not a client was added there.
fn client_named(params: &Params) -> Result<Dot, AdminRefusal>
    ensures { result ≡ spec.client_named params.now }
{
    if is_id_twice(params) {
        return Err(AdminRefusal::DuplicateParameter);
    }
    client_asked(params.value("client_id"))
}

// Returns whether the client id occurs twice.
fn is_id_twice(params: &Params) -> bool
    ensures { result ≡ has_twice spec.client_names params.now }
{
    let names = ["client_id"];
    params.has_twice(&names)
}
