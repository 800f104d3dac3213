//! Decisions of requests for a page of clients.

ghost use Rattle.std.specs.Prelude.{◌≡◌, IfOk};
ghost use Rattle.std.specs.Option.{option_copied};
ghost use Rattle.tk_params.specs.Params.{has_twice};
ghost use Rattle.tk_store.specs.StoreFields.{held_facts};
ghost use Rattle.tk_message.specs.Decision.{Passes};
ghost use Rattle.tk_authorize.specs.Listing as spec;

use crate::admin_refusal::AdminRefusal;
use std::alloc::{AllocError, Global};
use tk_handle::{Dot, read_client};
use tk_ledger::Ledger;
use tk_message::{Decision, JsonReply, Params, Request};

/// Decides a request for a page of clients, GET `/admin/clients` (own). Makes no fact.
///
/// The page has at most 128 clients, live and retired ones, in the order of their ids' dots: the
/// first, or those behind the client that `after` names. If others follow, `next` has the last id
/// of the page, with which the next one is requested. Clients that are added meanwhile are on the
/// page of their dots.
///
/// A request that names `after` twice is `invalid_request`, and one whose `after` is no client id
/// `not_found`. Whether the sender may administer is not examined: the front end must see to that.
/// Returns an error if memory runs out.
pub fn decide_clients(
    alloc: Global,
    ledger: &Ledger,
    request: &Request,
) -> Result<Decision, AllocError>
    ensures value { IfOk result (λ d. d ≡ spec.listing_of (held_facts ledger.now)
        request.now.params) }

    // The request makes no fact.
    ensures passes { IfOk result (λ d. Passes d.made) }
{
    match after_named(&request.params) {
        Ok(after) => {
            let reply = JsonReply::Clients(ledger, after).reply(alloc)?;
            Ok(Decision::answer(reply))
        }
        Err(why) => Decision::refuse(alloc, why.code()),
    }
}

// Returns the dot of the client behind which the page begins, if one is named.
fn after_named(params: &Params) -> Result<Option<Dot>, AdminRefusal>
    ensures { result ≡ spec.after_named params.now }
{
    if is_after_twice(params) {
        return Err(AdminRefusal::DuplicateParameter);
    }
    after_asked(params.value("after"))
}

// Returns whether `after` occurs twice.
fn is_after_twice(params: &Params) -> bool
    ensures { result ≡ has_twice spec.listing_names params.now }
{
    let names = ["after"];
    params.has_twice(&names)
}

// Returns the dot of a client id, if one was sent.
fn after_asked(id: Option<&str>) -> Result<Option<Dot>, AdminRefusal>
    ensures { result ≡ spec.after_asked (option_copied id.entry) }
{
    let Some(id) = id else {
        return Ok(None);
    };
    match read_client(id.as_bytes()) {
        Some(client) => Ok(Some(client)),
        None => Err(AdminRefusal::UnknownClient),
    }
}
