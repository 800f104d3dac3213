//! The sender of an introspection or revocation request.

ghost use Rattle.std.specs.Prelude.{◌≡◌, IfOk};
ghost use Rattle.tk_store.specs.StoreFields.{held_facts};
ghost use Rattle.tk_message.specs.Caller.{caller_of};
ghost use Rattle.tk_query.specs.Caller.{known_names};

use std::alloc::{AllocError, Global};
use tk_ledger::Ledger;
use tk_message::{Caller, Request, find_caller};

// Returns the sender of a request to either endpoint.
pub(crate) fn caller_here(
    alloc: Global,
    ledger: &Ledger,
    request: &Request,
) -> Result<Caller, AllocError>
    ensures { IfOk result (λ caller.
        caller ≡ caller_of (held_facts ledger.now) known_names request.now) }
{
    let names = ["token", "token_type_hint", "client_id", "client_secret"];
    find_caller(alloc, ledger, &names, request)
}
