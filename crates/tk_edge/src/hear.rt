//! What arrives over a connection, an `Arrival`, and how it is made of the parts of a request.

use crate::exchange::Exchange;
use crate::notice::Notice;
use crate::refusal::Refusal;
use tk_message::Request;

/// What arrived over a connection: the meaning of its bytes (RFC 9112, 3, 5 and 6).
#[derive(Drop)]
pub enum Arrival {
    /// Nothing: the stream ended before its first byte.
    Silence,
    /// A request that isn't handed to the region, by the first rule that it breaks.
    Refused(Refusal),
    /// A request for the region, decoded once.
    Request(Request),
    /// A request of another region. Arrives only if all paths are served.
    Exchange(Exchange),
    /// A request for what the server says of itself. Arrives only if that is served.
    Notice(Notice),
}

ghost use Rattle.std.specs.Prelude.{◌≡◌, IfOk};
ghost use Rattle.std.specs.Option.{option_copied, option_map};
ghost use Rattle.tk_params.specs.Params.{Pairs};
ghost use Rattle.tk_edge.specs.HeadFields.{AreFields};
ghost use Rattle.tk_edge.specs.Heard as spec;
ghost use Rattle.tk_edge.specs.Judged.{MayPost};
ghost use Rattle.tk_edge.specs.declared.reach.Reach.{Reach as AnyReach};

use crate::exchange::Sent;
use crate::field::{Fields, only_value};
use crate::path::Posted;
use std::alloc::{AllocError, Global};
use tk_message::Endpoint;
use tk_params::Params;

// Makes the arrival of a whole body.
pub(crate) fn posted_to(
    alloc: Global,
    posted: Posted,
    body: &[u8],
    fields: &Fields<'_>,
) -> Result<Arrival, AllocError>
    ensures came { (pairs : Pairs) → AreFields fields.now pairs
        → IfOk result (λ came. came ≡ spec.posted_to posted body.now pairs) }
    ensures may { (reach : AnyReach) → MayPost reach posted → IfOk result (spec.MayArrive reach) }
{
    match posted {
        Posted::Form(endpoint) => asked(alloc, endpoint, body, fields),
        Posted::Pull(pages) => {
            let sent = sent(alloc, body)?;
            Ok(Arrival::Exchange(Exchange::Pull(pages, sent)))
        }
        Posted::Push => Ok(Arrival::Exchange(Exchange::Push(sent(alloc, body)?))),
    }
}

// Copies a body of another region.
fn sent(alloc: Global, body: &[u8]) -> Result<Sent, AllocError>
    ensures { IfOk result (λ sent. sent ≡ body.now) }
{
    Ok(Sent::new(Vec::from_slice(alloc, body)?))
}

// Makes the arrival of a whole request.
pub(crate) fn asked(
    alloc: Global,
    endpoint: Endpoint,
    form: &[u8],
    fields: &Fields<'_>,
) -> Result<Arrival, AllocError>
    ensures came { (pairs : Pairs) → AreFields fields.now pairs
        → IfOk result (λ came. came
        ≡ Arrival.Request (spec.request_at endpoint form.now pairs)) }
    ensures may { (reach : AnyReach) → IfOk result (spec.MayArrive reach) }
{
    let request = request_of(alloc, endpoint, form, fields)?;
    Ok(Arrival::Request(request))
}

// Copies what the region reads of a request: the form and three fields of the head.
fn request_of(
    alloc: Global,
    endpoint: Endpoint,
    form: &[u8],
    fields: &Fields<'_>,
) -> Result<Request, AllocError>
    ensures { (pairs : Pairs) → AreFields fields.now pairs
        → IfOk result (λ request. request ≡ spec.request_at endpoint form.now pairs) }
{
    let params = Params::read(alloc, form)?;
    let authorization = owned(alloc, only_value(&fields.authorization))?;
    let subject = owned(alloc, only_value(&fields.subject))?;
    let operator = owned(alloc, only_value(&fields.operator))?;
    Ok(Request {
        endpoint,
        params,
        authorization,
        subject,
        operator,
    })
}

// Copies a value, if there is one.
fn owned(alloc: Global, value: Option<&[u8]>) -> Result<Option<Vec<u8>>, AllocError>
    ensures { IfOk result (λ o. option_map (λ v. v.items) o ≡ option_copied value.entry) }
{
    match value {
        Some(value) => Ok(Some(Vec::from_slice(alloc, value)?)),
        None => Ok(None),
    }
}
