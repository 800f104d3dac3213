//! The steps of a request: the reply and the fact are prepared, then the fact is added.

use std::marker::Model;
use tk_fact::Fact;
use tk_message::Reply;

/// A reply, and the fact that must be added before the reply is sent. Contracts see the bytes of
/// the parts.
#[derive(Drop)]
pub struct Prepared {
    /// The reply.
    pub reply: Reply,
    /// The fact; `None` if the request makes no fact.
    pub fact: Option<Fact>,
    /// The record of the fact: the bundle of that fact alone.
    pub logged: Option<Vec<u8>>,
}

impl Model for Prepared {
    ghost use Rattle.std.specs.Option.{option_map};
    ghost use Rattle.tk_region.specs.Step.{PreparedFields};

    ghost Value = { PreparedFields };

    ghost view = { λ p. record {
      reply = p.reply;
      fact = p.fact;
      logged = option_map (λ v. v.items) p.logged;
    } };
}

/// A reply, and the record of the fact that was added. Contracts see the bytes of the parts.
#[derive(Drop)]
pub struct Handled {
    /// The reply.
    pub reply: Reply,
    /// The record of the fact, the bundle of that fact alone; `None` if the request made no fact.
    pub logged: Option<Vec<u8>>,
}

impl Model for Handled {
    ghost use Rattle.std.specs.Option.{option_map};
    ghost use Rattle.tk_region.specs.Step.{HandledFields};

    ghost Value = { HandledFields };

    ghost view = { λ h. record { reply = h.reply; logged = option_map (λ v. v.items) h.logged } };
}

ghost use Rattle.std.specs.Prelude.{◌≡◌, IfOk, IfSome, Some, None};
ghost use Rattle.tk_fact.specs.Check.{refusal_of};
ghost use Rattle.tk_message.specs.Decision.{Passes};
ghost use Rattle.tk_region.specs.Step as spec;

use crate::decision::capped;
use std::alloc::{AllocError, Global};
use tk_bundle::single;
use tk_handle::Dot;
use tk_message::{Decision, ErrorCode, Place};

// Prepares a decision, unless it makes a fact above the cap.
pub(crate) fn prepare(
    alloc: Global,
    cap: u64,
    place: &Place,
    decision: Decision,
) -> Result<Prepared, AllocError>
    requires { Passes decision.made }
    ensures value { IfOk result (λ p. p ≡ spec.prepared_by cap place.now decision) }
    ensures next { IfOk result (λ p. IfSome p.fact (spec.IsNextAt cap place.now)) }
{
    let decision = capped(alloc, cap, place, decision)?;
    with_record(alloc, place.next_dot(), decision)
}

// Prepares the refusal of any request before the horizon.
pub(crate) fn refuse_early(alloc: Global, place: &Place) -> Result<Prepared, AllocError>
    ensures { IfOk result (λ p. p ≡ spec.early_in place.now) }
{
    let decision = Decision::refuse(alloc, ErrorCode::TemporarilyUnavailable)?;
    with_record(alloc, place.next_dot(), decision)
}

// Puts the fact of a decision at the dot, and adds the record of that fact.
fn with_record(alloc: Global, next: Dot, decision: Decision) -> Result<Prepared, AllocError>
    requires { Passes decision.made }
    ensures { IfOk result (λ p. p ≡ spec.prepared_at next decision) }
{
    let Decision { reply, made } = decision;
    match made {
        Some(body) => recorded(alloc, reply, Fact { dot: next, body }),
        None => Ok(Prepared {
            reply,
            fact: None,
            logged: None,
        }),
    }
}

// Adds the record of a fact to the fact and the reply.
fn recorded(alloc: Global, reply: Reply, fact: Fact) -> Result<Prepared, AllocError>
    requires { refusal_of fact.1 ≡ None }
    ensures { IfOk result (λ p. p ≡ spec.prepared_at fact.0
        (record { reply = reply; made = Some fact.1 })) }
{
    let Ok(logged) = single(alloc, &fact) else {
        drop(fact);
        drop(reply);
        return Err(AllocError);
    };
    Ok(Prepared {
        reply,
        fact: Some(fact),
        logged: Some(logged),
    })
}
