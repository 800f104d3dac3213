//! Decisions: the reply to a request, and the fact that the request makes.

ghost use Rattle.std.specs.Prelude.{◌≡◌, IfOk};
ghost use Rattle.tk_message.specs.Decision as spec;

use crate::error_code::ErrorCode;
use crate::json_reply::JsonReply;
use crate::reply::{Asks, Reply};
use std::alloc::{AllocError, Global};
use tk_fact::Body;

/// The reply to a request, and the fact that the request makes.
#[derive(Drop)]
pub struct Decision {
    /// The reply. The server sends it once the fact is stored.
    pub reply: Reply,
    /// The body of the fact, which gets the dot of the `Place`; `None` if the request makes no
    /// fact.
    pub made: Option<Body>,
}

impl Decision {
    /// Returns a reply without a fact.
    pub fn answer(reply: Reply) -> Decision
        ensures { result ≡ spec.answered reply }
    {
        Decision { reply, made: None }
    }

    /// Returns an error reply without a fact; an error if memory runs out.
    pub fn refuse(alloc: Global, code: ErrorCode) -> Result<Decision, AllocError>
        ensures { IfOk result (λ decision. decision ≡ spec.refused code) }
    {
        let reply = JsonReply::Error(code).reply(alloc)?;
        Ok(Decision::answer(reply))
    }

    /// Returns the reply, without a fact, that the client may send the request again later (RFC
    /// 7009, 2.2.1); an error if memory runs out.
    pub fn postpone(alloc: Global) -> Result<Decision, AllocError>
        ensures { IfOk result (λ decision. decision ≡ spec.postponed) }
    {
        let reply = JsonReply::Error(ErrorCode::TemporarilyUnavailable).reply(alloc)?;
        Ok(Decision::answer(Reply {
            asks: Asks::Retry,
            ..reply
        }))
    }
}
