//! The operator that an administration request names.

ghost use Rattle.std.specs.Prelude.{◌≡◌, IfOk};
ghost use Rattle.std.specs.Option.{option_copied};
ghost use Rattle.tk_message.specs.Decision.{Passes};
ghost use Rattle.tk_authorize.specs.Operators as spec;

use crate::admin_refusal::AdminRefusal;
use std::alloc::{AllocError, Global};
use tk_fact::{By, Subject, SubjectError};
use tk_handle::Moment;
use tk_message::Decision;

// Returns by whom and when a request at the moment administers, if it names an operator.
pub(crate) fn by_asked(
    alloc: Global,
    now: Moment,
    operator: Option<&[u8]>,
) -> Result<Result<Option<By>, AdminRefusal>, AllocError>
    ensures { IfOk result (λ by. by ≡ spec.by_asked now (option_copied operator.entry)) }
{
    let Some(operator) = operator else {
        return Ok(Ok(None));
    };
    match Subject::read(alloc, operator) {
        Ok(operator) => Ok(Ok(Some(By {
            operator,
            moment: now,
        }))),
        Err(SubjectError::Malformed) => Ok(Err(AdminRefusal::MalformedOperator)),
        Err(SubjectError::Memory) => Err(AllocError),
    }
}

// Puts by whom and when into the fact of a decision, if it makes one.
pub(crate) fn with_operator(decision: Decision, by: Option<By>) -> Decision
    requires { Passes decision.made }
    ensures value { result ≡ spec.with_operator by decision }
    ensures passes { Passes result.made }
{
    let reply = decision.reply;
    let made = match decision.made {
        Some(body) => Some(body.with_by(by)),
        None => None,
    };
    Decision { reply, made }
}
