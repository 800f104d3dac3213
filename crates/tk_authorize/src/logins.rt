//! Judgements of requests that end a login.

ghost use Rattle.std.specs.Prelude.{◌≡◌, IfSome, Some};
ghost use Rattle.std.specs.Option.{option_copied};
ghost use Rattle.tk_params.specs.Params.{has_twice};
ghost use Rattle.tk_handle.specs.declared.kind.Kind.TheVariants as kind;
ghost use Rattle.tk_store.specs.StoreFields.{held_facts};
ghost use Rattle.tk_authorize.specs.Logouts as spec;
ghost use Rattle.tk_authorize.specs.SoundAdministered.{IsSoundAdministered};

use crate::admin_refusal::AdminRefusal;
use crate::administered::Administered;
use tk_fact::TokenRevoked;
use tk_handle::{Dot, Moment, read_login};
use tk_ledger::{Ledger, State};
use tk_message::Params;

// Judges a request to end a login.
pub(crate) fn log_out(ledger: &Ledger, now: Moment, params: &Params) -> Administered
    ensures value { result ≡ spec.logged_out_of (held_facts ledger.now) now params.now }
    ensures sound { IsSoundAdministered result }
{
    if is_id_twice(params) {
        return Administered::Refused(AdminRefusal::DuplicateParameter);
    }
    log_out_by(ledger, now, params.value("login_id"))
}

// Returns whether the login id occurs twice.
fn is_id_twice(params: &Params) -> bool
    ensures { result ≡ has_twice spec.logout_names params.now }
{
    let names = ["login_id"];
    params.has_twice(&names)
}

// Judges a request to end a login, by its id.
fn log_out_by(ledger: &Ledger, now: Moment, id: Option<&str>) -> Administered
    ensures value { result ≡ spec.logged_out_by (held_facts ledger.now) now
        (option_copied id.entry) }
    ensures sound { IsSoundAdministered result }
{
    let Some(id) = id else {
        return Administered::Refused(AdminRefusal::MissingParameter);
    };
    match read_login(id.as_bytes()) {
        Some(code) => log_out_at(ledger, now, code),
        None => Administered::Refused(AdminRefusal::UnknownLogin),
    }
}

// Ends the login that the code of the dot began, if there is one at the moment. A login that is
// dead or withdrawn has nothing left to end, and one whose code wasn't redeemed has no token yet.
fn log_out_at(ledger: &Ledger, now: Moment, code: Dot) -> Administered
    ensures value { result ≡ spec.logged_out_to (held_facts ledger.now) now (Some code) }
    ensures sound { IsSoundAdministered result }
{
    let Some(login) = ledger.login(now, code) else {
        return Administered::Refused(AdminRefusal::UnknownLogin);
    };
    match login.state {
        State::Used => end_by(code, ledger.ending(code)),
        State::Dead | State::Withdrawn => Administered::AlreadyEnded(code),
        State::Live | State::Past | State::Over | State::Ended => {
            Administered::Refused(AdminRefusal::UnredeemedCode)
        }
    }
}

// Ends a login by the revocation of its refresh token, if there is one (RFC 7009, 2.1).
fn end_by(code: Dot, ending: Option<TokenRevoked>) -> Administered
    requires { IfSome ending (λ r. r.token.kind ≡ kind.Refresh) }
    ensures value { result ≡ spec.ended_by code ending }
    ensures sound { IsSoundAdministered result }
{
    match ending {
        Some(revocation) => Administered::LogsOut(code, revocation),
        None => Administered::Refused(AdminRefusal::UnredeemedCode),
    }
}
