//! The page of a subject that GET `/admin/subject` returns, as a text.

ghost use Rattle.std.specs.Prelude.{◌≡◌, ◌∷◌, ◌++◌, zero, IfOk, OnOk, codes};
ghost use Rattle.std.specs.Option.{option_map};
ghost use Rattle.json.specs.Token.{begin_array, key};
ghost use Rattle.json.specs.Tree.{items_tokens, json_tokens};
ghost use Rattle.serde_json.specs.Written.{compact_text, items_outline, outline};
ghost use Rattle.tk_handle.specs.ConsentId.{consent_text as consent_name};
ghost use Rattle.tk_handle.specs.LoginId.{login_text as login_name};
ghost use Rattle.tk_store.specs.StoreFields.{held_facts};
ghost use Rattle.tk_store.specs.Walk.{above};
ghost use Rattle.tk_ledger.specs.SubjectWalk.{consents_of, logins_of};
ghost use Rattle.tk_message.specs.Bodies.{text_written};
ghost use Rattle.tk_message.specs.LastSignOut.{last_sign_out};
ghost use Rattle.tk_message.specs.Page.{max_listed, listed, cursor_of};
ghost use Rattle.tk_message.specs.SubjectPage as spec;

use crate::bodies::put_optional;
use crate::client_page::MAX_LISTED;
use crate::object::{begin, end, put_number, put_text};
use json::Writer;
use std::alloc::{AllocError, Global};
use tk_fact::Subject;
use tk_handle::{Dot, Moment, client_text, consent_text, login_text};
use tk_ledger::{ConsentView, Ledger, LoginView, State};

// How many bytes are reserved for a page. Most pages need fewer, a long one needs more.
const ROOM: usize = 2_048;

// Returns the page of a subject at the moment: its live consents and its logins above a dot each,
// or the first.
pub(crate) fn subject_page(
    alloc: Global,
    ledger: &Ledger,
    now: Moment,
    subject: &Subject,
    consents_after: Option<Dot>,
    logins_after: Option<Dot>,
) -> Result<Vec<u8>, AllocError>
    ensures { IfOk result (λ body. body.items
        ≡ compact_text (spec.subject_page (held_facts ledger.now) now subject.now consents_after
        logins_after)) }
{
    let mut out = begin(alloc, ROOM)?;
    let next_consent = put_consents(alloc, &mut out, ledger, subject, consents_after)?;
    let next_login = put_logins(alloc, &mut out, ledger, now, subject, logins_after)?;
    put_next_consent(alloc, &mut out, next_consent)?;
    put_next_login(alloc, &mut out, next_login)?;
    put_optional(&mut out, "signed_out", last_out(ledger, subject))?;
    put_text(&mut out, "subject", subject.as_str())?;
    end(out)
}

// Returns when the subject last signed out everywhere, in seconds since 1970, if a sign-out is
// held.
fn last_out(ledger: &Ledger, subject: &Subject) -> Option<u64>
    ensures { result ≡ last_sign_out (held_facts ledger.now) subject.now }
{
    match ledger.signed_out(subject) {
        Some(last) => Some(last.seconds()),
        None => None,
    }
}

// ---- consents

// Writes the member with the consents of a page. Returns the last of them, if others follow.
fn put_consents(
    alloc: Global,
    out: &mut Writer,
    ledger: &Ledger,
    subject: &Subject,
    after: Option<Dot>,
) -> Result<Option<Dot>, AllocError>
    ensures ok { OnOk result (out.new.tokens ≡ out.old.tokens
        ++ key (codes "consents") ∷ begin_array
        ∷ items_tokens (items_outline (listed spec.consent_item max_listed
        (above (consents_of (held_facts ledger.now) subject.now) after)))) }
    ensures next { IfOk result (λ next. next ≡ cursor_of max_listed after
        (above (consents_of (held_facts ledger.now) subject.now) after)) }
    ensures before { OnOk result (out.new.before ≡ out.old.before) }
{
    out.key("consents")?;
    out.begin_array()?;
    let mut at = after;
    for _ in 0..MAX_LISTED {
        let Some(next) = ledger.next_consent(subject, at) else {
            out.end_array()?;
            return Ok(None);
        };
        put_consent(alloc, out, &next)?;
        at = Some(next.0);
    }
    out.end_array()?;
    Ok(consent_cursor(ledger, subject, at))
}

// Returns the consent that a full page ends with, if others follow.
fn consent_cursor(ledger: &Ledger, subject: &Subject, last: Option<Dot>) -> Option<Dot>
    ensures { result ≡ cursor_of zero last
        (above (consents_of (held_facts ledger.now) subject.now) last) }
{
    let cursor = last;
    match ledger.next_consent(subject, last) {
        Some(_) => cursor,
        None => None,
    }
}

// Writes a consent of a page.
fn put_consent(
    alloc: Global,
    out: &mut Writer,
    consent: &(Dot, ConsentView<'_>),
) -> Result<(), AllocError>
    ensures ok { OnOk result (out.new.tokens ≡ out.old.tokens
        ++ json_tokens (outline (spec.consent_item consent.now))) }
    ensures before { OnOk result (out.new.before ≡ out.old.before) }
{
    let (dot, view) = (consent.0, &consent.1);
    let client = client_text(alloc, view.client)?;
    let id = consent_text(alloc, dot)?;
    out.begin_object()?;
    put_text(out, "client_id", client.as_str())?;
    put_text(out, "consent_id", id.as_str())?;
    put_text(out, "scope", view.scope.text())?;
    out.end_object()
}

// Writes the member that names the consent behind which the next page begins, if there is one.
fn put_next_consent(alloc: Global, out: &mut Writer, next: Option<Dot>) -> Result<(), AllocError>
    ensures ok { OnOk result (out.new.tokens ≡ out.old.tokens
        ++ text_written (codes "next_consent") (option_map consent_name next)) }
    ensures before { OnOk result (out.new.before ≡ out.old.before) }
{
    let Some(consent) = next else {
        return Ok(());
    };
    let id = consent_text(alloc, consent)?;
    put_text(out, "next_consent", id.as_str())
}

// ---- logins

// Writes the member with the logins of a page. Returns the last of them, if others follow.
fn put_logins(
    alloc: Global,
    out: &mut Writer,
    ledger: &Ledger,
    now: Moment,
    subject: &Subject,
    after: Option<Dot>,
) -> Result<Option<Dot>, AllocError>
    ensures ok { OnOk result (out.new.tokens ≡ out.old.tokens
        ++ key (codes "logins") ∷ begin_array
        ∷ items_tokens (items_outline (listed spec.login_item max_listed
        (above (logins_of (held_facts ledger.now) now subject.now) after)))) }
    ensures next { IfOk result (λ next. next ≡ cursor_of max_listed after
        (above (logins_of (held_facts ledger.now) now subject.now) after)) }
    ensures before { OnOk result (out.new.before ≡ out.old.before) }
{
    out.key("logins")?;
    out.begin_array()?;
    let mut at = after;
    for _ in 0..MAX_LISTED {
        let Some(next) = ledger.next_login(subject, now, at) else {
            out.end_array()?;
            return Ok(None);
        };
        put_login(alloc, out, &next)?;
        at = Some(next.0);
    }
    out.end_array()?;
    Ok(login_cursor(ledger, now, subject, at))
}

// Returns the login that a full page ends with, if others follow.
fn login_cursor(ledger: &Ledger, now: Moment, subject: &Subject, last: Option<Dot>) -> Option<Dot>
    ensures { result ≡ cursor_of zero last
        (above (logins_of (held_facts ledger.now) now subject.now) last) }
{
    let cursor = last;
    match ledger.next_login(subject, now, last) {
        Some(_) => cursor,
        None => None,
    }
}

// Writes a login of a page.
fn put_login(
    alloc: Global,
    out: &mut Writer,
    login: &(Dot, LoginView<'_>),
) -> Result<(), AllocError>
    ensures ok { OnOk result (out.new.tokens ≡ out.old.tokens
        ++ json_tokens (outline (spec.login_item login.now))) }
    ensures before { OnOk result (out.new.before ≡ out.old.before) }
{
    let (code, view) = (login.0, &login.1);
    let client = client_text(alloc, view.client)?;
    let id = login_text(alloc, code)?;
    out.begin_object()?;
    put_text(out, "client_id", client.as_str())?;
    put_number(out, "exp", view.family_end.seconds())?;
    put_number(out, "iat", view.start.seconds())?;
    put_text(out, "login_id", id.as_str())?;
    put_text(out, "scope", view.scope.text())?;
    put_text(out, "state", state_name(view.state))?;
    out.end_object()
}

// Returns the name of a login's state.
fn state_name(state: State) -> &'static str
    ensures { result.now ≡ spec.state_name state }
{
    match state {
        State::Used => "active",
        State::Live => "waiting",
        State::Past => "unused",
        State::Dead | State::Ended => "ended",
        State::Withdrawn => "withdrawn",
        State::Over => "over",
    }
}

// Writes the member that names the login behind which the next page begins, if there is one.
fn put_next_login(alloc: Global, out: &mut Writer, next: Option<Dot>) -> Result<(), AllocError>
    ensures ok { OnOk result (out.new.tokens ≡ out.old.tokens
        ++ text_written (codes "next_login") (option_map login_name next)) }
    ensures before { OnOk result (out.new.before ≡ out.old.before) }
{
    let Some(login) = next else {
        return Ok(());
    };
    let id = login_text(alloc, login)?;
    put_text(out, "next_login", id.as_str())
}
