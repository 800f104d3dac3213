//! Walks over what a subject has: live consents, and logins, in the order of their dots.

ghost use Rattle.std.specs.Prelude.{◌≡◌};
ghost use Rattle.std.specs.Option.{option_copied};
ghost use Rattle.tk_store.specs.StoreFields.{held_facts};
ghost use Rattle.tk_ledger.specs.SubjectWalk as spec;
ghost use Rattle.tk_ledger.specs.SubjectWalk.{consents_of, logins_of, Walks};

use crate::change::{digest_prefix, subject_digest};
use crate::compare::same_bytes;
use crate::consent_keys::{consents_from, last_consent};
use crate::consent_view::ConsentView;
use crate::ledger::Ledger;
use crate::login_view::LoginView;
use crate::looks::issued_at;
use crate::subject_keys::{last_login, logins_from};
use std::ops::Bound;
use tk_fact::{CodeIssued, Subject};
use tk_handle::{Dot, Moment};

// Returns whether the code, if there is one, was issued to the subject.
fn is_issued_to(code: Option<&CodeIssued>, subject: &Subject) -> bool
    ensures { result ≡ spec.is_issued_to subject.now (option_copied code.entry) }
{
    match code {
        Some(code) => same_bytes(code.subject.as_bytes(), subject.as_bytes()),
        None => false,
    }
}

impl Ledger {
    // Returns the live consent of the subject at the dot.
    fn consent_of(&self, subject: &Subject, at: Dot) -> Option<ConsentView<'_>>
        ensures { result ≡ spec.consent_of (held_facts self.now) subject.now at }
    {
        match self.consent(at) {
            Some(view) => {
                if view.live && same_bytes(view.subject.as_bytes(), subject.as_bytes()) {
                    Some(view)
                } else {
                    None
                }
            }
            None => None,
        }
    }

    // Returns the first live consent of the subject above the dot, or above none.
    pub(crate) fn consent_after(
        &self,
        subject: &Subject,
        after: Option<Dot>,
    ) -> Option<(Dot, ConsentView<'_>)>
        ensures { Walks (consents_of (held_facts self.now) subject.now) after result }
    {
        let digest = subject_digest(subject);
        let (first, last) = (consents_from(&digest, after), last_consent(&digest));
        for key in self.index.consents.range((first, Bound::Included(last))) {
            if let Some(view) = self.consent_of(subject, key.consent) {
                return Some((key.consent, view));
            }
        }
        None
    }

    // Returns the login of the subject that the code of the dot began.
    fn login_by(&self, subject: &Subject, now: Moment, at: Dot) -> Option<LoginView<'_>>
        ensures { result ≡ spec.login_by (held_facts self.now) now subject.now at }
    {
        if is_issued_to(issued_at(&self.store, at), subject) {
            self.login_at(now, at)
        } else {
            None
        }
    }

    // Returns the first login of the subject above the dot, or above none.
    pub(crate) fn login_after(
        &self,
        subject: &Subject,
        now: Moment,
        after: Option<Dot>,
    ) -> Option<(Dot, LoginView<'_>)>
        ensures { Walks (logins_of (held_facts self.now) now subject.now) after result }
    {
        let prefix = digest_prefix(&subject_digest(subject));
        let (first, last) = (logins_from(prefix, after), last_login(prefix));
        for key in self.index.logins.range((first, Bound::Included(last))) {
            if let Some(view) = self.login_by(subject, now, key.code) {
                return Some((key.code, view));
            }
        }
        None
    }
}
