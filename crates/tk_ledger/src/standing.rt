//! The status of a handle, by at most eight look-ups.

ghost use Rattle.std.specs.Prelude.{◌≡◌, ◌+◌, ◌^◌, ◌<◌, ◌≤◌, Some};
ghost use Rattle.std.specs.FinMap as map;
ghost use Rattle.std.specs.Option.{option_copied, option_map};
ghost use Rattle.tk_handle.specs.Kind as kinds;
ghost use Rattle.tk_fact.specs.Tokens.{minted_of, shown_minted};
ghost use Rattle.tk_store.specs.SlotShown.{IsShown};
ghost use Rattle.tk_store.specs.StoreFields.{held_facts};
ghost use Rattle.tk_ledger.specs.ByTop as by;
ghost use Rattle.tk_ledger.specs.Clients as clients_of;
ghost use Rattle.tk_ledger.specs.Status as spec;
ghost use Rattle.tk_ledger.specs.Tokens as tokens_of;

use crate::compare::{same_digests, same_dots};
use crate::consents::{given_in, gives};
use crate::ledger::Ledger;
use crate::looks::issued_in;
use crate::revocations;
use crate::root::Root;
use crate::status::{Standing, State, Status};
use tk_fact::{Body, CodeIssued, ConsentGiven, Fact, Minted};
use tk_family::{Steps, Top};
use tk_handle::{Dot, Handle, Kind, Moment, TokenId};
use tk_store::SlotRef;

// Returns what the fact mints of the handle's kind, if that has the handle's digest.
fn minted_as<'a>(fact: &'a Fact, handle: &Handle) -> Option<Minted<'a>>
    ensures { option_map shown_minted result ≡ spec.with_digest (spec.digest_of handle.now)
        (minted_of fact.now.1 handle.now.id.kind) }
{
    match fact.minted(handle.id.kind) {
        Some(minted) => {
            if same_digests(minted.digest, &handle.digest()) {
                Some(minted)
            } else {
                None
            }
        }
        None => None,
    }
}

// Returns the generation of the fact's tokens: the number of rotations from the code to them.
fn generation(body: &Body) -> u16
    ensures { result ≡ spec.generation_of body.now }
{
    match body {
        Body::RefreshRotated(fact) => fact.generation,
        _ => 0,
    }
}

// Returns whether the kind is that of access tokens.
fn is_access(kind: Kind) -> bool
    ensures { result ≡ kinds.is_access kind }
{
    matches!(kind, Kind::Access)
}

// ---- single look-ups, each counted

impl Ledger {
    // Looks a fact up, and counts one look-up.
    fn look(&self, dot: Dot, steps: &mut Steps) -> Option<&Fact>
        ensures value { option_copied result ≡ option_map (λ body.
            (dot, body)) (map.get (held_facts self.now) dot) }
        ensures first { steps.old + 1 < 2 ^ 64 → steps.new ≡ steps.old + 1 }
        ensures more { steps.old ≤ steps.new }
        ensures at_most { steps.new ≤ steps.old + 1 }
    {
        steps.tick();
        self.store.get(dot)
    }

    // Looks up what is known of a dot, and counts one look-up.
    fn look_at(&self, dot: Dot, steps: &mut Steps) -> Option<SlotRef<'_>>
        ensures value { IsShown dot result (map.get self.now.slots dot) }
        ensures first { steps.old + 1 < 2 ^ 64 → steps.new ≡ steps.old + 1 }
        ensures more { steps.old ≤ steps.new }
        ensures at_most { steps.new ≤ steps.old + 1 }
    {
        steps.tick();
        self.store.slot(dot)
    }

    // Looks up the top of a dot in the forest, and counts one look-up.
    pub(crate) fn top(&self, dot: Dot, steps: &mut Steps) -> Top
        ensures value { by.TopSays (held_facts self.now) dot result }
        ensures more { steps.old ≤ steps.new }
        ensures at_most { steps.new ≤ steps.old + 2 }
    {
        self.index.forest.top(dot, steps)
    }

    // Returns whether the client is live, and counts one look-up.
    fn is_live_client(&self, client: Dot, steps: &mut Steps) -> bool
        ensures value { result ≡ clients_of.is_live_client (held_facts self.now) client }
        ensures more { steps.old ≤ steps.new }
        ensures at_most { steps.new ≤ steps.old + 1 }
    {
        steps.tick();
        self.has_live_client(client)
    }

    // Returns whether the consent was withdrawn, and counts one look-up.
    fn is_withdrawn(&self, consent: Dot, steps: &mut Steps) -> bool
        ensures value { result ≡ clients_of.is_withdrawn (held_facts self.now) consent }
        ensures more { steps.old ≤ steps.new }
        ensures at_most { steps.new ≤ steps.old + 1 }
    {
        steps.tick();
        self.has_withdrawn(consent)
    }

    // Returns whether a fact uses the token, and counts one look-up.
    fn is_used(&self, token: TokenId, steps: &mut Steps) -> bool
        ensures value { result ≡ tokens_of.is_used (held_facts self.now) token }
        ensures more { steps.old ≤ steps.new }
        ensures at_most { steps.new ≤ steps.old + 1 }
    {
        self.index.forest.used(token, steps)
    }

    // Returns whether the client revoked the token, and counts one look-up.
    fn is_revoked(&self, token: &TokenId, digest: &[u8; 32], client: Dot, steps: &mut Steps) -> bool
        ensures value { result ≡ tokens_of.is_revoked (held_facts self.now) token.now digest.now
            client }
        ensures more { steps.old ≤ steps.new }
        ensures at_most { steps.new ≤ steps.old + 1 }
    {
        steps.tick();
        revocations::is_revoked(&self.index.revocations, token, digest, client)
    }
}

// ---- several look-ups together

impl Ledger {
    // Returns the fact that issued the code at the dot. A given fact that is held is not looked up
    // again.
    fn issued_at<'a>(
        &'a self,
        code: Dot,
        fact: &'a Fact,
        steps: &mut Steps,
    ) -> Option<&'a CodeIssued>
        requires { map.get (held_facts self.now) fact.now.0 ≡ Some fact.now.1 }
        ensures value { option_copied result ≡ tokens_of.issued_at (map.get (held_facts self.now))
            code }
        ensures more { steps.old ≤ steps.new }
        ensures at_most { steps.new ≤ steps.old + 1 }
    {
        if same_dots(fact.dot, code) {
            return issued_in(&fact.body);
        }
        match self.look(code, steps) {
            Some(other) => issued_in(&other.body),
            None => None,
        }
    }

    // Returns the root with the code at the dot, if a code was issued there.
    fn root_of<'a>(&'a self, code: Dot, fact: &'a Fact, steps: &mut Steps) -> Option<Root<'a>>
        requires { map.get (held_facts self.now) fact.now.0 ≡ Some fact.now.1 }
        ensures value { result ≡ tokens_of.root_of (map.get (held_facts self.now)) code }
        ensures more { steps.old ≤ steps.new }
        ensures at_most { steps.new ≤ steps.old + 1 }
    {
        match self.issued_at(code, fact, steps) {
            Some(issued) => Some(Root { code, issued }),
            None => None,
        }
    }

    // Returns the consent that was given at the dot.
    fn consent_at(&self, at: Dot, steps: &mut Steps) -> Option<&ConsentGiven>
        ensures value { option_copied result ≡ clients_of.consent_at (held_facts self.now) at }
        ensures more { steps.old ≤ steps.new }
        ensures at_most { steps.new ≤ steps.old + 1 }
    {
        match self.look(at, steps) {
            Some(fact) => given_in(&fact.body),
            None => None,
        }
    }

    // Returns whether the consent of a code is live.
    fn is_live_consent(&self, code: &CodeIssued, steps: &mut Steps) -> bool
        ensures value { result ≡ clients_of.is_live_consent (held_facts self.now) code.now }
        ensures more { steps.old ≤ steps.new }
        ensures at_most { steps.new ≤ steps.old + 2 }
    {
        gives(
            self.consent_at(code.consent, steps),
            code.client,
            &code.subject,
        ) && !self.is_withdrawn(code.consent, steps)
    }

    // Returns the first state that holds of a token, by at most four look-ups.
    pub(crate) fn state(
        &self,
        now: Moment,
        token: &TokenId,
        minted: &Minted<'_>,
        dead: bool,
        issued: &CodeIssued,
        steps: &mut Steps,
    ) -> State
        ensures value { result ≡ by.state_by dead (held_facts self.now) now token.now
            (shown_minted minted.now) issued.now }
        ensures more { steps.old ≤ steps.new }
        ensures at_most { steps.new ≤ steps.old + 4 }
    {
        if dead {
            State::Dead
        } else if !(self.is_live_client(issued.client, steps)
            && self.is_live_consent(issued, steps))
        {
            State::Withdrawn
        } else if issued.family_end.seconds() <= now.seconds() {
            State::Over
        } else if !is_access(token.kind) && self.is_used(*token, steps) {
            State::Used
        } else if minted.expiry.seconds() <= now.seconds() {
            State::Past
        } else if is_access(token.kind)
            && self.is_revoked(token, minted.digest, issued.client, steps)
        {
            State::Ended
        } else {
            State::Live
        }
    }

    // Returns the status of a token under the code. `dead` is whether the code's family is dead.
    fn under<'a>(
        &'a self,
        now: Moment,
        token: &TokenId,
        fact: &'a Fact,
        minted: &Minted<'a>,
        dead: bool,
        code: Dot,
        steps: &mut Steps,
    ) -> Status<'a>
        requires { map.get (held_facts self.now) fact.now.0 ≡ Some fact.now.1 }
        ensures value { result ≡ by.by_root dead (held_facts self.now) now token.now fact.now.1
            (shown_minted minted.now) (tokens_of.root_of (map.get (held_facts self.now)) code) }
        ensures more { steps.old ≤ steps.new }
        ensures at_most { steps.new ≤ steps.old + 5 }
    {
        match self.root_of(code, fact, steps) {
            Some(root) => Status::Known(Standing {
                client: root.issued.client,
                subject: &root.issued.subject,
                code: root.code,
                issued: root.issued,
                scope: minted.scope,
                start: minted.start,
                expiry: minted.expiry,
                family_end: root.issued.family_end,
                generation: generation(&fact.body),
                state: self.state(now, token, minted, dead, root.issued, steps),
            }),
            None => Status::Broken(minted.expiry),
        }
    }

    // Returns the status of a token that the fact minted, by the top of its anchor.
    fn of_top<'a>(
        &'a self,
        now: Moment,
        token: &TokenId,
        fact: &'a Fact,
        minted: &Minted<'a>,
        top: Top,
        steps: &mut Steps,
    ) -> Status<'a>
        requires { map.get (held_facts self.now) fact.now.0 ≡ Some fact.now.1 }
        ensures value { result ≡ by.by_top (held_facts self.now) now token.now fact.now.1
            (shown_minted minted.now) top }
        ensures more { steps.old ≤ steps.new }
        ensures at_most { steps.new ≤ steps.old + 5 }
    {
        match top {
            Top::Absent => Status::Broken(minted.expiry),
            Top::Broken => Status::Broken(minted.expiry),
            Top::Code(code) => self.under(now, token, fact, minted, false, code, steps),
            Top::Dead(code) => self.under(now, token, fact, minted, true, code, steps),
        }
    }

    // Returns the status of a handle, by the fact that is held at its dot.
    fn of_fact<'a>(
        &'a self,
        now: Moment,
        handle: &Handle,
        fact: &'a Fact,
        steps: &mut Steps,
    ) -> Status<'a>
        requires dot { fact.now.0 ≡ handle.now.id.dot }
        requires held { map.get (held_facts self.now) fact.now.0 ≡ Some fact.now.1 }
        ensures value { result ≡ spec.status_in (held_facts self.now) now handle.now }
        ensures more { steps.old ≤ steps.new }
        ensures at_most { steps.new ≤ steps.old + 7 }
    {
        let Some(minted) = minted_as(fact, handle) else {
            return Status::Wrong;
        };
        let top = self.top(fact.anchor(), steps);
        self.of_top(now, &handle.id, fact, &minted, top, steps)
    }

    // Returns the status of a handle.
    pub(crate) fn of_handle(&self, now: Moment, handle: &Handle, steps: &mut Steps) -> Status<'_>
        ensures value { result ≡ spec.status_here self.now now handle.now }
        ensures at_least { steps.old + 8 < 2 ^ 64 → steps.old + 1 ≤ steps.new }
        ensures at_most { steps.new ≤ steps.old + 8 }
    {
        match self.look_at(handle.id.dot, steps) {
            Some(SlotRef::Held(fact)) => self.of_fact(now, handle, fact, steps),
            Some(SlotRef::Skipped) => Status::Wrong,
            None => Status::Unseen,
        }
    }
}
