//! A region: its number, its settings and its ledger.

use crate::settings::Settings;
use std::marker::Model;
use tk_handle::RegionNumber;
use tk_ledger::{Ledger, Slice};

/// A region. Contracts see its number, its settings and its store: the facts, the marks of skipped
/// facts, and the horizon.
#[derive(Drop)]
pub struct Region {
    number: RegionNumber,
    settings: Settings,
    // The facts and marks. Those under the region's own number have serials up to the cap.
    ledger: Ledger,
}

impl Model for Region {
    ghost use Rattle.tk_region.specs.RegionFields.{RegionFields, IsCapped, coded_region};

    ghost Value = { RegionFields };

    ghost coded = { coded_region };

    ghost view = { λ r. record { number = r.number; settings = r.settings; facts = r.ledger } };

    ghost invariant = { λ r. IsCapped (record {
      number = r.number;
      settings = r.settings;
      facts = r.ledger;
    }) };
}

ghost use Rattle.std.specs.Prelude.{◌≡◌, ◌≤◌, IfOk, IfSome, None, OnErr, OnOk, Some};
ghost use Rattle.std.specs.FinMap as map;
ghost use Rattle.std.specs.Option.{option_map};
ghost use Rattle.tk_format.specs.Format.{whole};
ghost use Rattle.tk_handle.specs.Ranges.{max_serial};
ghost use Rattle.tk_fact.specs.Check.{refusal_of};
ghost use Rattle.tk_store.specs.Front.{IsFront};
ghost use Rattle.tk_store.specs.NextDot.{next_serial, next_dot};
ghost use Rattle.tk_store.specs.StoreFields.{empty_store, held_facts, with_fact};
ghost use Rattle.tk_ledger.specs.Retention.{Prunes};
ghost use Rattle.tk_ledger.specs.Slices.{PrunesSome};
ghost use Rattle.tk_bundle.specs.Bundle.{bundle};
ghost use Rattle.tk_bundle.specs.News.{news_of, record_of};
ghost use Rattle.tk_bundle.specs.Page as pages;
ghost use Rattle.tk_bundle.specs.RunPage.{run_page_of};
ghost use Rattle.tk_message.specs.Place.{next_in};
ghost use Rattle.tk_region.specs.RegionFields.{place_in};
ghost use Rattle.tk_region.specs.Repeating.{minted_refresh, repeat_in};
ghost use Rattle.tk_region.specs.Step.{prepared_of, IsNextFact, Commits};
ghost use Rattle.tk_region.specs.Taking.{TakesIn};

use crate::decision::decide_endpoint;
use crate::step::{Handled, Prepared, prepare, refuse_early};
use crate::take::{TakeError, take_bundle};
use std::alloc::{AllocError, Global};
use tk_bundle::{Bundle, Page, make, make_with_runs, news};
use tk_fact::Fact;
use tk_grant::repeat_of;
use tk_handle::{Dot, Kind, Moment};
use tk_message::{Choices, Place, Reply, Request};
use tk_store::{AddError, Added};
use tk_vector::VersionVector;

impl Region {
    /// Returns a region without facts, with the horizon 0.
    pub fn new(alloc: Global, number: RegionNumber, settings: Settings) -> Region
        ensures { result ≡ record { number = number; settings = settings; facts = empty_store } }
    {
        // This call gives the proof that the cap is in its range.
        let _cap = settings.cap();
        Region {
            number,
            settings,
            ledger: Ledger::new(alloc),
        }
    }

    /// Returns the region's number, under which its own facts are stored.
    pub fn number(&self) -> RegionNumber
        ensures { result ≡ self.now.number }
    {
        self.number
    }

    /// Returns the region's ledger: its facts, and the clients, consents and tokens that they
    /// define.
    pub fn ledger(&self) -> &Ledger
        ensures { result.now ≡ self.now.facts }
    {
        &self.ledger
    }

    /// Returns the number of facts that the region holds. Skipped facts do not count.
    pub fn len(&self) -> u64
        ensures { result ≡ map.len (held_facts self.now.facts) }
    {
        self.ledger.store().len()
    }

    /// Returns the region's vector: to each region, the serial up to which each dot is known here,
    /// by a fact that is held or by a mark.
    ///
    /// Another region that gets this vector makes pages of what is missing. The method fails if
    /// memory runs out.
    pub fn vector(&self, alloc: Global) -> Result<VersionVector, AllocError>
        ensures { IfOk result (IsFront self.now.facts.slots) }
    {
        self.ledger.store().vector().copy(alloc)
    }

    /// Makes a page for another region: the first 128 facts and marks above the cursor `after` that
    /// the vector does not cover, as a bundle. A bundle with a mark has the horizon too. Returns an
    /// error, and no part of a page, if memory runs out.
    pub fn page(
        &self,
        alloc: Global,
        vector: &VersionVector,
        after: Option<Dot>,
    ) -> Result<Page, AllocError>
        ensures page { IfOk result (λ page.
            pages.IsPageOf page (pages.page_of self.now.facts vector.now after)) }

        // A page can be read.
        ensures fits { OnOk result
            (bundle.Fits (pages.page_of self.now.facts vector.now after).bundle) }
    {
        make(alloc, self.ledger.store(), vector, after)
    }

    /// Makes a page with runs for another region, which must read runs. Marks that follow one
    /// another are one piece of the page.
    ///
    /// The page has the first facts and marks above the cursor `after` that the vector does not
    /// cover: at most 128 pieces, and at most 1,024 items. A bundle with a mark has the horizon
    /// too. Returns an error, and no part of a page, if memory runs out.
    pub fn page_with_runs(
        &self,
        alloc: Global,
        vector: &VersionVector,
        after: Option<Dot>,
    ) -> Result<Page, AllocError>
        ensures page { IfOk result (λ page.
            pages.IsPageOf page (run_page_of self.now.facts vector.now after)) }

        // A page can be read.
        ensures fits { OnOk result
            (bundle.Fits (run_page_of self.now.facts vector.now after).bundle) }
    {
        make_with_runs(alloc, self.ledger.store(), vector, after)
    }

    /// Returns the dot of the region's next fact.
    pub fn next_dot(&self) -> Dot
        ensures { result ≡ next_in (place_in self.now) }
    {
        next_in_ledger(&self.ledger, self.number)
    }

    // Returns the place at which the region decides its next request.
    pub(crate) fn place(&self) -> Place
        ensures { result ≡ place_in self.now }
    {
        Place::new(
            self.next_dot(),
            self.settings.lives(),
            self.settings.choices(),
        )
    }

    /// Returns the horizon: the moment up to which facts of families that are over may have been
    /// skipped. Before the horizon each request gets the reply 503 `temporarily_unavailable`.
    pub fn horizon(&self) -> Moment
        ensures { result ≡ self.now.facts.horizon }
    {
        self.ledger.horizon()
    }

    /// Returns what the region does if the profile leaves a choice.
    pub fn choices(&self) -> Choices
        ensures { result ≡ self.now.settings.choices }
    {
        self.settings.choices()
    }

    /// Decides a request at a moment. Returns the reply, the fact that the request makes, and the
    /// record of that fact.
    ///
    /// The region does not change. The reply is 503 `temporarily_unavailable`, and no fact is made,
    /// at a moment before the horizon, whatever the request, and if a fact would be above the cap.
    /// Handles are made of the six random words. Returns an error if memory runs out.
    pub fn decide(
        &self,
        alloc: Global,
        now: Moment,
        words: &[u64; 6],
        request: &Request,
    ) -> Result<Prepared, AllocError>
        ensures value { IfOk result (λ p. p ≡ prepared_of self.now now words.now request.now) }

        // The prepared fact may be committed.
        ensures next { IfOk result (λ p. IfSome p.fact (IsNextFact self.now)) }
    {
        let place = self.place();
        if now.seconds() < self.horizon().seconds() {
            return refuse_early(alloc, &place);
        }
        let decision = decide_endpoint(alloc, &self.ledger, &place, now, words, request)?;
        prepare(alloc, self.settings.cap(), &place, decision)
    }

    /// Returns the reply to a refresh again: with the two tokens that the fact at this dot minted
    /// of these random words, if both are live at the moment (own). See [`repeat_of`].
    ///
    /// The region does not change. Before the horizon there is no such reply. Returns an error if
    /// memory runs out.
    pub fn repeat(
        &self,
        alloc: Global,
        now: Moment,
        dot: Dot,
        words: &[u64; 6],
    ) -> Result<Option<Reply>, AllocError>
        ensures { IfOk result (λ reply. reply ≡ repeat_in self.now now dot words.now) }
    {
        if self.horizon().seconds() > now.seconds() {
            return Ok(None);
        }
        repeat_of(alloc, &self.ledger, now, dot, words)
    }

    /// Returns whether the fact at the dot is held and minted a refresh token (RFC 6749, 6). The
    /// refresh of a client that keeps its refresh token has no such fact.
    pub fn minted_refresh(&self, dot: Dot) -> bool
        ensures { result ≡ minted_refresh self.now dot }
    {
        match self.ledger.store().get(dot) {
            Some(fact) => fact.minted(Kind::Refresh).is_some(),
            None => false,
        }
    }

    /// Adds the prepared fact, and returns the reply only then. If memory runs out, the region is
    /// unchanged.
    ///
    /// The fact must be the region's next: that of what [`Region::decide`] returned, if nothing was
    /// done to the region since.
    pub fn commit(&mut self, prepared: Prepared) -> Result<Handled, AllocError>
        requires { IfSome prepared.fact (IsNextFact self.old) }
        ensures { Commits self.old prepared result self.new }
    {
        let Prepared {
            reply,
            fact,
            logged,
        } = prepared;
        let handled = Handled { reply, logged };
        match fact {
            Some(fact) => {
                add_free(&mut self.ledger, fact)?;
                Ok(handled)
            }
            None => Ok(handled),
        }
    }

    /// Decides a request, and commits what is prepared. If memory runs out, the region is
    /// unchanged.
    pub fn handle(
        &mut self,
        alloc: Global,
        now: Moment,
        words: &[u64; 6],
        request: &Request,
    ) -> Result<Handled, AllocError>
        ensures commits { Commits self.old (prepared_of self.old now words.now request.now) result
            self.new }

        // The fact that is added, if there is one, is the region's next.
        ensures next { OnOk result (IfSome (prepared_of self.old now words.now request.now).fact
            (IsNextFact self.old)) }
    {
        let prepared = self.decide(alloc, now, words, request)?;
        self.commit(prepared)
    }

    /// Takes in the bundle that the bytes spell. Returns the number of its dots that were unknown:
    /// neither held nor skipped.
    ///
    /// The whole bundle is examined before anything changes: for `Malformed`, then for
    /// `OwnNumber`, then for `Conflict`. Then the horizon is raised to that of the bundle, if the
    /// bundle has one. The facts are added, unless their dots are skipped, and the dots of the
    /// marks are skipped. If memory runs out, the first of the items may have been taken in.
    pub fn take_in(&mut self, alloc: Global, bytes: &[u8]) -> Result<u16, TakeError>
        ensures number { self.new.number ≡ self.old.number }
        ensures settings { self.new.settings ≡ self.old.settings }
        ensures takes { TakesIn self.old.facts (next_in (place_in self.old))
            (whole bundle bytes.now) result self.new.facts }
    {
        match Bundle::read(alloc, bytes) {
            Ok(sent) => self.take_bundle(sent),
            Err(error) => Err(TakeError::unread(error)),
        }
    }

    /// Takes in a bundle that was read, as [`Region::take_in`] takes in its bytes. Each bundle that
    /// `Bundle::read` or `read_front` returned has the spelling that is required.
    ///
    /// Returns the number of its dots that were unknown. The facts move into the region. Returns
    /// `OwnNumber` or `Conflict` if the bundle is refused; the region is unchanged then. Returns
    /// `Memory` if memory runs out; the horizon may then have been raised, and the first of the
    /// items may have been taken in.
    pub fn take_bundle(&mut self, sent: Bundle) -> Result<u16, TakeError>
        requires { bundle.Fits sent }
        ensures number { self.new.number ≡ self.old.number }
        ensures settings { self.new.settings ≡ self.old.settings }
        ensures takes { TakesIn self.old.facts (next_in (place_in self.old)) (Some sent) result
            self.new.facts }
    {
        let next = self.next_dot();
        take_bundle(next, &mut self.ledger, sent)
    }

    /// Returns the record of a bundle in a log of the region, before the region takes the bundle
    /// in: the bundle without the facts at skipped dots, which the region drops.
    ///
    /// Returns `None` if the bundle changes nothing: it raises no horizon, has no unknown dot, and
    /// no mark of a fact that is held. Returns an error, and no part of a record, if memory runs
    /// out. Each bundle that was read has the spelling that is required.
    pub fn news(&self, alloc: Global, sent: &Bundle) -> Result<Option<Vec<u8>>, AllocError>
        requires { bundle.Fits sent.now }
        ensures news { IfOk result (λ news. option_map (λ bytes. bytes.items) news
            ≡ record_of self.now.facts sent.now) }

        // A record can be read.
        ensures fits { bundle.Fits (news_of self.now.facts.slots sent.now) }
    {
        news(alloc, self.ledger.store(), sent)
    }

    /// Raises the horizon to the moment, and skips all facts that are kept for a token of a family
    /// that is over then. Returns the number of facts that went.
    ///
    /// Costs O(n log n) for n facts. If memory runs out, the region is unchanged.
    pub fn prune(&mut self, alloc: Global, moment: Moment) -> Result<u64, AllocError>
        ensures number { self.new.number ≡ self.old.number }
        ensures settings { self.new.settings ≡ self.old.settings }
        ensures prunes { IfOk result (λ n. Prunes self.old.facts moment n self.new.facts) }
        ensures err { OnErr result (self.new ≡ self.old) }
    {
        self.ledger.prune(alloc, moment)
    }

    /// Raises the horizon to the moment, looks at `count` facts above the cursor `after`, or from
    /// the least dot on if it is `None`, and skips each that may go by then.
    ///
    /// With n known dots, costs O(log n) for each fact that is looked at, and for each dot under a
    /// code that goes. Takes no memory, and can't fail. [`Ledger::prune_some`] says which facts may
    /// go, and what a pass over all facts is.
    pub fn prune_some(&mut self, moment: Moment, after: Option<Dot>, count: u64) -> Slice
        ensures number { self.new.number ≡ self.old.number }
        ensures settings { self.new.settings ≡ self.old.settings }
        ensures prunes { PrunesSome self.old.facts moment after count result self.new.facts }
    {
        self.ledger.prune_some(moment, after, count)
    }
}

// Returns the dot of the region's next fact. The known dots must leave a serial.
fn next_in_ledger(ledger: &Ledger, number: RegionNumber) -> Dot
    requires { next_serial ledger.now.slots number ≤ max_serial }
    ensures { result ≡ next_dot ledger.now.slots number }
{
    ledger.store().next_dot(number).unwrap()
}

// Adds a fact at an unknown dot.
fn add_free(ledger: &mut Ledger, fact: Fact) -> Result<(), AllocError>
    requires free { map.get ledger.old.slots fact.0 ≡ None }
    requires passes { refusal_of fact.1 ≡ None }
    ensures ok { OnOk result (ledger.new ≡ with_fact ledger.old fact.0 fact.1) }
    ensures err { OnErr result (ledger.new ≡ ledger.old) }
{
    match ledger.add(fact) {
        Ok(Added::New) => Ok(()),
        Ok(Added::Held) => unreachable!("the dot is unknown"),
        Err(AddError::Memory) => Err(AllocError),
        Err(AddError::Conflict) => unreachable!("the dot is unknown"),
    }
}
