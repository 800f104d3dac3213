//! A world: `World` has regions and the bundles between them, and runs lists of events.

use crate::bundle::{MadeBundle, pull_page};
use std::alloc::Global;
use std::marker::Model;
use tk_edge::{Edge, Terms};
use tk_region::{Region, Settings};

/// Regions under their numbers, with the bundles that they made. A bundle may reach any region, in
/// any order and any number of times.
#[derive(Drop)]
pub struct World {
    alloc: Global,
    settings: Settings,
    // The edges, ascending by number. Each has these settings, names no issuer, and refuses no
    // bundle. None is sealed.
    regions: Vec<Edge>,
    // The bundles in the order of making. All facts that regions made are one set, for parts of
    // which regions and bundles stand.
    bundles: Vec<MadeBundle>,
}

impl Model for World {
    ghost use Rattle.std.specs.Prelude.{T};
    ghost use Rattle.std.specs.FinMap as map;
    ghost use Rattle.std.specs.Ordering.{nat_cmp};
    ghost use Rattle.tk_world.specs.Regions.{entries_of, HaveSettings};
    ghost use Rattle.tk_world.specs.WorldFields.{WorldFields, coded_world};
    ghost use Rattle.tk_world.specs.WorldStands.{IsStanding};

    ghost Value = { WorldFields };

    ghost coded = { coded_world };

    ghost view = { λ w. record {
      settings = w.settings;
      regions = map.from_sorted (entries_of w.regions.items);
      bundles = w.bundles.items;
    } };

    ghost invariant = { λ w. T (map.is_sorted nat_cmp (entries_of w.regions.items))
        × HaveSettings w.settings w.regions.items
        × IsStanding (record {
          settings = w.settings;
          regions = map.from_sorted (entries_of w.regions.items);
          bundles = w.bundles.items;
        }) };
}

ghost use Rattle.std.specs.Prelude.{◌≡◌, ◌≤◌, ◌<◌, ◌+◌, T, IfOk, IfErr, OnOk, OnErr};
ghost use Rattle.std.specs.Prelude.{MatchResult, length, insert, [], slice_get, vec_len};
ghost use Rattle.std.specs.Prelude.{vec_capacity, ◌++◌, ◌∷◌};
ghost use Rattle.std.specs.FinMap as map;
ghost use Rattle.std.specs.Option.{option_copied, option_map};
ghost use Rattle.std.specs.Ordering.{nat_cmp};
ghost use Rattle.tk_handle.specs.SortedEntries.{IsAt, IsGap};
ghost use Rattle.tk_store.specs.FactSet.{FactSet};
ghost use Rattle.tk_bundle.specs.Bundle.{bundle_bytes};
ghost use Rattle.tk_world.specs.Acts.{ActsBy, DeliversAt, OpensAt, PrunesAt, PrunesSomeAt, PullsAt};
ghost use Rattle.tk_world.specs.Broken.{BreaksOff, Requests, Steps};
ghost use Rattle.tk_world.specs.Carrying.{in_place};
ghost use Rattle.tk_world.specs.Headline.{AnswersFor, RunStands};
ghost use Rattle.tk_world.specs.Parts.{Opens};
ghost use Rattle.tk_world.specs.Promises.{TellsOfSets, IntrospectAlike, RevokedInactive};
ghost use Rattle.tk_world.specs.Promises.{FamiliesInactive};
ghost use Rattle.tk_world.specs.Regions.{entries_of};
ghost use Rattle.tk_world.specs.State.{State, new_state};
ghost use Rattle.tk_world.specs.WorldFields.{new_world, region_at, store_in};
ghost use Rattle.tk_world.specs.WorldStands.{IsStanding, WorldStands};

use crate::carrier::{Carrier, InPlace, RunError};
use crate::event::{Event, Outcome};
use crate::region::{deliver, prune, prune_some};
use std::alloc::AllocError;
use tk_handle::{Dot, Moment, RegionNumber};
use tk_vector::VersionVector;

impl World {
    /// Returns a world without regions and bundles.
    pub fn new(alloc: Global, settings: Settings) -> World
        ensures empty { result ≡ new_world settings }
        ensures stands { WorldStands result map.empty (new_state settings) }
    {
        // The proof reads the cap's range from this call.
        let _cap = settings.cap();
        World {
            alloc,
            settings,
            regions: Vec::new(alloc),
            bundles: Vec::new(alloc),
        }
    }

    /// States what holds of any world. The call does nothing at run time.
    pub fn known(&self)
        // All facts that regions made are one set. Each region stands for the facts that it made
        // and took in, and each bundle for its facts.
        ensures stands { IsStanding self.now }

        // From its horizon on, a region answers as one that holds all the facts for which it stands
        // and never pruned.
        ensures answers { (made : FactSet) (state : State) → WorldStands self.now made state
            → AnswersFor self.now state }

        // A token that its client revoked is inactive in every region that holds the facts. Each
        // token of a family with a bad grant is inactive there, too.
        ensures revoked { RevokedInactive (store_in self.now) }
        ensures families { FamiliesInactive (store_in self.now) }
    {
        // A read of a field gives the proof the world's invariant.
        let _regions = &self.regions;
    }

    /// Returns the region that is open under this number, if any.
    pub fn region(&self, number: RegionNumber) -> Option<&Region>
        ensures { option_copied result
            ≡ option_map (region_at self.now number) (map.get self.now.regions number) }
    {
        match find_region(&self.regions, number) {
            Ok(at) => Some(self.regions[at].region()),
            Err(_) => None,
        }
    }

    /// Runs the events in order, and returns one outcome for each.
    ///
    /// # Errors
    ///
    /// `AllocError` if there is no memory for the outcomes. No event has run then.
    pub fn run(&mut self, events: &[Event]) -> Result<Vec<Outcome>, AllocError>
        // The run has one outcome for each event.
        ensures count { IfOk result (λ outcomes. length outcomes.items ≡ length events.now) }

        // The events, one after another, make the new world of the old one, with these outcomes.
        ensures acts { IfOk result
            (λ outcomes. ActsBy in_place self.old events.now outcomes.items self.new) }

        // Each region stands for the facts that it made and took in, and from its horizon on
        // answers as the definition over them: for each state for which the old world stands, the
        // events and outcomes are a run from that state, in which a prune takes no fact away, and
        // the new world stands for where the run ends. The facts of each region are its old ones
        // joined with what it has seen.
        // From its region's horizon on, the reply to an introspection request depends only on the
        // facts that its region made and took in, the moment, the request and the settings, which
        // all regions share. Regions with equal facts give equal replies.
        ensures run { IfOk result (λ outcomes. (made : FactSet) (state : State)
            → WorldStands self.old made state
            → (ran : RunStands in_place state events.now outcomes.items self.new)
            × TellsOfSets state events.now outcomes.items ran.shown ran.after ran.run
            × IntrospectAlike state events.now outcomes.items ran.shown ran.after ran.run) }

        // Once a region holds the facts, a token that its client revoked is never active there
        // again, and introspection reports it as inactive to everyone. This holds for each token of
        // a family with a bad grant, too.
        ensures revoked { RevokedInactive (store_in self.new) }
        ensures families { FamiliesInactive (store_in self.new) }

        ensures err { OnErr result (self.new ≡ self.old) }
    {
        match self.run_by(&InPlace { alloc: self.alloc }, events) {
            Ok(outcomes) => Ok(outcomes),
            Err(RunError::Memory) => Err(AllocError),
            Err(RunError::Lost(nothing)) => match nothing {},
        }
    }

    /// Runs the events in order with each request by this carrier, and returns one outcome for each
    /// event.
    ///
    /// # Errors
    ///
    /// `Memory` if there is no memory for the outcomes: no event has run then. `Lost` if the
    /// carrier lost a request: the events before it have run.
    pub fn run_by<C: Carrier>(
        &mut self,
        carrier: &C,
        events: &[Event],
    ) -> Result<Vec<Outcome>, RunError<C::Fault>>
        // The run has one outcome for each event.
        ensures count { IfOk result (λ outcomes. length outcomes.items ≡ length events.now) }

        // The events, one after another, make the new world of the old one, with these outcomes.
        ensures acts { IfOk result
            (λ outcomes. ActsBy C.way self.old events.now outcomes.items self.new) }

        // For each state for which the old world stands, the events and outcomes are a run from
        // that state by this carrier, in which a prune takes no fact away, and the new world stands
        // for where the run ends.
        ensures run { IfOk result (λ outcomes. (made : FactSet) (state : State)
            → WorldStands self.old made state
            → RunStands C.way state events.now outcomes.items self.new) }

        ensures err { IfErr result (BreaksOff C.way self.old events.now self.new) }
    {
        let Ok(mut outcomes) = Vec::with_capacity(self.alloc, events.len()) else {
            return Err(RunError::Memory);
        };
        for event in events {
            match self.step(carrier, event) {
                Ok(outcome) => push_within(&mut outcomes, outcome),
                Err(fault) => return Err(RunError::Lost(fault)),
            }
        }
        Ok(outcomes)
    }

    /// Returns the bytes of a bundle. Bundles are numbered from 0 in the order of making.
    pub fn bundle(&self, index: u64) -> Option<&[u8]>
        ensures { option_copied result
            ≡ option_map bundle_bytes (slice_get self.now.bundles index) }
    {
        match bundle_at(&self.bundles, index) {
            Some(bundle) => Some(bundle.bytes()),
            None => None,
        }
    }

    // Runs one event.
    fn step<C: Carrier>(&mut self, carrier: &C, event: &Event) -> Result<Outcome, C::Fault>
        ensures { Steps C.way self.old event.now result self.new }
    {
        match event {
            Event::Open(number) => Ok(self.open(*number)),
            Event::Request {
                region,
                now,
                words,
                bytes,
            } => self.request(carrier, *region, *now, words, bytes),
            Event::Pull {
                region,
                vector,
                after,
            } => Ok(self.pull(*region, vector, *after)),
            Event::Deliver { bundle, region } => Ok(self.deliver(*bundle, *region)),
            Event::Prune { region, horizon } => Ok(self.prune(*region, *horizon)),
            Event::PruneSome {
                region,
                horizon,
                after,
                count,
            } => Ok(self.prune_some(*region, *horizon, *after, *count)),
        }
    }

    // Opens a region.
    fn open(&mut self, number: RegionNumber) -> Outcome
        ensures { OpensAt self.old number result self.new }
    {
        match find_region(&self.regions, number) {
            Ok(_) => Outcome::NumberTaken,
            Err(at) => {
                let region = Region::new(self.alloc, number, self.settings);
                let edge = Edge::new(region, Terms::accept_all(self.alloc));
                open_region(&mut self.regions, at, edge)
            }
        }
    }

    // Hands the bytes of a request to a region.
    fn request<C: Carrier>(
        &mut self,
        carrier: &C,
        region: RegionNumber,
        now: Moment,
        words: &[u64; 6],
        bytes: &[u8],
    ) -> Result<Outcome, C::Fault>
        ensures { Requests C.way self.old region
            (record { now = now; words = words.now; bytes = bytes.now }) result self.new }
    {
        match find_region(&self.regions, region) {
            Ok(at) => carrier.carry(&mut self.regions[at], now, words, bytes),
            Err(_) => Ok(Outcome::NoRegion),
        }
    }

    // Makes a bundle of a region's page.
    fn pull(&mut self, region: RegionNumber, vector: &VersionVector, after: Option<Dot>) -> Outcome
        ensures { PullsAt self.old region vector.now after result self.new }
    {
        match find_region(&self.regions, region) {
            Ok(at) => pull_page(
                self.alloc,
                self.regions[at].region(),
                &mut self.bundles,
                vector,
                after,
            ),
            Err(_) => Outcome::NoRegion,
        }
    }

    // Hands a bundle to a region.
    fn deliver(&mut self, bundle: u64, region: RegionNumber) -> Outcome
        ensures { DeliversAt self.old bundle region result self.new }
    {
        match find_region(&self.regions, region) {
            Ok(at) => match bundle_at(&self.bundles, bundle) {
                Some(bundle) => deliver(self.alloc, &mut self.regions[at], bundle),
                None => Outcome::NoBundle,
            },
            Err(_) => Outcome::NoRegion,
        }
    }

    // Has a region skip what is over.
    fn prune(&mut self, region: RegionNumber, horizon: Moment) -> Outcome
        ensures { PrunesAt self.old region horizon result self.new }
    {
        match find_region(&self.regions, region) {
            Ok(at) => prune(self.alloc, &mut self.regions[at], horizon),
            Err(_) => Outcome::NoRegion,
        }
    }

    // Has a region skip some of what is over.
    fn prune_some(
        &mut self,
        region: RegionNumber,
        horizon: Moment,
        after: Option<Dot>,
        count: u64,
    ) -> Outcome
        ensures { PrunesSomeAt self.old region horizon after count result self.new }
    {
        match find_region(&self.regions, region) {
            Ok(at) => prune_some(&mut self.regions[at], horizon, after, count),
            Err(_) => Outcome::NoRegion,
        }
    }
}

// Pushes an outcome if there is room.
fn push_within(outcomes: &mut Vec<Outcome>, outcome: Outcome)
    requires { vec_len outcomes.old < vec_capacity outcomes.old }
    ensures items { outcomes.new.items ≡ outcomes.old.items ++ outcome ∷ [] }
    ensures len { vec_len outcomes.new ≡ vec_len outcomes.old + 1 }
    ensures room { vec_capacity outcomes.old ≤ vec_capacity outcomes.new }
{
    match outcomes.push(outcome) {
        Ok(()) => {}
        Err(_) => unreachable!("there is room for one more outcome"),
    }
}

fn bundle_at(bundles: &[MadeBundle], index: u64) -> Option<&MadeBundle>
    ensures { option_copied result ≡ slice_get bundles.now index }
{
    bundles.get(index as usize)
}

// Finds the index of the region with this number, or the index at which to insert it.
fn find_region(regions: &[Edge], number: RegionNumber) -> Result<usize, usize>
    requires { T (map.is_sorted nat_cmp (entries_of regions.now)) }
    ensures { MatchResult result (IsAt nat_cmp (entries_of regions.now) number)
        (IsGap nat_cmp (entries_of regions.now) number) }
{
    regions.binary_search_by_key(&number, |edge| edge.region().number())
}

fn open_region(regions: &mut Vec<Edge>, at: usize, edge: Edge) -> Outcome
    requires { at ≤ length regions.old.items }
    ensures { Opens regions.old.items at edge result regions.new.items }
{
    match insert_region(regions, at, edge) {
        Ok(()) => Outcome::Opened,
        Err(_) => Outcome::Memory,
    }
}

fn insert_region(regions: &mut Vec<Edge>, at: usize, edge: Edge) -> Result<(), AllocError>
    requires { at ≤ length regions.old.items }
    ensures ok { OnOk result (regions.new.items ≡ insert regions.old.items at edge) }
    ensures err { OnErr result (regions.new.items ≡ regions.old.items) }
{
    regions.insert(at, edge)?;
    Ok(())
}
