//! One region in a world: `deliver` hands it a bundle, `prune` has it skip what is over, and
//! `prune_some` some of that.

ghost use Rattle.std.specs.Prelude.{◌≡◌, false};
ghost use Rattle.tk_message.specs.Place.{next_in};
ghost use Rattle.tk_region.specs.RegionFields.{place_in};
ghost use Rattle.tk_region.specs.Taking.{AgreesWith, has_unmade};
ghost use Rattle.tk_world.specs.Parts.{PrunesSomeTo, PrunesTo, TakesBundle};

use crate::bundle::MadeBundle;
use crate::event::Outcome;
use std::alloc::Global;
use tk_edge::Edge;
use tk_handle::{Dot, Moment};
use tk_region::TakeError;

// Takes a bundle in. The region has no reason to refuse a bundle of its world.
pub(crate) fn deliver(alloc: Global, edge: &mut Edge, bundle: &MadeBundle) -> Outcome
    requires agree { AgreesWith edge.old.region.facts.slots bundle.now.items }
    requires made { has_unmade (next_in (place_in edge.old.region)) bundle.now.items ≡ false }
    ensures takes { TakesBundle edge.old.region bundle.now result edge.new.region }
    ensures sealed { edge.new.sealed ≡ edge.old.sealed }
    ensures terms { edge.new.terms ≡ edge.old.terms }
{
    match edge.region_mut().take_in(alloc, bundle.bytes()) {
        Ok(new) => Outcome::Took(new),
        Err(TakeError::Memory) => Outcome::Memory,
        Err(TakeError::Malformed) => unreachable!("a bundle that was made can be read"),
        Err(TakeError::OwnNumber) => unreachable!("a region has made each fact of its number"),
        Err(TakeError::Conflict) => unreachable!("all facts of a world are one set"),
    }
}

// Has the region skip what is over at the moment.
pub(crate) fn prune(alloc: Global, edge: &mut Edge, moment: Moment) -> Outcome
    ensures prunes { PrunesTo edge.old.region moment result edge.new.region }
    ensures sealed { edge.new.sealed ≡ edge.old.sealed }
    ensures terms { edge.new.terms ≡ edge.old.terms }
{
    match edge.region_mut().prune(alloc, moment) {
        Ok(count) => Outcome::Pruned(count),
        Err(_) => Outcome::Memory,
    }
}

// Has the region look at some facts, and skip those that may go by the moment.
pub(crate) fn prune_some(edge: &mut Edge, moment: Moment, after: Option<Dot>, count: u64) -> Outcome
    ensures prunes { PrunesSomeTo edge.old.region moment after count result edge.new.region }
    ensures sealed { edge.new.sealed ≡ edge.old.sealed }
    ensures terms { edge.new.terms ≡ edge.old.terms }
{
    let slice = edge.region_mut().prune_some(moment, after, count);
    Outcome::PrunedSome(slice)
}
