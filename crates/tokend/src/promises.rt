//! The promises about regions, a function for each.
//!
//! The contract of a function is the promise. Its body is one call of `tk_world`, and the promise
//! is proved from the public contract of that call alone. The program calls none of these
//! functions. The last three promises are about a service and its log: they call nothing, and are
//! proved from what contracts say of services, of connections and of loading a log.
//!
//! A world stands for a state with all facts that its regions made and took in, whatever they
//! skipped since: `WorldStands` says how. Four promises are about a run from such a state, and name
//! it. Four hold of any world, whatever brought it about: that regions agree, that pruning changes
//! no answer, and the two about inactive tokens.

ghost use Rattle.std.specs.Prelude.{◌≡◌, ℕ, IfOk, MatchResult, Option};
ghost use Rattle.tk_store.specs.FactSet.{Agree, AllIn, FactSet, IsSubset};
ghost use Rattle.tk_store.specs.Joining.{SameFacts};
ghost use Rattle.tk_store.specs.StoreFields.{held_facts};
ghost use Rattle.tk_world.specs.Acts.{ActsBy};
ghost use Rattle.tk_world.specs.Carrying.{in_place};
ghost use Rattle.tk_world.specs.Headline.{AnswersFor, RunStands};
ghost use Rattle.tk_world.specs.Promises.{IntrospectAlike, RevokedInactive, FamiliesInactive};
ghost use Rattle.tk_world.specs.State.{State, facts_in};
ghost use Rattle.tk_world.specs.World.{seen_by};
ghost use Rattle.tk_world.specs.WorldFields.{store_in};
ghost use Rattle.tk_world.specs.WorldStands.{IsStanding, WorldStands};
ghost use Rattle.tokend.specs.KeptLog.{LogKeepsAll, LogLoads, ServiceLogs};

use crate::folder::Folder;
use std::alloc::AllocError;
use std::io::Read;
use tk_edge::Sink;
use tk_world::{Event, Outcome, World};

/// Facts stay: what a region had made and taken in before a run, it still stands for after the run.
///
/// After an error nothing has run: [`an_error_changes_nothing`].
pub fn facts_stay(world: &mut World, events: &[Event]) -> Result<Vec<Outcome>, AllocError>
    ensures { IfOk result (λ outcomes. (made : FactSet) (state : State)
        → WorldStands world.old made state
        → (ran : RunStands in_place state events.now outcomes.items world.new)
        × ((r : ℕ) → IsSubset (facts_in state r) (facts_in ran.after r))) }
{
    let outcomes = world.run(events)?;
    Ok(outcomes)
}

/// A region stands for what it made and took in.
///
/// After an error nothing has run: [`an_error_changes_nothing`].
pub fn regions_stand_for_what_they_have_seen(
    world: &mut World,
    events: &[Event],
) -> Result<Vec<Outcome>, AllocError>
    ensures { IfOk result (λ outcomes. (made : FactSet) (state : State)
        → WorldStands world.old made state
        → (ran : RunStands in_place state events.now outcomes.items world.new)
        × ((r : ℕ) → AllIn (facts_in ran.after r) (seen_by r events.now ran.shown))) }
{
    world.run(events)
}

/// Regions that have seen the same facts are the same.
///
/// The regions stood for equal sets before the run, for example both for none. During the run they
/// made and took in the same facts, in any order and any number of times. They stand for equal sets
/// after the run, whatever each of them skipped.
///
/// After an error nothing has run: [`an_error_changes_nothing`].
pub fn regions_that_have_seen_the_same_are_the_same(
    world: &mut World,
    events: &[Event],
) -> Result<Vec<Outcome>, AllocError>
    ensures { IfOk result (λ outcomes. (made : FactSet) (state : State)
        → WorldStands world.old made state
        → (ran : RunStands in_place state events.now outcomes.items world.new)
        × ((q r : ℕ) → facts_in state q ≡ facts_in state r
        → SameFacts (seen_by q events.now ran.shown) (seen_by r events.now ran.shown)
        → facts_in ran.after q ≡ facts_in ran.after r)) }
{
    world.run(events)
}

/// Regions agree in any world: no two of them hold different facts at one dot.
pub fn regions_agree(world: &World)
    ensures { (q r : ℕ)
        → Agree (held_facts (store_in world.now q)) (held_facts (store_in world.now r)) }
{
    world.known()
}

/// Regions with equal facts introspect alike, from their horizons on (RFC 7662, 2.2).
///
/// The regions stand for equal sets when the request arrives, and the moment is not before their
/// horizons. Bytes that mean the same introspection request at the same moment get the same status
/// and the same bytes. The regions' numbers and the random words don't matter, and neither does
/// what each of them skipped. All regions of a world have the same settings: one choice of these
/// counts, who sees refresh tokens.
///
/// After an error nothing has run: [`an_error_changes_nothing`].
pub fn equal_facts_introspect_alike(
    world: &mut World,
    events: &[Event],
) -> Result<Vec<Outcome>, AllocError>
    ensures { IfOk result (λ outcomes. (made : FactSet) (state : State)
        → WorldStands world.old made state
        → (ran : RunStands in_place state events.now outcomes.items world.new)
        × IntrospectAlike state events.now outcomes.items ran.shown ran.after ran.run) }
{
    world.run(events)
}

/// Pruning changes no answer in any world, from the horizon on.
///
/// The world stands for a state with all facts made. From its horizon on, each region answers each
/// request as a region of its number and settings that holds all the facts for which it stands and
/// never pruned: the reply is equal, and so is the fact that is made.
///
/// There is one exception. The request revokes a token of another region of which the region knows
/// no fact, and by the facts for which it stands the sender revoked that token before. The region
/// may have skipped that revocation, and then decides as if there was none: it makes the fact once
/// more, or a client that may not revoke such a token gets 503.
pub fn pruning_changes_no_answer(world: &World)
    ensures stands { IsStanding world.now }
    ensures answers { (made : FactSet) (state : State) → WorldStands world.now made state
        → AnswersFor world.now state }
{
    world.known()
}

/// Revoked tokens are inactive in any world (RFC 7009, 2.1; RFC 7662, 2.2).
///
/// The region holds facts by which the token's client revoked it. The token is active at no moment,
/// and introspection reports it as inactive to everyone.
pub fn revoked_tokens_are_inactive(world: &World)
    ensures { RevokedInactive (store_in world.now) }
{
    world.known()
}

/// Families with a bad grant are inactive in any world (RFC 6749, 4.1.2, 10.4 and 10.5).
///
/// The region holds facts by which a grant is bad. Such a grant is one of:
///
/// - a code or refresh token that was used twice, or seen to be reused
/// - a refresh token that its client revoked
/// - a code whose subject signed out at the code's start or later
///
/// Each token under the same code is active at no moment, and introspection reports it as inactive
/// to everyone. An access token that was refreshed for a refresh token that its client keeps is
/// under the code of that refresh token.
pub fn families_with_a_bad_grant_are_inactive(world: &World)
    ensures { FamiliesInactive (store_in world.now) }
{
    world.known()
}

/// An error changes nothing: a call ends with a run of all its events, or with an error and no
/// event run.
pub fn an_error_changes_nothing(
    world: &mut World,
    events: &[Event],
) -> Result<Vec<Outcome>, AllocError>
    ensures { MatchResult result
        (λ outcomes. ActsBy in_place world.old events.now outcomes.items world.new)
        (λ _. world.new ≡ world.old) }
{
    world.run(events)
}

/// A log that gets the bundles taken in keeps all that its region made and took in.
///
/// A region without facts took in the bundles of an old log, was pruned or not, and serves
/// connections over an edge whose log gets what is taken in. Another region has loaded the bundles
/// of the old log and those of that log as it is after any connection: in any order, with others
/// among them, the last one torn or not. It holds every fact that the first region held then, or
/// has skipped it. It has skipped what the first region skipped since its start, and its horizon
/// isn't earlier than any that the first region took over since its start.
///
/// That the load isn't refused is a premise. The promise leaves out an edge that is sealed, since
/// its log has failed, and claims nothing of disks.
pub fn a_log_of_bundles_keeps_all()
    ensures { LogKeepsAll }
{}

/// A log that gets the bundles taken in is loaded again.
///
/// A region without facts, under a number that the writer knows no fact of, loads the old log and
/// behind it the log as it is after any connection, torn or not: nothing is refused. The promise
/// leaves out a writer that ran out of memory in some connection, and an edge that is sealed.
pub fn a_log_of_bundles_is_loaded_again()
    ensures { LogLoads }
{}

/// A service writes such a log: one that has run with `--log-taken`, and whose edge isn't sealed at
/// its end.
///
/// The log is the one that it opened by the name in its arguments, which was empty: one file, or
/// parts of any number of bytes. The bundles of the old log are those of the file of that name, if
/// its bytes are known. The bytes of logs must be known, as those of the machine's files aren't:
/// what a file keeps is tested.
pub fn a_service_writes_such_a_log<I: Read, L: Sink, D: Folder<I, L>>(folder: &D)
    ensures { (part : Option ℕ)
        → ServiceLogs (D.kept folder.now) L.holds (D.opens folder.now part) }
{
    let _folder = folder;
}
