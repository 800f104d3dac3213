//! One turn: `take_turn`.

ghost use Rattle.std.specs.Prelude.{◌≡◌, ◌≢◌, ◌++◌, ℕ, true, List, [], length, MatchResult};
ghost use Rattle.std.specs.Prelude.{OnErr, OnOk};
ghost use Rattle.tk_put.specs.Put.{Prints};
ghost use Rattle.tk_turn.specs.Links.{released, withheld};
ghost use Rattle.tk_turn.specs.Turns.{
  AreDecidedAt,
  AreChangedAt,
  AreWithin,
  AreDistinct,
  EachIsOwn,
  IsTurn,
  MayDecide,
  NoneHeld,
  OthersStay,
};

use crate::link::Link;
use crate::log::{Log, LogFailed};
use crate::service::Service;

/// Decides the requests of the connections at these places, each less than `links.len()`, writes
/// their records to the log, flushes it, and only then lets their replies be sent.
///
/// At most `MAX_REQUESTS` requests of each connection are decided. `records` is room for the
/// records. Without a record the log isn't called.
///
/// # Errors
///
/// `LogFailed` if the log failed. The replies of this turn are then dropped, their connections read
/// no further request, and the service is sealed.
pub fn take_turn<S: Service, L: Log>(
    service: &mut S,
    links: &mut Vec<Link>,
    places: &[usize],
    records: &mut Vec<u8>,
    log: &mut L,
) -> Result<(), LogFailed>
    requires within { AreWithin places.now (length links.old.items) }
    ensures turn { IsTurn S.decides S.seals places.now
        (record { service = service.old; links = links.old.items })
        (record { service = service.new; links = links.new.items })
        (record { before = L.written log.old; after = L.written log.new; kept = L.kept log.new })
        (log.new ≡ log.old) result }
    // A connection's replies are those of its own requests, in order.
    ensures own { AreDistinct places.now → MatchResult result
        (λ _. EachIsOwn S.decides released places.now links.old.items links.new.items)
        (λ _. EachIsOwn S.decides withheld places.now links.old.items links.new.items) }
    ensures others { OthersStay places.now links.old.items links.new.items }
    // No reply is held back from one turn to the next.
    ensures held { NoneHeld links.old.items → NoneHeld links.new.items }
    // A failure is returned exactly if a call of the log failed.
    ensures ok { OnOk result (L.has_failed log.new ≡ L.has_failed log.old) }
    ensures fault { OnErr result (L.has_failed log.new ≡ true) }
{
    records.clear();
    decide_each(service, links, places, records);
    match commit(log, records) {
        Ok(()) => {
            release_each(links, places);
            Ok(())
        }
        Err(error) => {
            withhold_each(links, places);
            service.seal();
            Err(error)
        }
    }
}

// Decides the requests of the connections at these places, one after the other.
fn decide_each<S: Service>(
    service: &mut S,
    links: &mut Vec<Link>,
    places: &[usize],
    records: &mut Vec<u8>,
)
    requires within { AreWithin places.now (length links.old.items) }
    ensures decided { (logged : List ℕ) × (records.new.items ≡ records.old.items ++ logged)
        × AreDecidedAt S.decides places.now service.old links.old.items service.new links.new.items
        logged }
    ensures many { length links.new.items ≡ length links.old.items }
{
    let mut at = 0;
    'places: while at < places.len() {
        let place = places[at];
        decide_one(service, &mut links[place], records);
        at += 1;
    }
}

// Decides the requests of a connection, unless none is read any more.
fn decide_one<S: Service>(service: &mut S, link: &mut Link, records: &mut Vec<u8>)
    ensures { (logged : List ℕ) × (records.new.items ≡ records.old.items ++ logged)
        × MayDecide S.decides service.old link.old service.new link.new logged }
{
    if !link.is_last() {
        link.decide(service, records);
    }
}

// Lets the replies of the connections at these places be sent.
fn release_each(links: &mut Vec<Link>, places: &[usize])
    requires within { AreWithin places.now (length links.old.items) }
    ensures { AreChangedAt released places.now links.old.items links.new.items }
{
    let mut at = 0;
    'places: while at < places.len() {
        let place = places[at];
        links[place].release();
        at += 1;
    }
}

// Drops the replies of the connections at these places.
fn withhold_each(links: &mut Vec<Link>, places: &[usize])
    requires within { AreWithin places.now (length links.old.items) }
    ensures { AreChangedAt withheld places.now links.old.items links.new.items }
{
    let mut at = 0;
    'places: while at < places.len() {
        let place = places[at];
        links[place].withhold();
        at += 1;
    }
}

// Writes the records to the log and flushes it. Without records the log isn't called.
fn commit<L: Log>(log: &mut L, records: &[u8]) -> Result<(), LogFailed>
    ensures bytes { Prints result (L.written log.old) (L.written log.new) records.now }
    ensures kept { OnOk result (records.now ≢ [] → L.kept log.new ≡ L.written log.new) }
    ensures still { records.now ≡ [] → log.new ≡ log.old }
    ensures ok { OnOk result (L.has_failed log.new ≡ L.has_failed log.old) }
    ensures fault { OnErr result (L.has_failed log.new ≡ true) }
    ensures some { OnErr result (records.now ≢ []) }
{
    if records.is_empty() {
        return Ok(());
    }
    match log.append(records) {
        Ok(()) => log.flush(),
        Err(failed) => Err(failed),
    }
}
