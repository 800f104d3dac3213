//! Takes in a pushed bundle, logs its record if it changes the region, and replies: `take_and_log`.

ghost use Rattle.std.specs.Prelude.{◌≡◌, ◌≢◌, false, Err, None, OnErr, Some};
ghost use Rattle.std.specs.Option.{option_copied, option_map};
ghost use Rattle.tk_put.specs.Put.{Prints};
ghost use Rattle.tk_bundle.specs.Bundle.{bundle, bundle_bytes};
ghost use Rattle.tk_message.specs.Place.{next_in};
ghost use Rattle.tk_region.specs.RegionFields.{place_in};
ghost use Rattle.tk_edge.specs.Ahead.{lifted};
ghost use Rattle.tk_edge.specs.Exchanges.{Pushes};
ghost use Rattle.tk_edge.specs.Failures.{CountsFailure, Rose};
ghost use Rattle.tk_edge.specs.Pushes as spec;
ghost use Rattle.tk_edge.specs.Told.{IsFaultOfDevice};

use crate::ahead::{PushError, lifted, read_pushed};
use crate::answer::answer_with;
use crate::device::{Failed, Sink};
use crate::exchange::{Exchange, taken_answer};
use crate::hear::Arrival;
use crate::put::put_whole;
use crate::tell::{Fault, write_record};
use crate::terms::Terms;
use std::alloc::Global;
use tk_bundle::Bundle;
use tk_handle::Moment;
use tk_message::StatusCode;
use tk_region::{Region, TakeError};

// Returns the bytes of a pushed bundle, if taken bundles are logged.
pub(crate) fn bundle_to_log<'a>(log_taken: bool, came: &'a Arrival) -> Option<&'a [u8]>
    ensures { option_copied result ≡ spec.bundle_to_log log_taken came.now }
{
    if !log_taken {
        return None;
    }
    match came {
        Arrival::Exchange(Exchange::Push(sent)) => Some(sent.bytes()),
        _ => None,
    }
}

// Takes a pushed bundle in, unless the terms refuse it at the moment.
pub(crate) fn take_pushed(
    alloc: Global,
    region: &mut Region,
    terms: &Terms,
    now: Moment,
    bytes: &[u8],
) -> Result<u16, PushError>
    ensures { Pushes terms.now now region.old bytes.now result region.new }
{
    match read_pushed(alloc, terms, now, bytes) {
        Ok(sent) => lifted(region.take_bundle(sent)),
        Err(error) => Err(error),
    }
}

// Takes a pushed bundle in, logs its record if it changes the region, and only then replies.
//
// The record is logged also if memory runs out while the bundle is taken in, because writing takes
// no memory. A log that fails seals the edge.
pub(crate) fn take_and_log<L: Sink, W: Sink>(
    alloc: Global,
    region: &mut Region,
    sealed: &mut bool,
    log: &mut L,
    writer: &mut W,
    terms: &Terms,
    now: Moment,
    bytes: &[u8],
) -> Result<StatusCode, Fault>
    requires { sealed.old ≡ false }
    ensures replies { spec.TakesAndLogs terms.now now bytes.now region.old region.new
        (record { before = L.holds log.old; after = L.holds log.new }) (log.new ≡ log.old)
        (record { before = W.holds writer.old; after = W.holds writer.new }) sealed.new result }
    ensures faults { IsFaultOfDevice result (L.failed log.old) (L.failed log.new)
        (W.failed writer.old) (W.failed writer.new) }
{
    let Pushed { taken, news } = take_with_news(alloc, region, terms, now, bytes);
    if log_news(log, &news).is_err() {
        *sealed = true;
        return Err(Fault::Log);
    }
    tell_taken(alloc, taken, writer)
}

// The result of taking in a pushed bundle, and the record of what it changed.
#[derive(Drop)]
struct Pushed {
    taken: Result<u16, PushError>,
    news: Option<Vec<u8>>,
}

// Takes in a pushed bundle as `take_pushed` does, and makes its record.
fn take_with_news(
    alloc: Global,
    region: &mut Region,
    terms: &Terms,
    now: Moment,
    bytes: &[u8],
) -> Pushed
    ensures pushes { Pushes terms.now now region.old bytes.now result.taken region.new }
    ensures news { spec.IsNews region.old bytes.now result.taken
        (option_map (λ kept. kept.items) result.news) region.new }
{
    match read_pushed(alloc, terms, now, bytes) {
        Ok(sent) => take_read(alloc, region, sent),
        Err(error) => Pushed {
            taken: Err(error),
            news: None,
        },
    }
}

// Takes in a bundle that was read. The record is made before, since the bundle moves into the
// region. If there is no memory for the record, nothing is taken in.
fn take_read(alloc: Global, region: &mut Region, sent: Bundle) -> Pushed
    requires { bundle.Fits sent }
    ensures number { region.new.number ≡ region.old.number }
    ensures settings { region.new.settings ≡ region.old.settings }
    ensures takes { spec.TakesSent region.old.facts (next_in (place_in region.old)) sent
        result.taken region.new.facts }
    ensures news { spec.IsNews region.old (bundle_bytes sent) result.taken
        (option_map (λ kept. kept.items) result.news) region.new }
{
    let Ok(news) = region.news(alloc, &sent) else {
        return Pushed {
            taken: Err(PushError::Take(TakeError::Memory)),
            news: None,
        };
    };
    let taken = lifted(region.take_bundle(sent));
    Pushed {
        taken,
        news: kept(taken, news),
    }
}

// Returns the record of a bundle, by the result of taking it in: a bundle that is refused has none.
fn kept(taken: Result<u16, PushError>, news: Option<Vec<u8>>) -> Option<Vec<u8>>
    ensures { option_map (λ kept. kept.items) result
        ≡ spec.kept_of taken (option_map (λ kept. kept.items) news) }
{
    match taken {
        Ok(_) | Err(PushError::Take(TakeError::Memory)) => news,
        Err(_) => None,
    }
}

// Writes the record, if there is one, to the log, and flushes it.
fn log_news<L: Sink>(log: &mut L, news: &Option<Vec<u8>>) -> Result<(), Failed>
    ensures bytes { Prints result (L.holds log.old) (L.holds log.new)
        (spec.logged_of (option_map (λ kept. kept.items) news.now)) }
    ensures still { news.now ≡ None → log.new ≡ log.old }
    ensures news { OnErr result (news.now ≢ None) }
    ensures failures { CountsFailure result (L.failed log.old) (L.failed log.new) }
{
    match news {
        Some(bytes) => write_record(log, bytes),
        None => Ok(()),
    }
}

// Writes the reply to a push.
fn tell_taken<W: Sink>(
    alloc: Global,
    taken: Result<u16, PushError>,
    writer: &mut W,
) -> Result<StatusCode, Fault>
    ensures told { spec.TellsTaken taken
        (record { before = W.holds writer.old; after = W.holds writer.new }) result }
    ensures fault { result ≡ Err Fault.Write → Rose (W.failed writer.old) (W.failed writer.new) }
{
    let Ok(reply) = taken_answer(alloc, taken) else {
        return Err(Fault::Memory);
    };
    let Ok(answer) = answer_with(alloc, &reply, None) else {
        return Err(Fault::Memory);
    };
    match put_whole(writer, &answer.bytes) {
        Ok(()) => Ok(answer.status),
        Err(_) => Err(Fault::Write),
    }
}
