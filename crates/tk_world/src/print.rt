//! Prints outcomes as lines: `print_outcomes`.
//!
//! Printing takes no memory. An output that fails has the beginning of the lines.

ghost use Rattle.std.specs.Prelude.{◌≡◌};
ghost use Rattle.std.specs.Option.{option_copied};
ghost use Rattle.tk_put.specs.Put.{Prints};
ghost use Rattle.tk_message.specs.StatusCode.{status_number};
ghost use Rattle.tk_world.specs.Printed as spec;
ghost use Rattle.tk_world.specs.World.{region_of as event_region};

use crate::event::{Event, Outcome};
use crate::reply_parts::{body_in, location_in};
use itoa::Buffer;
use std::io::{self, Write};
use tk_handle::{Dot, RegionNumber};
use tk_ledger::Slice;
use tk_message::StatusCode;
use tk_put::put_all;

/// Writes one line for each event, in order, as far as there are outcomes.
///
/// The call takes no memory and doesn't flush.
///
/// # Errors
///
/// The output's own failure. The output then has the beginning of the lines.
pub fn print_outcomes<O: Write>(
    output: &mut O,
    events: &[Event],
    outcomes: &[Outcome],
) -> io::Result<()>
    ensures { Prints result (O.contents output.old) (O.contents output.new)
        (spec.lines_text events.now outcomes.now) }
{
    for at in 0..events.len().min(outcomes.len()) {
        match print_line(output, &events[at], &outcomes[at]) {
            Ok(()) => {}
            Err(error) => return Err(error),
        }
    }
    Ok(())
}

// Writes the line of an event and its outcome.
fn print_line<O: Write>(output: &mut O, event: &Event, outcome: &Outcome) -> io::Result<()>
    ensures { Prints result (O.contents output.old) (O.contents output.new)
        (spec.line_text (event.now, outcome.now)) }
{
    print_outcome(output, region_of(event), outcome)
}

// Returns the number of the region that an event is for.
fn region_of(event: &Event) -> RegionNumber
    ensures { result ≡ event_region event.now }
{
    match event {
        Event::Open(region) => *region,
        Event::Request { region, .. } => *region,
        Event::Pull { region, .. } => *region,
        Event::Deliver { region, .. } => *region,
        Event::Prune { region, .. } => *region,
        Event::PruneSome { region, .. } => *region,
    }
}

// Writes the line of an outcome.
fn print_outcome<O: Write>(
    output: &mut O,
    region: RegionNumber,
    outcome: &Outcome,
) -> io::Result<()>
    ensures { Prints result (O.contents output.old) (O.contents output.new)
        (spec.outcome_line region outcome.now) }
{
    match outcome {
        Outcome::Opened => print_number(output, b"opened ", u64::from(region.number())),
        Outcome::NumberTaken => put_all(output, &[b"number taken\n"]),
        Outcome::NoRegion => put_all(output, &[b"no region\n"]),
        Outcome::NoBundle => put_all(output, &[b"no bundle\n"]),
        Outcome::Reply { status, bytes } => print_reply(output, *status, bytes),
        Outcome::Bundle {
            index,
            count,
            last,
            more,
        } => print_bundle(output, *index, *count, *last, *more),
        Outcome::Took(count) => print_number(output, b"took ", u64::from(*count)),
        Outcome::Pruned(count) => print_number(output, b"pruned ", *count),
        Outcome::PrunedSome(slice) => print_slice(output, *slice),
        Outcome::Memory => put_all(output, &[b"memory\n"]),
    }
}

// Writes a line of a word and a number.
fn print_number<O: Write>(output: &mut O, word: &[u8], number: u64) -> io::Result<()>
    ensures { Prints result (O.contents output.old) (O.contents output.new)
        (spec.numbered_line word.now number) }
{
    let mut digits = Buffer::new();
    put_all(output, &[word, digits.format(number).as_bytes(), b"\n"])
}

// Writes a bundle's line: its number, how many items it has, the greatest dot, and whether more
// follow.
fn print_bundle<O: Write>(
    output: &mut O,
    index: u64,
    count: u16,
    last: Option<Dot>,
    more: bool,
) -> io::Result<()>
    ensures { Prints result (O.contents output.old) (O.contents output.new)
        (spec.bundle_line index count last more) }
{
    let (mut index_digits, mut count_digits) = (Buffer::new(), Buffer::new());
    let index = index_digits.format(index).as_bytes();
    let count = count_digits.format(count).as_bytes();
    let end: &[u8] = if more { b" more\n" } else { b" end\n" };
    match last {
        Some(dot) => {
            let (mut region_digits, mut serial_digits) = (Buffer::new(), Buffer::new());
            let region = region_digits.format(dot.region().number()).as_bytes();
            let serial = serial_digits.format(dot.serial()).as_bytes();
            put_all(
                output,
                &[
                    b"bundle ", index, b" ", count, b" ", region, b":", serial, end,
                ],
            )
        }
        None => put_all(output, &[b"bundle ", index, b" ", count, b" -", end]),
    }
}

// Writes the line of a slice: how many facts went, and the next cursor.
fn print_slice<O: Write>(output: &mut O, slice: Slice) -> io::Result<()>
    ensures { Prints result (O.contents output.old) (O.contents output.new)
        (spec.slice_line slice) }
{
    let mut gone_digits = Buffer::new();
    let gone = gone_digits.format(slice.gone).as_bytes();
    match slice.at {
        Some(dot) => {
            let (mut region_digits, mut serial_digits) = (Buffer::new(), Buffer::new());
            let region = region_digits.format(dot.region().number()).as_bytes();
            let serial = serial_digits.format(dot.serial()).as_bytes();
            put_all(
                output,
                &[b"pruned ", gone, b" ", region, b":", serial, b"\n"],
            )
        }
        None => put_all(output, &[b"pruned ", gone, b" -\n"]),
    }
}

// Writes the line of a reply.
fn print_reply<O: Write>(output: &mut O, status: StatusCode, bytes: &[u8]) -> io::Result<()>
    ensures { Prints result (O.contents output.old) (O.contents output.new)
        (spec.reply_line (status_number status) (spec.location_in bytes.now)
        (spec.body_in bytes.now)) }
{
    print_parts(output, status.number(), location_in(bytes), body_in(bytes))
}

// Writes the parts of a reply's line.
fn print_parts<O: Write>(
    output: &mut O,
    status: u16,
    location: Option<&[u8]>,
    body: &[u8],
) -> io::Result<()>
    ensures { Prints result (O.contents output.old) (O.contents output.new)
        (spec.reply_line status (option_copied location.entry) body.now) }
{
    let mut digits = Buffer::new();
    let status = digits.format(status).as_bytes();
    let gap: &[u8] = if body.is_empty() { b"" } else { b" " };
    match location {
        Some(uri) => put_all(output, &[b"reply ", status, b" ", uri, gap, body, b"\n"]),
        None => put_all(output, &[b"reply ", status, gap, body, b"\n"]),
    }
}
