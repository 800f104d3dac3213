//! Writes the lines of items of a bundle, and of the entries of a vector.

ghost use Rattle.std.specs.Prelude.{◌≡◌, ◌++◌, OnOk};
ghost use Rattle.tk_handle.specs.Ranges.{IsRegion};
ghost use Rattle.tk_listing.specs.Lines as spec;

use crate::fields::{put_by, put_fields};
use crate::members::{put_dot_text, put_number, put_plain, put_time};
use std::alloc::AllocError;
use tk_bundle::Item;
use tk_fact::Body;
use tk_format::Writer;
use tk_handle::{Dot, Moment, RegionNumber};
use tk_store::SlotRef;
use tk_vector::VersionVector;

/// Writes the lines of items of a bundle with this horizon, in order.
pub(crate) fn put_items(
    writer: &mut Writer,
    horizon: &Option<Moment>,
    items: &[Item],
) -> Result<(), AllocError>
    ensures { OnOk result (writer.new ≡ writer.old ++ spec.item_lines horizon.now items.now) }
{
    for item in items {
        put_item(writer, horizon, item)?;
    }
    Ok(())
}

// Writes the line of an item of a bundle with this horizon.
fn put_item(writer: &mut Writer, horizon: &Option<Moment>, item: &Item) -> Result<(), AllocError>
    ensures { OnOk result (writer.new ≡ writer.old ++ spec.item_line horizon.now item.now) }
{
    match item.slot() {
        SlotRef::Held(fact) => put_fact(writer, item.dot(), &fact.body),
        SlotRef::Skipped => put_mark(writer, horizon, item.dot()),
    }
}

// Writes the line of a fact.
#[tactic(auto, unfolding(crate::specs::Lines::fact_line))]
pub(crate) fn put_fact(writer: &mut Writer, dot: Dot, body: &Body) -> Result<(), AllocError>
    ensures { OnOk result (writer.new ≡ writer.old ++ spec.fact_line dot body.now) }
{
    begin(writer, dot, kind_name(body))?;
    put_fields(writer, body)?;
    put_by(writer, body.by())?;
    writer.put_bytes(b"}\n")
}

// Returns the name of a fact's kind.
#[tactic(auto, unfolding(crate::specs::Lines::kind_name))]
fn kind_name(body: &Body) -> &'static [u8]
    ensures { result.now ≡ spec.kind_name body.now }
{
    match body {
        Body::ClientAdded(_) => b"client_added",
        Body::ClientRetired(_) => b"client_retired",
        Body::ConsentGiven(_) => b"consent_given",
        Body::ConsentWithdrawn(_) => b"consent_withdrawn",
        Body::CodeIssued(_) => b"code_issued",
        Body::CodeRedeemed(_) => b"code_redeemed",
        Body::RefreshRotated(_) => b"refresh_rotated",
        Body::TokenRevoked(_) => b"token_revoked",
        Body::ReuseSeen(_) => b"reuse_seen",
        Body::SubjectOut(_) => b"subject_out",
        Body::AccessRefreshed(_) => b"access_refreshed",
        Body::SecretSet(_) => b"secret_set",
    }
}

// Writes the beginning of the line of a dot: the dot, and a kind.
#[tactic(auto, unfolding(crate::specs::Lines::begun_line))]
fn begin(writer: &mut Writer, dot: Dot, kind: &[u8]) -> Result<(), AllocError>
    ensures { OnOk result (writer.new ≡ writer.old ++ spec.begun_line dot kind.now) }
{
    writer.put_bytes(b"{\"dot\":\"")?;
    put_dot_text(writer, dot)?;
    writer.put_bytes(b"\"")?;
    put_plain(writer, b"kind", kind)
}

// Writes the line of the mark that the fact of a dot was skipped.
#[tactic(auto, unfolding(crate::specs::Lines::mark_line))]
fn put_mark(writer: &mut Writer, horizon: &Option<Moment>, dot: Dot) -> Result<(), AllocError>
    ensures { OnOk result (writer.new ≡ writer.old ++ spec.mark_line horizon.now dot) }
{
    begin(writer, dot, b"mark")?;
    put_horizon(writer, horizon)?;
    writer.put_bytes(b"}\n")
}

// Writes the horizon of a bundle, if it has one.
#[tactic(auto, unfolding(crate::specs::Lines::horizon_members))]
fn put_horizon(writer: &mut Writer, horizon: &Option<Moment>) -> Result<(), AllocError>
    ensures { OnOk result (writer.new ≡ writer.old ++ spec.horizon_members horizon.now) }
{
    match horizon {
        Some(horizon) => put_time(writer, b"horizon", *horizon),
        None => Ok(()),
    }
}

// Writes the lines of a vector's entries, ascending by region.
pub(crate) fn put_vector(writer: &mut Writer, vector: &VersionVector) -> Result<(), AllocError>
    ensures { OnOk result (writer.new ≡ writer.old ++ spec.vector_lines vector.now) }
{
    put_regions(writer, vector)
}

// Writes the lines of the entries, region by region.
#[tactic(auto, using(crate::proofs::Writing::no_region, crate::proofs::Writing::next_region))]
fn put_regions(writer: &mut Writer, vector: &VersionVector) -> Result<(), AllocError>
    ensures { OnOk result (writer.new ≡ writer.old ++ spec.lines_up_to vector.now 65_535) }
{
    for before in 0..u16::MAX {
        put_region(writer, vector, before + 1)?;
    }
    Ok(())
}

// Writes the line of a region's entry, if the vector has one.
fn put_region(writer: &mut Writer, vector: &VersionVector, region: u16) -> Result<(), AllocError>
    requires { IsRegion region }
    ensures { OnOk result (writer.new ≡ writer.old ++ spec.region_line vector.now region) }
{
    let serial = vector.get(RegionNumber::new(region).unwrap());
    if serial == 0 {
        Ok(())
    } else {
        put_entry(writer, region, serial)
    }
}

// Writes the line of an entry of a vector.
#[tactic(auto, unfolding(crate::specs::Lines::entry_line))]
fn put_entry(writer: &mut Writer, region: u16, serial: u64) -> Result<(), AllocError>
    ensures { OnOk result (writer.new ≡ writer.old ++ spec.entry_line (region, serial)) }
{
    begin_entry(writer)?;
    put_number(writer, b"region", u64::from(region))?;
    put_number(writer, b"serial", serial)?;
    writer.put_bytes(b"}\n")
}

// Writes the beginning of the line of an entry of a vector.
#[tactic(auto, unfolding(crate::specs::Lines::begun_entry))]
fn begin_entry(writer: &mut Writer) -> Result<(), AllocError>
    ensures { OnOk result (writer.new ≡ writer.old ++ spec.begun_entry) }
{
    writer.put_bytes(b"{\"kind\":\"vector\"")
}
