//! Writing facts and marks, with marks that follow one another as runs.

use tk_handle::Dot;

// Marks that are not written yet: those from a dot to a serial of its region.
#[derive(Drop)]
pub(crate) struct Run {
    first: Dot,
    last: u64,
}

ghost use Rattle.std.specs.Prelude.{◌≡◌, ◌++◌, [], ◌∷◌, IfOk, OnOk, Some, None, true};
ghost use Rattle.tk_fact.specs.Check.{refusal_of};
ghost use Rattle.tk_store.specs.Slots.{Skipped};
ghost use Rattle.tk_store.specs.WholeStores.{as_slot};
ghost use Rattle.tk_bundle.specs.BundleFields.{Items};
ghost use Rattle.tk_bundle.specs.PieceBytes.{piece};
ghost use Rattle.tk_bundle.specs.Pieces.{continues_at, grouped, last_mark};
ghost use Rattle.tk_bundle.specs.RunPage.{pieces_behind, pieces_bytes};
ghost use Rattle.tk_bundle.specs.declared.piece.Piece.TheVariants.{Marks};

use crate::page::write_mark;
use crate::piece::RUN_KIND;
use std::alloc::{AllocError, Global};
use tk_fact::Fact;
use tk_format::Writer;

// The number of bytes of a run: a dot, the number of a run, a serial.
const RUN_BYTES: u16 = 19;

// Writes the marks that are not written yet, and a fact behind them.
pub(crate) fn put_fact(
    alloc: Global,
    pending: Option<Run>,
    fact: &Fact,
    writer: &mut Writer,
) -> Result<(), AllocError>
    requires { refusal_of fact.now.1 ≡ None }
    ensures { OnOk result ((more : Items)
        → writer.new ++ pieces_bytes (grouped more)
        ≡ writer.old ++ pieces_bytes (pieces_behind pending (as_slot fact.now ∷ more))) }
{
    put_pending(pending, writer)?;
    fact.write_framed(alloc, writer)
}

// Puts a mark behind the marks that are not written yet, writes these if the mark does not follow
// them, and returns those that are not written then.
pub(crate) fn put_mark(
    pending: Option<Run>,
    dot: Dot,
    writer: &mut Writer,
) -> Result<Option<Run>, AllocError>
    ensures { IfOk result (λ next. (more : Items)
        → writer.new ++ pieces_bytes (pieces_behind next more)
        ≡ writer.old ++ pieces_bytes (pieces_behind pending ((dot, Skipped) ∷ more))) }
{
    match pending {
        Some(run) => put_behind(run, dot, writer),
        None => Ok(Some(run_at(dot))),
    }
}

// Puts a mark behind marks, as `put_mark` does.
fn put_behind(run: Run, dot: Dot, writer: &mut Writer) -> Result<Option<Run>, AllocError>
    ensures { IfOk result (λ next. (more : Items)
        → writer.new ++ pieces_bytes (pieces_behind next more)
        ≡ writer.old ++ pieces_bytes (pieces_behind (Some run) ((dot, Skipped) ∷ more))) }
{
    if is_next(&run, dot) {
        let Run { first, last: _ } = run;
        return Ok(Some(Run {
            first,
            last: dot.serial(),
        }));
    }
    write_run(&run, writer)?;
    Ok(Some(run_at(dot)))
}

// Returns the run of one mark.
fn run_at(dot: Dot) -> Run
    ensures { result ≡ record { first = dot; last = dot.serial } }
{
    Run {
        first: dot,
        last: dot.serial(),
    }
}

// Returns whether the dot is the one behind the marks.
fn is_next(run: &Run, dot: Dot) -> bool
    ensures { result ≡ continues_at (last_mark (Marks run.now.first run.now.last)) dot true }
{
    run.first.region().number() == dot.region().number() && run.last == dot.serial() - 1
}

// Writes the marks that are not written yet.
pub(crate) fn put_pending(pending: Option<Run>, writer: &mut Writer) -> Result<(), AllocError>
    ensures { OnOk result (writer.new
        ≡ writer.old ++ pieces_bytes (pieces_behind pending [])) }
{
    match pending {
        Some(run) => write_run(&run, writer),
        None => Ok(()),
    }
}

// Writes marks as one piece: a lone mark, or a run.
fn write_run(run: &Run, writer: &mut Writer) -> Result<(), AllocError>
    ensures { OnOk result (writer.new
        ≡ writer.old ++ piece.spell (Marks run.now.first run.now.last)) }
{
    if run.first.serial() == run.last {
        return write_mark(run.first, writer);
    }
    writer.put_u16(RUN_BYTES)?;
    run.first.write(writer)?;
    writer.put_u8(RUN_KIND)?;
    writer.put_u64(run.last)
}
