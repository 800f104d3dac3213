//! The text of the metrics: `exposition` makes it of `Figures`.

use crate::metrics::Counts;

/// What the text of the metrics shows.
#[derive(Clone, Copy)]
pub(crate) struct Figures {
    /// How requests ended.
    pub counts: Counts,
    /// How many replies weren't taken by their clients.
    pub untaken: u64,
    /// How many connections have ended.
    pub ended: u64,
    /// How many connections are open.
    pub still_open: u64,
    /// How many facts the region holds.
    pub facts: u64,
    /// How many facts the server pruned between requests.
    pub pruned: u64,
    /// The region's horizon, in seconds since 1970.
    pub horizon: u64,
}

ghost use Rattle.std.specs.Prelude.{◌≡◌, IfOk};
ghost use Rattle.tokend.specs.Exposition as spec;

use crate::replies_text::requests_text;
use itoa::Buffer;
use std::alloc::{AllocError, Global};
use tk_put::joined;

/// Returns the text of the metrics, in the text format of Prometheus, version 0.0.4.
///
/// # Errors
///
/// `AllocError` if memory runs out.
pub(crate) fn exposition(alloc: Global, figures: &Figures) -> Result<Vec<u8>, AllocError>
    ensures { IfOk result (λ text. text.items ≡ spec.exposition figures.now) }
{
    let requests = requests_text(alloc, &figures.counts)?;
    let faults = faults_text(alloc, figures)?;
    let connections = connections_text(alloc, figures)?;
    let region = region_text(alloc, figures)?;
    joined(alloc, &[&requests, &faults, &connections, &region])
}

// Returns the text of the faults.
#[tactic(auto, unfolding(crate::specs::Exposition::faults_text))]
fn faults_text(alloc: Global, figures: &Figures) -> Result<Vec<u8>, AllocError>
    ensures { IfOk result (λ text. text.items ≡ spec.faults_text figures.now) }
{
    let (mut short, mut unread, mut unsent) = (Buffer::new(), Buffer::new(), Buffer::new());
    let lost = figures.counts.unwritten.saturating_add(figures.untaken);
    joined(
        alloc,
        &[
            b"# HELP tokend_faults_total Connections that ended in a fault, by its kind.\n",
            b"# TYPE tokend_faults_total counter\n",
            b"tokend_faults_total{kind=\"memory\"} ",
            short.format(figures.counts.short).as_bytes(),
            b"\ntokend_faults_total{kind=\"read\"} ",
            unread.format(figures.counts.unread).as_bytes(),
            b"\ntokend_faults_total{kind=\"write\"} ",
            unsent.format(lost).as_bytes(),
            b"\n",
        ],
    )
}

// Returns the text of the connections.
#[tactic(auto, unfolding(crate::specs::Exposition::connections_text))]
fn connections_text(alloc: Global, figures: &Figures) -> Result<Vec<u8>, AllocError>
    ensures { IfOk result (λ text. text.items ≡ spec.connections_text figures.now) }
{
    let (mut ended, mut open) = (Buffer::new(), Buffer::new());
    joined(
        alloc,
        &[
            b"# HELP tokend_connections_total Connections that have ended.\n",
            b"# TYPE tokend_connections_total counter\ntokend_connections_total ",
            ended.format(figures.ended).as_bytes(),
            b"\n# HELP tokend_open_connections Connections that are open.\n",
            b"# TYPE tokend_open_connections gauge\ntokend_open_connections ",
            open.format(figures.still_open).as_bytes(),
            b"\n",
        ],
    )
}

// Returns the text of the region.
#[tactic(auto, unfolding(crate::specs::Exposition::region_text))]
fn region_text(alloc: Global, figures: &Figures) -> Result<Vec<u8>, AllocError>
    ensures { IfOk result (λ text. text.items ≡ spec.region_text figures.now) }
{
    let facts = facts_text(alloc, figures)?;
    let horizon = horizon_text(alloc, figures)?;
    let push = push_text(alloc, figures)?;
    joined(alloc, &[&facts, &horizon, &push])
}

// Returns the text of the region's facts.
#[tactic(auto, unfolding(crate::specs::Exposition::facts_text))]
fn facts_text(alloc: Global, figures: &Figures) -> Result<Vec<u8>, AllocError>
    ensures { IfOk result (λ text. text.items ≡ spec.facts_text figures.now) }
{
    let (mut facts, mut pruned) = (Buffer::new(), Buffer::new());
    joined(
        alloc,
        &[
            b"# HELP tokend_held_facts Facts that the region holds.\n",
            b"# TYPE tokend_held_facts gauge\ntokend_held_facts ",
            facts.format(figures.facts).as_bytes(),
            b"\n# HELP tokend_pruned_facts_total Facts that the server skipped between requests.\n",
            b"# TYPE tokend_pruned_facts_total counter\ntokend_pruned_facts_total ",
            pruned.format(figures.pruned).as_bytes(),
            b"\n",
        ],
    )
}

// Returns the text of the region's horizon.
#[tactic(auto, unfolding(crate::specs::Exposition::horizon_text))]
fn horizon_text(alloc: Global, figures: &Figures) -> Result<Vec<u8>, AllocError>
    ensures { IfOk result (λ text. text.items ≡ spec.horizon_text figures.now) }
{
    let mut horizon = Buffer::new();
    joined(
        alloc,
        &[
            b"# HELP tokend_horizon_timestamp_seconds The region's horizon, since 1970.\n",
            b"# TYPE tokend_horizon_timestamp_seconds gauge\ntokend_horizon_timestamp_seconds ",
            horizon.format(figures.horizon).as_bytes(),
            b"\n",
        ],
    )
}

// Returns the text of the last push that was taken in.
#[tactic(auto, unfolding(crate::specs::Exposition::push_text))]
fn push_text(alloc: Global, figures: &Figures) -> Result<Vec<u8>, AllocError>
    ensures { IfOk result (λ text. text.items ≡ spec.push_text figures.now) }
{
    let mut pushed = Buffer::new();
    let moment = figures.counts.pushed.unwrap_or(0);
    joined(
        alloc,
        &[
            b"# HELP tokend_last_push_timestamp_seconds When a push was last taken in, or 0.\n",
            b"# TYPE tokend_last_push_timestamp_seconds gauge\n",
            b"tokend_last_push_timestamp_seconds ",
            pushed.format(moment).as_bytes(),
            b"\n",
        ],
    )
}
