//! What decides the requests of a service: `Server`.

use crate::metrics::Tally;
use crate::pruning::Pruning;
use crate::repeats::Repeats;
use rand_chacha::ChaCha20Rng;
use std::alloc::Global;
use tk_edge::{Edge, Fault as EdgeFault};
use tk_handle::Moment;

/// An edge with what the requests of its connections take: random words and a moment.
#[derive(Drop)]
pub(crate) struct Server {
    /// Where memory is taken from.
    pub alloc: Global,
    /// The edge.
    pub edge: Edge,
    /// The random words. The next six are for the next request that ends.
    pub words: ChaCha20Rng,
    /// Whether bundles taken in are logged.
    pub log_taken: bool,
    /// Whether connections stay open behind a reply, if their requests let them.
    pub keeps: bool,
    /// Whether operators and other regions have a socket of their own.
    pub has_inner: bool,
    /// Whether the requests that are decided came over that socket.
    pub is_inner: bool,
    /// When the requests of a turn are decided.
    pub now: Moment,
    /// How many connections are still to be served.
    pub left: u64,
    /// The fault of a connection that isn't reported yet. Until it is reported, nothing is decided.
    pub fault: Option<EdgeFault>,
    /// The refreshes that were granted a short time ago.
    pub repeats: Repeats,
    /// How far its passes over the region are that prune.
    pub pruning: Pruning,
    /// What it has counted.
    pub tally: Tally,
}

ghost use Rattle.std.specs.Prelude.{◌≡◌, ◌+◌, ◌-◌, ◌<◌, ◌≤◌, ◌++◌, ℕ, List, Option, None, Ok};
ghost use Rattle.std.specs.Prelude.{IfSome, length, true};
ghost use Rattle.tk_turn.specs.Outcomes.{goes_on, taken_of};
ghost use Rattle.tokend.specs.Decisions.{ended_if, fault_of, outcome_by, paths_by};
ghost use Rattle.tokend.specs.Decisions.{reach_by, tally_with};
ghost use Rattle.tokend.specs.Decisions.{Decides, FrontDecides, IsReplied};
ghost use Rattle.tokend.specs.Decisions.{IsUnread, Seals};
ghost use Rattle.tokend.specs.Repeating.{IsCome};
ghost use Rattle.tokend.specs.Telling.{Writer, writer_of};
ghost use Rattle.tokend.specs.Turns.{Goes, ReportsOf};

use crate::draw::draw;
use crate::losses::tell_fault;
use crate::repeating::{Asked, Refresh};
use std::mem::replace;
use tk_edge::{Counted, Path, PathSet, Served, Sink, Taken, keep_open};
use tk_turn::{Outcome, Service};

/// How many bytes a record has at most that aren't of its request.
const RECORD_ROOM: usize = 16_384;

/// For how many bytes of a reply memory is taken before its request is decided.
const REPLY_ROOM: usize = 4_096;

impl Service for Server {
    ghost decides = { Decides };

    ghost seals = { Seals };

    fn decide(
        &mut self,
        input: &[u8],
        is_over: bool,
        replies: &mut Vec<u8>,
        records: &mut Vec<u8>,
    ) -> Outcome {
        if self.left == 0 || self.fault.is_some() {
            return Outcome::More;
        }
        match self.ask(input, is_over) {
            Asked::Other => self.decide_anew(None, input, is_over, replies, records),
            Asked::Refresh(refresh) => {
                self.decide_anew(Some(refresh), input, is_over, replies, records)
            }
            Asked::Again(reply, taken) => self.reply_again(&reply, taken, replies),
            Asked::Short => self.fall_short(),
        }
    }

    fn seal(&mut self) {
        self.edge.seal();
    }
}

// Returns which paths the requests of a socket reach: those of clients alone over an outer socket
// beside an inner one, otherwise all.
pub(crate) fn paths(has_inner: bool, is_inner: bool) -> PathSet
    ensures { result ≡ paths_by has_inner is_inner }
{
    if has_inner && !is_inner {
        PathSet::Clients
    } else {
        PathSet::All
    }
}

// Makes room for the record of a request of this size, and for most replies. Returns whether there
// was memory for it.
fn make_room(records: &mut Vec<u8>, replies: &mut Vec<u8>, size: usize) -> bool
    ensures records { records.new.items ≡ records.old.items }
    ensures replies { replies.new.items ≡ replies.old.items }
{
    let room = size.saturating_add(RECORD_ROOM);
    records.reserve(room).is_ok() && replies.reserve(REPLY_ROOM).is_ok()
}

// Returns a generator that gives the same words.
pub(crate) fn copy(words: &ChaCha20Rng) -> ChaCha20Rng
    ensures { result ≡ words.now }
{
    match words.clone() {
        Ok(words) => words,
        Err(_) => unreachable!("a generator has no memory of its own"),
    }
}

// Returns what is made of a connection that was served. A further request is read of it only if
// connections are kept and its request lets it stay.
pub(crate) fn outcome_of(keeps: bool, served: Served, taken: Taken) -> Outcome
    ensures { result ≡ outcome_by keeps served taken }
{
    match served {
        Served::Nothing => Outcome::Ended,
        Served::Done(_) => Outcome::Decided(taken.size, keeps && taken.stays),
    }
}

// Returns the fault that a connection ended in, if it did.
fn fault_of(end: Result<Served, EdgeFault>) -> Option<EdgeFault>
    ensures { result ≡ fault_of end }
{
    match end {
        Ok(_) => None,
        Err(fault) => Some(fault),
    }
}

// Returns how many connections end.
fn ended_if(stays: bool) -> u64
    ensures value { result ≡ ended_if stays }
    ensures most { result ≤ 1 }
{
    if stays { 0 } else { 1 }
}

// Has the reply from `mark` on say nothing of the end of its connection, if that stays.
pub(crate) fn reply_over(stays: bool, replies: &mut Vec<u8>, mark: usize)
    requires { mark ≤ length replies.old.items }
    ensures { (front reply : List ℕ) → replies.old.items ≡ front ++ reply → mark ≡ length front
        → (sent : List ℕ) × IsReplied stays reply sent × (replies.new.items ≡ front ++ sent) }
{
    if stays {
        keep_open(replies, mark);
    }
}

impl Server {
    /// Returns a server that has no connection to serve.
    pub(crate) fn new(alloc: Global, edge: Edge, words: ChaCha20Rng) -> Server
        ensures edge { result.edge ≡ edge }
        ensures words { result.words ≡ words }
    {
        Server {
            alloc,
            edge,
            words,
            log_taken: false,
            keeps: false,
            has_inner: false,
            is_inner: false,
            now: Moment::new(0).unwrap(),
            left: 0,
            fault: None,
            repeats: Repeats::new(alloc, 0),
            pruning: Pruning::new(None, 0, 0),
            tally: Tally::new(0),
        }
    }

    // Decides the request at the front of the bytes, if it is whole. `refresh` is that request, if
    // it is a refresh that may be repeated.
    fn decide_anew(
        &mut self,
        refresh: Option<Refresh>,
        input: &[u8],
        is_over: bool,
        replies: &mut Vec<u8>,
        records: &mut Vec<u8>,
    ) -> Outcome
        requires some { 0 < self.old.left }
        requires told { self.old.fault ≡ None }
        requires came { IfSome refresh (IsCome
            (reach_by self.old.edge.terms self.old.has_inner self.old.is_inner) input.now
            is_over) }
        ensures within { taken_of result ≤ length input.now }
        ensures some { goes_on result ≡ true → 0 < taken_of result }
        ensures decided { (replied logged : List ℕ)
            × Decides self.old input.now is_over result replied logged self.new
            × (replies.new.items ≡ replies.old.items ++ replied)
            × (records.new.items ≡ records.old.items ++ logged) }
    {
        let mark = replies.len();
        let mut next = copy(&self.words);
        let words = draw(&mut next);
        let dot = self.edge.region().next_dot();
        match self.serve_front(input, is_over, &words, replies, records) {
            Ok(None) => Outcome::More,
            Ok(Some((served, taken))) => {
                let outcome = outcome_of(self.keeps, served, taken);
                let stays = outcome.goes_on();
                reply_over(stays, replies, mark);
                self.keep(refresh, served, dot, &words);
                self.move_on(next, Ok(served), taken.path, stays);
                outcome
            }
            Err(fault) => {
                replies.truncate(mark);
                self.move_on(next, Err(fault), None, false);
                Outcome::Ended
            }
        }
    }

    // Serves the request at the front of the bytes. The reply and the record go behind others. Room
    // for both is made before, so that out of memory changes nothing and seals no edge.
    fn serve_front(
        &mut self,
        input: &[u8],
        is_over: bool,
        words: &[u64; 6],
        replies: &mut Vec<u8>,
        records: &mut Vec<u8>,
    ) -> Result<Option<(Served, Taken)>, EdgeFault>
        ensures decides { (reply logged : List ℕ)
            × (replies.new.items ≡ replies.old.items ++ reply)
            × (records.new.items ≡ records.old.items ++ logged)
            × FrontDecides (record {
              words = words.now;
              log_taken = self.old.log_taken;
              reach = reach_by self.old.edge.terms self.old.has_inner self.old.is_inner;
              now = self.old.now;
              bytes = input.now;
              over = is_over;
            }) self.old.edge result reply logged self.new.edge }
        ensures others { self.new ≡ record self.old { edge = self.new.edge } }
    {
        if !make_room(records, replies, input.len()) {
            return Err(EdgeFault::Memory);
        }
        let reach = self.reached();
        let mut reply = Counted::new(replace(replies, Vec::new(self.alloc)));
        let mut record = Counted::new(replace(records, Vec::new(self.alloc)));
        let served = self.edge.serve_front(
            self.alloc,
            reach,
            input,
            is_over,
            &mut reply,
            &mut record,
            self.log_taken,
            self.now,
            words,
        );
        *replies = reply.inner;
        *records = record.inner;
        served
    }

    // Notes that a request has ended so, and counts it under the path that it names: the next one
    // has the next words. `stays` is whether its connection stays open.
    pub(crate) fn move_on(
        &mut self,
        next: ChaCha20Rng,
        end: Result<Served, EdgeFault>,
        path: Option<Path>,
        stays: bool,
    )
        requires { 0 < self.old.left }
        ensures { (left : ℕ) × (self.old.left ≡ left + ended_if stays)
            × (self.new ≡ record self.old {
              words = next;
              left = left;
              fault = fault_of end;
              tally = tally_with self.old end path;
            }) }
    {
        let (paths, fault) = (paths(self.has_inner, self.is_inner), fault_of(end));
        self.tally.counts.count(end, paths, path, self.now);
        self.words = next;
        self.left -= ended_if(stays);
        self.fault = fault;
    }

    /// Counts a connection that ended before its request was whole, if any is left to be served. It
    /// couldn't be read, or there was no memory for its bytes.
    pub(crate) fn miss<F: Sink>(&mut self, fault: EdgeFault, faults: &mut F)
        requires { IsUnread fault }
        ensures goes { (log : Option (List ℕ)) → Goes
            (record {
              server = self.old;
              log = log;
              faults = writer_of F.holds F.failed faults.old;
            })
            (record {
              server = self.new;
              log = log;
              faults = writer_of F.holds F.failed faults.new;
            }) }
        ensures counted { self.new.left ≡ self.old.left - 1 }
    {
        if self.left > 0 {
            draw(&mut self.words);
            self.left -= 1;
            self.tally
                .counts
                .count(Err(fault), PathSet::All, None, self.now);
            tell_fault(faults, fault);
        }
    }

    /// Counts some connections that ended before their requests were whole, if any are left.
    pub(crate) fn miss_each<F: Sink>(&mut self, count: u64, fault: EdgeFault, faults: &mut F)
        requires { IsUnread fault }
        ensures goes { (log : Option (List ℕ)) → Goes
            (record {
              server = self.old;
              log = log;
              faults = writer_of F.holds F.failed faults.old;
            })
            (record {
              server = self.new;
              log = log;
              faults = writer_of F.holds F.failed faults.new;
            }) }
        ensures counted { self.new.left ≡ self.old.left - count }
    {
        for _ in 0..count {
            self.miss(fault, faults);
        }
    }

    /// Counts each of some kept connections that ended behind its last reply, if any is left to be
    /// served. No line is written of them.
    pub(crate) fn part_each(&mut self, count: u64)
        ensures goes { (log : Option (List ℕ)) (faults : Writer) → Goes
            (record { server = self.old; log = log; faults = faults })
            (record { server = self.new; log = log; faults = faults }) }
        ensures counted { self.new.left ≡ self.old.left - count }
    {
        for _ in 0..count {
            self.part();
        }
    }

    // Counts a kept connection that ended behind its last reply, if any is left to be served.
    fn part(&mut self)
        ensures goes { (log : Option (List ℕ)) (faults : Writer) → Goes
            (record { server = self.old; log = log; faults = faults })
            (record { server = self.new; log = log; faults = faults }) }
        ensures counted { self.new.left ≡ self.old.left - 1 }
    {
        if self.left == 0 {
            return;
        }
        draw(&mut self.words);
        self.left -= 1;
    }

    /// Writes the line of the fault of the last connection that was decided. Returns whether it had
    /// one.
    pub(crate) fn tell<F: Sink>(&mut self, faults: &mut F) -> bool
        ensures fault { self.new ≡ record self.old { fault = None } }
        ensures told { ReportsOf self.old.fault (writer_of F.holds F.failed faults.old)
            (writer_of F.holds F.failed faults.new) }
    {
        match self.fault {
            Some(fault) => {
                self.fault = None;
                tell_fault(faults, fault);
                true
            }
            None => false,
        }
    }
}
