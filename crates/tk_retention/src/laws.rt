//! The laws of standing for: functions with empty bodies.

ghost use Rattle.tk_retention.specs.Laws.{
  DecisionStands,
  DropStands,
  FactStands,
  GoesSoundly,
  MadeMeets,
  MarkStands,
  MoreStands,
  Progresses,
  PruneStands,
  RegionStands,
  SliceStands,
  SoundStays,
  StatusStands,
};

/// States a law: from its horizon on, a store answers a handle as the facts for which it stands do.
///
/// The two statuses are equal, or both are of the kind that every endpoint answers as a wrong
/// handle.
pub fn status_stands()
    ensures { StatusStands }
{}

/// States a law: from its horizon on, a store decides each request as the facts for which it stands
/// do. The replies are equal, and so are the facts that are made, with one exception: a client
/// revokes a token of another region that isn't known here, and revoked it before by the facts.
/// That may be decided as if it was the first revocation.
pub fn decision_stands()
    ensures { DecisionStands }
{}

/// States a law: from its horizon on, a region prepares for each request what the facts for which
/// its store stands determine: the reply, the fact that is made, and the record of that fact. The
/// exception of `decision_stands` is one here too.
pub fn region_stands()
    ensures { RegionStands }
{}

/// States a law: a store that was pruned stands for the facts that it stood for.
pub fn prune_stands()
    ensures { PruneStands }
{}

/// States laws of slices of a prune, where all facts made are sound:
///
/// - A fact that goes may be skipped by all facts made, though the store may know less.
/// - A store of which a slice was pruned stands for the facts that it stood for.
/// - As long as a fact is held that may be skipped by all facts for which the store stands, some
///   fact may go. So a family of which some facts are skipped goes whole.
pub fn slices_stand()
    ensures goes { GoesSoundly }
    ensures slice { SliceStands }
    ensures progress { Progresses }
{}

/// States a law: what a store stands for is kept when more facts are made, when a dot is skipped,
/// when a fact comes, and when a fact is dropped at a skipped dot.
pub fn standing_kept()
    ensures made { MoreStands }
    ensures mark { MarkStands }
    ensures fact { FactStands }
    ensures dropped { DropStands }
{}

/// States laws: all facts made stay sound with one more that ends with its family and names what
/// was minted for it, or a link if it refreshed an access token. Each fact that a region makes is
/// one.
pub fn soundness_stays()
    ensures stays { SoundStays }
    ensures made { MadeMeets }
{}
