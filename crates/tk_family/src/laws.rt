//! The laws of families: functions with empty bodies, whose contracts hold of all links and marks.

ghost use Rattle.tk_family.specs.Laws.{OneCode, RankFalls, ChainLength, WalkEnds, NoRing};
ghost use Rattle.tk_family.specs.Laws.{WalkFinds, UnderStays, TwiceStays, DeathStays};

/// States a law: a dot is under at most one code.
pub fn one_code()
    ensures { OneCode }
{}

/// States a law: from a link to its parent the rank falls by one.
pub fn rank_falls()
    ensures { RankFalls }
{}

/// States a law: a chain from a dot to its code has exactly as many parents as the dot's rank. Of
/// two chains the longer therefore begins at the greater rank.
pub fn chain_length()
    ensures { ChainLength }
{}

/// States a law: a walk from parent to parent is no longer than the rank at its start, and never
/// comes back to where it began. Every walk therefore ends, whatever the links are.
pub fn walk_ends()
    ensures length { WalkEnds }
    ensures no_ring { NoRing }
{}

/// States a law: the walk finds a code exactly if the dot is under that code.
pub fn walk_finds()
    ensures { WalkFinds }
{}

/// States a law: a dot that is under a code stays under it when links are added.
pub fn under_stays()
    ensures { UnderStays }
{}

/// States a law: a token that is used twice stays used twice when links are added.
pub fn twice_stays()
    ensures { TwiceStays }
{}

/// States a law: a dead family stays dead when links and marks are added. Tests give the marks.
pub fn death_stays()
    ensures { DeathStays }
{}
