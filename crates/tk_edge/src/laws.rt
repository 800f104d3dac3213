//! Laws of the definitions: the meaning of a stream is unique, a bundle that the terms refuse is a
//! lost one, and a redirect with its issuer leads where it did.

ghost use Rattle.tk_edge.specs.Laws.{AcceptsAll, HasOneMeaning, HearsAll, RefusedIsLost};
ghost use Rattle.tk_edge.specs.Laws.{AddsIssuer, LeadsAlike, TakesAsRegion};

/// States that a stream has at most one meaning. The call does nothing at run time.
pub fn one_meaning()
    ensures { HasOneMeaning }
{}

/// States that no exchange arrives over a connection unless all paths are served there, and no
/// request for a notice unless that is. The call does nothing at run time.
pub fn hears_all()
    ensures { HearsAll }
{}

/// States that a pushed bundle that the terms refuse is a lost one: the result is why, unless
/// memory ran out, and the region is unchanged. The call does nothing at run time.
pub fn refused_is_lost()
    ensures { RefusedIsLost }
{}

/// States that an edge takes a bundle that the terms don't refuse in, or refuses it, as its region
/// does. The call does nothing at run time.
pub fn takes_as_region()
    ensures { TakesAsRegion }
{}

/// States that the terms that accept all refuse no bundle. The call does nothing at run time.
pub fn accepts_all()
    ensures { AcceptsAll }
{}

/// States that a redirect with its issuer has one parameter more, `iss`. The call does nothing at
/// run time.
pub fn adds_issuer()
    ensures { AddsIssuer }
{}

/// States that a redirect to a registered URI of a client leads to such a URI with its issuer, too.
/// The call does nothing at run time.
pub fn leads_alike()
    ensures { LeadsAlike }
{}
