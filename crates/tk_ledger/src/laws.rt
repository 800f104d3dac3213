//! The laws of the ledger: functions with empty bodies, whose contracts hold of all sets of facts.

ghost use Rattle.tk_ledger.specs.Laws.{
  UsedDecided,
  TwiceDecided,
  RevokedDecided,
  EndedDecided,
  MarkedDecided,
  DeadDecided,
  RetiredDecided,
  WithdrawnDecided,
  LiveClientDecided,
  LiveConsentDecided,
  UsesAgree,
  DeathStays,
  EndedStays,
  RetiredStays,
  WithdrawnStays,
  UnseenExactly,
  WrongExactly,
  BrokenExactly,
  KnownExactly,
  RevokedInactive,
  SignedOutInactive,
  FamilyInactive,
  BadGrants,
  SecretsEnd,
  TurnsGrow,
};
ghost use Rattle.tk_ledger.specs.Slices.{PassEnds};

/// States a law: each test of a set of facts decides the relation of its name (own).
pub fn tests_decide()
    ensures used { UsedDecided }
    ensures twice { TwiceDecided }
    ensures revoked { RevokedDecided }
    ensures ended { EndedDecided }
    ensures marked { MarkedDecided }
    ensures dead { DeadDecided }
    ensures retired { RetiredDecided }
    ensures withdrawn { WithdrawnDecided }
    ensures live_client { LiveClientDecided }
    ensures live_consent { LiveConsentDecided }
{}

/// States a law: the code or refresh token that a fact uses is the one that its link uses (RFC
/// 6749, 4.1.2 and 6).
pub fn uses_agree()
    ensures { UsesAgree }
{}

/// States a law: a dead family stays dead when facts are added (own).
pub fn death_stays()
    ensures { DeathStays }
{}

/// States a law: a token that its client revoked stays revoked when facts are added (own).
pub fn ended_stays()
    ensures { EndedStays }
{}

/// States a law: a client that a retirement names is not live, whatever facts are added (own).
pub fn retired_stays()
    ensures { RetiredStays }
{}

/// States a law: a consent that a withdrawal names is not live, whatever facts are added (own).
pub fn withdrawn_stays()
    ensures { WithdrawnStays }
{}

/// States a law: each status is returned for exactly the handles that it describes (own).
///
/// - `Unseen`: there is no fact at the token's dot.
/// - `Wrong`: the fact at the token's dot did not mint the token.
/// - `Broken`: the token was minted, and is under no code.
/// - `Known`: the token was minted, and is under a code.
pub fn status_says()
    ensures unseen { UnseenExactly }
    ensures wrong { WrongExactly }
    ensures broken { BrokenExactly }
    ensures known { KnownExactly }
{}

/// States a law: a token that its client revoked is not active, at any moment and whatever facts
/// are added (RFC 7009, 2.1).
pub fn revoked_inactive()
    ensures { RevokedInactive }
{}

/// States a law: no token of a family with a bad grant is active, at any moment and whatever facts
/// are added (RFC 6749, 4.1.2, 10.4 and 10.5).
pub fn family_inactive()
    ensures { FamilyInactive }
{}

/// States a law about minted codes and refresh tokens. Such a token is a bad grant exactly if one
/// of these holds:
///
/// - Two facts use the token (RFC 6749, 4.1.2, 10.4 and 10.5).
/// - The token's reuse was seen (RFC 6749, 4.1.2, 10.4 and 10.5).
/// - The token is a refresh token that its client revoked (RFC 7009, 2.1).
/// - The token is a code whose subject signed out at its start or later (own).
pub fn bad_grants()
    ensures { BadGrants }
{}

/// States a law: no token under a code whose subject signed out everywhere, at the code's start or
/// later, is active, at any moment and whatever facts are added (own).
pub fn signed_out_inactive()
    ensures { SignedOutInactive }
{}

/// States a law: a pass of slices, from no cursor until none is returned, by which no fact went
/// leaves no fact that may go. Each slice looks at one fact or more (own).
pub fn pass_ends()
    ensures { PassEnds }
{}

/// States a law about the secrets of a client. A secret is not good once one of a turn two or more
/// above each of its own is held. The client's last turn is no lower when facts are added (own).
pub fn secrets_end()
    ensures ends { SecretsEnd }
    ensures grows { TurnsGrow }
{}
