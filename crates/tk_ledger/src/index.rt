//! The tables of a ledger beside its facts, and the change that one more fact makes in them.
//!
//! - Tables by key: clients (`client_rows`), live consents and withdrawals (`consent_keys`),
//!   revocations (`revocations`), the codes, logins and sign-outs of subjects (`subject_keys`),
//!   reuses (`reuses`), and the secrets of clients (`secrets`).
//! - A forest of families, with the marks of all codes and refresh tokens in a family.
//!
//! `change` has the change that a fact makes in the index, and `unfollow` undoes it for a fact that
//! is lost. `wake` writes the marks at a dot anew: of refresh tokens that their client revoked,
//! codes whose subject signed out, and tokens whose reuse was seen, whichever fact arrives first.

use crate::client_rows::ClientRow;
use crate::consent_keys::ConsentKey;
use crate::reuses::ReuseKey;
use crate::revocations::Revocation;
use crate::secrets::SecretKey;
use crate::subject_keys::{CodeKey, LoginKey, OutKey};
use std::collections::{BTreeMap, BTreeSet};
use tk_family::Forest;
use tk_handle::Dot;

// The tables of the facts that are held. `IsIndexed` of `specs/Index.antt` says what each has.
#[derive(Drop)]
pub(crate) struct Index {
    // Each dot at which a client was added or which a retirement names, and which of both.
    pub(crate) clients: BTreeMap<Dot, ClientRow>,
    // Each consent that was given and that no withdrawal names.
    pub(crate) consents: BTreeSet<ConsentKey>,
    // Each dot that a withdrawal names.
    pub(crate) withdrawn: BTreeSet<Dot>,
    // Each revocation, whether or not there is such a token.
    pub(crate) revocations: BTreeSet<Revocation>,
    // Each code that was issued, by its start: for sign-outs.
    pub(crate) codes: BTreeSet<CodeKey>,
    // The login that each code began, by the dot of the code: for lists.
    pub(crate) logins: BTreeSet<LoginKey>,
    // Each sign-out.
    pub(crate) outs: BTreeSet<OutKey>,
    // Each reuse that was seen.
    pub(crate) reuses: BTreeSet<ReuseKey>,
    // Each secret that was set for a client.
    pub(crate) secrets: BTreeSet<SecretKey>,
    // The links of codes, redemptions and rotations, and the marks of those in a family.
    pub(crate) forest: Forest,
}

ghost use Rattle.std.specs.Prelude.{◌≡◌, Some, OnOk, OnErr};
ghost use Rattle.std.specs.FinMap as map;
ghost use Rattle.std.specs.Option.{option_map};
ghost use Rattle.tk_store.specs.StoreFields.{held_facts};
ghost use Rattle.tk_ledger.specs.Changes.{change_in};
ghost use Rattle.tk_ledger.specs.Index.{IsRevocations, IsReuses, IsTied, IsIndexed};
ghost use Rattle.tk_ledger.specs.SubjectTables.{IsOuts};
ghost use Rattle.tk_ledger.specs.Tokens.{links_in};
ghost use Rattle.tk_ledger.specs.declared.change.Change.TheVariants as change_as;

use crate::change::{Change, RevokedToken, digest_prefix};
use crate::client_rows::{add_client, retire_client};
use crate::consent_keys::{give, withdraw};
use crate::reuses::list_reuse;
use crate::revocations::revoke;
use crate::secrets::list_secret;
use crate::sign_outs::first_left;
use crate::subject_keys::{drop_code, drop_login, list_code, list_login, list_out};
use crate::wake::{wake, wake_all, wake_started};
use std::alloc::{AllocError, Global};
use tk_family::Link;
use tk_handle::{Moment, TokenId};
use tk_store::FactStore;

impl Index {
    // Returns the tables of no fact.
    pub(crate) fn new(alloc: Global) -> Index
        ensures { IsIndexed map.empty result }
    {
        Index {
            clients: BTreeMap::new(alloc),
            consents: BTreeSet::new(alloc),
            withdrawn: BTreeSet::new(alloc),
            revocations: BTreeSet::new(alloc),
            codes: BTreeSet::new(alloc),
            logins: BTreeSet::new(alloc),
            outs: BTreeSet::new(alloc),
            reuses: BTreeSet::new(alloc),
            secrets: BTreeSet::new(alloc),
            forest: Forest::new(alloc),
        }
    }
}

// Adds a link to the forest, and writes the marks at the dots that the link brings under a code.
// Only the link allocates memory.
fn put_link(
    facts: &FactStore,
    revocations: &BTreeSet<Revocation>,
    outs: &BTreeSet<OutKey>,
    reuses: &BTreeSet<ReuseKey>,
    forest: &mut Forest,
    dot: Dot,
    link: Link,
) -> Result<(), AllocError>
    requires link { links_in (map.get (held_facts facts.now)) dot ≡ Some link }
    requires revocations { IsRevocations (held_facts facts.now) revocations.now }
    requires outs { IsOuts (held_facts facts.now) outs.now }
    requires reuses { IsReuses (held_facts facts.now) reuses.now }
    requires tied { IsTied (map.remove (held_facts facts.now) dot) forest.old }
    ensures ok { OnOk result (IsTied (held_facts facts.now) forest.new) }
    ensures err { OnErr result (IsTied (map.remove (held_facts facts.now) dot) forest.new) }
{
    match forest.put(dot, link) {
        Ok(raised) => {
            wake_all(facts, revocations, outs, reuses, forest, raised.as_slice());
            Ok(())
        }
        Err(error) => Err(error),
    }
}

// Adds the keys of a code and of its login, and its link. If memory runs out at one of them, those
// added before it are removed again.
fn issue_code(
    facts: &FactStore,
    index: &mut Index,
    dot: Dot,
    prefix: u64,
    start: Moment,
) -> Result<(), AllocError>
    requires change { option_map change_in (map.get (held_facts facts.now) dot)
        ≡ Some (change_as.Issue prefix start) }
    requires indexed { IsIndexed (map.remove (held_facts facts.now) dot) index.old }
    ensures ok { OnOk result (IsIndexed (held_facts facts.now) index.new) }
    ensures err { OnErr result (IsIndexed (map.remove (held_facts facts.now) dot) index.new) }
{
    if let Err(error) = list_code(&mut index.codes, prefix, start, dot) {
        return Err(error);
    }
    if let Err(error) = list_login(&mut index.logins, prefix, dot) {
        drop_code(&mut index.codes, prefix, start, dot);
        return Err(error);
    }
    match put_link(
        facts,
        &index.revocations,
        &index.outs,
        &index.reuses,
        &mut index.forest,
        dot,
        Link::Code,
    ) {
        Ok(()) => Ok(()),
        Err(error) => {
            drop_code(&mut index.codes, prefix, start, dot);
            drop_login(&mut index.logins, prefix, dot);
            Err(error)
        }
    }
}

// Adds the link of a grant that was used.
fn use_grant(facts: &FactStore, index: &mut Index, dot: Dot, link: Link) -> Result<(), AllocError>
    requires change { option_map change_in (map.get (held_facts facts.now) dot)
        ≡ Some (change_as.Put link) }
    requires indexed { IsIndexed (map.remove (held_facts facts.now) dot) index.old }
    ensures ok { OnOk result (IsIndexed (held_facts facts.now) index.new) }
    ensures err { OnErr result (IsIndexed (map.remove (held_facts facts.now) dot) index.new) }
{
    put_link(
        facts,
        &index.revocations,
        &index.outs,
        &index.reuses,
        &mut index.forest,
        dot,
        link,
    )
}

// Adds the key of a reuse, and writes the marks at its token's dot.
fn mark_token(
    facts: &FactStore,
    index: &mut Index,
    dot: Dot,
    token: TokenId,
) -> Result<(), AllocError>
    requires change { option_map change_in (map.get (held_facts facts.now) dot)
        ≡ Some (change_as.Mark token) }
    requires indexed { IsIndexed (map.remove (held_facts facts.now) dot) index.old }
    ensures ok { OnOk result (IsIndexed (held_facts facts.now) index.new) }
    ensures err { OnErr result (IsIndexed (map.remove (held_facts facts.now) dot) index.new) }
{
    match list_reuse(&mut index.reuses, &token, dot) {
        Ok(()) => {
            wake(
                facts,
                &index.revocations,
                &index.outs,
                &index.reuses,
                &mut index.forest,
                token.dot,
            );
            Ok(())
        }
        Err(error) => Err(error),
    }
}

// Adds the key of a revocation, and writes the marks at its token's dot.
fn revoke_token(
    facts: &FactStore,
    index: &mut Index,
    dot: Dot,
    fact: &RevokedToken,
) -> Result<(), AllocError>
    requires change { option_map change_in (map.get (held_facts facts.now) dot)
        ≡ Some (change_as.Revoke fact.now) }
    requires indexed { IsIndexed (map.remove (held_facts facts.now) dot) index.old }
    ensures ok { OnOk result (IsIndexed (held_facts facts.now) index.new) }
    ensures err { OnErr result (IsIndexed (map.remove (held_facts facts.now) dot) index.new) }
{
    match revoke(
        &mut index.revocations,
        &fact.token,
        &fact.digest,
        fact.client,
        dot,
    ) {
        Ok(()) => {
            wake(
                facts,
                &index.revocations,
                &index.outs,
                &index.reuses,
                &mut index.forest,
                fact.token.dot,
            );
            Ok(())
        }
        Err(error) => Err(error),
    }
}

// Adds the key of a sign-out, and writes the marks at the subject's codes that it stops: those that
// no sign-out held before had stopped. A sign-out that is not later than one held before looks at
// no code.
fn sign_out(
    facts: &FactStore,
    index: &mut Index,
    dot: Dot,
    subject: &[u8; 32],
    moment: Moment,
) -> Result<(), AllocError>
    requires change { option_map change_in (map.get (held_facts facts.now) dot)
        ≡ Some (change_as.SignOut subject.now moment) }
    requires indexed { IsIndexed (map.remove (held_facts facts.now) dot) index.old }
    ensures ok { OnOk result (IsIndexed (held_facts facts.now) index.new) }
    ensures err { OnErr result (IsIndexed (map.remove (held_facts facts.now) dot) index.new) }
{
    let first = first_left(facts, &index.outs, dot);
    match list_out(&mut index.outs, subject, moment, dot) {
        Ok(()) => {
            let last = moment.seconds();
            let prefix = digest_prefix(subject);
            wake_started(
                facts,
                &index.revocations,
                &index.codes,
                &index.outs,
                &index.reuses,
                &mut index.forest,
                prefix,
                first,
                last,
            );
            Ok(())
        }
        Err(error) => Err(error),
    }
}

// Brings the tables up to date with the fact at the dot, which is in the store already. If memory
// runs out, the tables are those of the facts without this one.
pub(crate) fn follow(
    facts: &FactStore,
    index: &mut Index,
    dot: Dot,
    change: &Change,
) -> Result<(), AllocError>
    requires change { option_map change_in (map.get (held_facts facts.now) dot) ≡ Some change.now }
    requires indexed { IsIndexed (map.remove (held_facts facts.now) dot) index.old }
    ensures ok { OnOk result (IsIndexed (held_facts facts.now) index.new) }
    ensures err { OnErr result (IsIndexed (map.remove (held_facts facts.now) dot) index.new) }
{
    match change {
        Change::Add => add_client(&mut index.clients, dot),
        Change::Retire(client) => retire_client(&mut index.clients, *client),
        Change::Give { client, subject } => give(
            &mut index.consents,
            &index.withdrawn,
            *client,
            subject,
            dot,
        ),
        Change::Withdraw(consent) => withdraw(
            facts,
            &mut index.consents,
            &mut index.withdrawn,
            *consent,
        ),
        Change::Issue { prefix, start } => issue_code(facts, index, dot, *prefix, *start),
        Change::Put(link) => use_grant(facts, index, dot, *link),
        Change::Revoke(fact) => revoke_token(facts, index, dot, fact),
        Change::Mark(token) => mark_token(facts, index, dot, *token),
        Change::SignOut { subject, moment } => sign_out(facts, index, dot, subject, *moment),
        Change::SetSecret {
            client,
            turn,
            digest,
        } => list_secret(&mut index.secrets, *client, *turn, digest, dot),
        Change::Nothing => Ok(()),
    }
}
