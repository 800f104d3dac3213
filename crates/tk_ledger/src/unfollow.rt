//! The loss of a fact: the tables of the other facts. Nothing here allocates memory.

ghost use Rattle.std.specs.Prelude.{◌≡◌, true};
ghost use Rattle.tk_store.specs.StoreFields.{held_facts};
ghost use Rattle.tk_ledger.specs.Index.{IsIndexed};
ghost use Rattle.tk_ledger.specs.Losses.{WasIndexed, passes};

use crate::change::Change;
use crate::index::Index;
use crate::reuses::drop_reuse;
use crate::revocations::drop_revocation;
use crate::subject_keys::{drop_code, drop_login};
use crate::wake::wake;
use tk_handle::Dot;
use tk_store::FactStore;

// Brings the tables up to date with the loss of the fact at the dot, which the store does not hold
// any more.
pub(crate) fn unfollow(facts: &FactStore, index: &mut Index, dot: Dot, change: &Change)
    requires passes { passes change.now ≡ true }
    requires lost { WasIndexed (held_facts facts.now) dot change.now index.old }
    ensures { IsIndexed (held_facts facts.now) index.new }
{
    match change {
        Change::Issue { prefix, start } => {
            drop_code(&mut index.codes, *prefix, *start, dot);
            drop_login(&mut index.logins, *prefix, dot);
            index.forest.take(dot);
        }
        Change::Put(_) => index.forest.take(dot),
        Change::Revoke(fact) => {
            drop_revocation(
                &mut index.revocations,
                &fact.token,
                &fact.digest,
                fact.client,
                dot,
            );
            wake(
                facts,
                &index.revocations,
                &index.outs,
                &index.reuses,
                &mut index.forest,
                fact.token.dot,
            );
        }
        Change::Mark(token) => {
            drop_reuse(&mut index.reuses, token, dot);
            wake(
                facts,
                &index.revocations,
                &index.outs,
                &index.reuses,
                &mut index.forest,
                token.dot,
            );
        }
        Change::Nothing => {}
        _ => unreachable!("no other change is undone"),
    }
}
