//! The tables of codes, of logins and of sign-outs, by subject.

use tk_handle::Dot;

// The key of a code: the first 8 bytes of the SHA-256 digest of its subject as a number, the second
// of its start, and its dot. The codes of a subject are in the order of their starts. Codes of
// another subject, whose digest begins alike, may be among them.
#[derive(Clone, Copy, PartialEq, Eq, PartialOrd, Ord)]
pub(crate) struct CodeKey {
    pub(crate) prefix: u64,
    pub(crate) start: u64,
    pub(crate) code: Dot,
}

// The key of a login: the first 8 bytes of the SHA-256 digest of its subject as a number, and the
// dot of the code that began it. The logins of a subject are in the order of these dots. Logins of
// another subject, whose digest begins alike, may be among them.
#[derive(Clone, Copy, PartialEq, Eq, PartialOrd, Ord)]
pub(crate) struct LoginKey {
    pub(crate) prefix: u64,
    pub(crate) code: Dot,
}

// The key of a sign-out: the SHA-256 digest of its subject, the seconds left after its moment, and
// its dot. The last sign-out of a subject is the first of its keys.
#[derive(Clone, Copy, PartialEq, Eq, PartialOrd, Ord)]
pub(crate) struct OutKey {
    pub(crate) subject: [u8; 32],
    // The seconds from the sign-out's moment to the greatest moment.
    pub(crate) left: u64,
    pub(crate) place: Dot,
}

ghost use Rattle.std.specs.Prelude.{◌≡◌, OnOk, OnErr, cond, true, false, Some};
ghost use Rattle.std.specs.BTreeSet.{contains};
ghost use Rattle.std.specs.Ordering.{eq_by_cmp};
ghost use Rattle.tk_handle.specs.Dot.{IsDot, least_dot, greatest_dot};
ghost use Rattle.tk_handle.specs.Ranges.{IsMoment, max_moment};
ghost use Rattle.tk_handle.specs.declared.dot.Dot.{Dot as the_dot};
ghost use Rattle.tk_ledger.specs.SubjectTables.{
  code_cmp,
  code_key,
  login_cmp,
  login_key,
  login_start,
  out_cmp,
  out_key,
  left_after,
};
ghost use Rattle.tk_ledger.specs.declared.subject_keys.CodeKey.{CodeKey as the_code};
ghost use Rattle.tk_ledger.specs.declared.subject_keys.LoginKey.{LoginKey as the_login};
ghost use Rattle.tk_ledger.specs.declared.subject_keys.OutKey.{OutKey as the_out};

use std::alloc::AllocError;
use std::collections::BTreeSet;
use std::ops::Bound;
use tk_handle::Moment;

// ---- codes

// Notes a code.
pub(crate) fn list_code(
    codes: &mut BTreeSet<CodeKey>,
    prefix: u64,
    start: Moment,
    code: Dot,
) -> Result<(), AllocError>
    ensures ok { OnOk result ((k : the_code) → contains code_cmp codes.new k
        ≡ cond (eq_by_cmp code_cmp (code_key prefix start code) k) true
        (contains code_cmp codes.old k)) }
    ensures err { OnErr result ((k : the_code)
        → contains code_cmp codes.new k ≡ contains code_cmp codes.old k) }
    ensures ranged { IsDot code }
{
    let _ranges = (code.region(), code.serial());
    codes.insert(CodeKey {
        prefix,
        start: start.seconds(),
        code,
    })?;
    Ok(())
}

// Removes the key of a code.
pub(crate) fn drop_code(codes: &mut BTreeSet<CodeKey>, prefix: u64, start: Moment, code: Dot)
    ensures { (k : the_code) → contains code_cmp codes.new k
        ≡ cond (eq_by_cmp code_cmp (code_key prefix start code) k) false
        (contains code_cmp codes.old k) }
{
    codes.remove(&CodeKey {
        prefix,
        start: start.seconds(),
        code,
    });
}

// Returns the least and the greatest key that a code under the prefix can have which starts in the
// seconds from `first` to `last`.
pub(crate) fn code_span(prefix: u64, first: u64, last: u64) -> (CodeKey, CodeKey)
    ensures first { result.0 ≡ code_key prefix first least_dot }
    ensures last { result.1 ≡ code_key prefix last greatest_dot }
{
    let key = |start: u64, code: Dot| CodeKey {
        prefix,
        start,
        code,
    };
    (key(first, Dot::least()), key(last, Dot::greatest()))
}

// ---- logins

// Notes the login that a code began.
pub(crate) fn list_login(
    logins: &mut BTreeSet<LoginKey>,
    prefix: u64,
    code: Dot,
) -> Result<(), AllocError>
    ensures ok { OnOk result ((k : the_login) → contains login_cmp logins.new k
        ≡ cond (eq_by_cmp login_cmp (login_key prefix code) k) true
        (contains login_cmp logins.old k)) }
    ensures err { OnErr result ((k : the_login)
        → contains login_cmp logins.new k ≡ contains login_cmp logins.old k) }
    ensures ranged { IsDot code }
{
    let _ranges = (code.region(), code.serial());
    logins.insert(LoginKey { prefix, code })?;
    Ok(())
}

// Removes the key of a login.
pub(crate) fn drop_login(logins: &mut BTreeSet<LoginKey>, prefix: u64, code: Dot)
    ensures { (k : the_login) → contains login_cmp logins.new k
        ≡ cond (eq_by_cmp login_cmp (login_key prefix code) k) false
        (contains login_cmp logins.old k) }
{
    logins.remove(&LoginKey { prefix, code });
}

// Returns where the keys of the logins under the prefix begin that are above the dot, or above
// none.
pub(crate) fn logins_from(prefix: u64, after: Option<Dot>) -> Bound<LoginKey>
    ensures value { result ≡ login_start prefix after }
    ensures ranged { (d : the_dot) → after ≡ Some d → IsDot d }
{
    let key = |code: Dot| LoginKey { prefix, code };
    match after {
        Some(dot) => {
            let _ranges = (dot.region(), dot.serial());
            Bound::Excluded(key(dot))
        }
        None => Bound::Included(key(Dot::least())),
    }
}

// Returns the greatest key that a login under the prefix can have.
pub(crate) fn last_login(prefix: u64) -> LoginKey
    ensures { result ≡ login_key prefix greatest_dot }
{
    LoginKey {
        prefix,
        code: Dot::greatest(),
    }
}

// ---- sign-outs

// Returns the seconds from the moment to the greatest moment.
pub(crate) fn left(moment: Moment) -> u64
    ensures value { result ≡ left_after moment }
    ensures ranged { IsMoment moment }
{
    Moment::MAX - moment.seconds()
}

// Notes a sign-out.
pub(crate) fn list_out(
    outs: &mut BTreeSet<OutKey>,
    subject: &[u8; 32],
    moment: Moment,
    place: Dot,
) -> Result<(), AllocError>
    ensures ok { OnOk result ((k : the_out)
        → contains out_cmp outs.new k ≡ cond
        (eq_by_cmp out_cmp (out_key subject.now (left_after moment) place) k) true
        (contains out_cmp outs.old k)) }
    ensures err { OnErr result ((k : the_out)
        → contains out_cmp outs.new k ≡ contains out_cmp outs.old k) }
    ensures ranged { IsDot place }
    ensures early { IsMoment moment }
{
    let _ranges = (place.region(), place.serial());
    outs.insert(OutKey {
        subject: *subject,
        left: left(moment),
        place,
    })?;
    Ok(())
}

// Returns the least and the greatest key that a sign-out of the subject can have.
pub(crate) fn out_span(subject: &[u8; 32]) -> (OutKey, OutKey)
    ensures first { result.0 ≡ out_key subject.now 0 least_dot }
    ensures last { result.1 ≡ out_key subject.now max_moment greatest_dot }
{
    let key = |left: u64, place: Dot| OutKey {
        subject: *subject,
        left,
        place,
    };
    (key(0, Dot::least()), key(Moment::MAX, Dot::greatest()))
}
