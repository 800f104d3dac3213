//! The lives that a new client is registered with.

ghost use Rattle.std.specs.Prelude.{◌≡◌, ◌<◌, ◌^◌, IfOk, IsTrue};
ghost use Rattle.std.specs.Option.{option_copied};
ghost use Rattle.tk_fact.specs.Check.{are_lives};
ghost use Rattle.tk_authorize.specs.Lives as spec;

use crate::admin_refusal::AdminRefusal;
use tk_fact::{ClientKind, ClientLives, MAX_ACCESS_LIFE, MAX_FAMILY_LIFE, MAX_REFRESH_LIFE};
use tk_format::{Numeral, read_numeral};
use tk_message::Params;

// Returns the lives that the parameters send, if any.
pub(crate) fn lives_sent(params: &Params) -> Result<Option<ClientLives>, AdminRefusal>
    ensures value { result ≡ spec.lives_sent params.now }
    ensures sound { IfOk result (λ lives. IsTrue (are_lives lives)) }
{
    lives_asked(
        params.value("access_life"),
        params.value("refresh_life"),
        params.value("family_life"),
    )
}

// Returns the lives by their parameters, if any is sent. A life that isn't sent is the longest.
fn lives_asked(
    access: Option<&str>,
    refresh: Option<&str>,
    family: Option<&str>,
) -> Result<Option<ClientLives>, AdminRefusal>
    ensures value { result ≡ spec.lives_asked (option_copied access.entry)
        (option_copied refresh.entry) (option_copied family.entry) }
    ensures sound { IfOk result (λ lives. IsTrue (are_lives lives)) }
{
    if access.is_none() && refresh.is_none() && family.is_none() {
        return Ok(None);
    }
    let Some(access) = life_asked(MAX_ACCESS_LIFE, access) else {
        return Err(AdminRefusal::WrongLife);
    };
    let Some(refresh) = life_asked(MAX_REFRESH_LIFE, refresh) else {
        return Err(AdminRefusal::WrongLife);
    };
    let Some(family) = life_asked(MAX_FAMILY_LIFE, family) else {
        return Err(AdminRefusal::WrongLife);
    };
    Ok(Some(ClientLives {
        access,
        refresh,
        family,
    }))
}

// Returns the life by its parameter, or the longest if it isn't sent. `None` if the text is no
// life.
fn life_asked(longest: u64, life: Option<&str>) -> Option<u64>
    requires { longest < 2 ^ 32 }
    ensures { result ≡ spec.life_asked longest (option_copied life.entry) }
{
    let Some(life) = life else {
        return Some(longest);
    };
    match read_numeral(life.as_bytes(), longest as u32) {
        Numeral::Within(0) => None,
        Numeral::Within(life) => Some(u64::from(life)),
        Numeral::Above | Numeral::Malformed => None,
    }
}

// Returns the lives of a client of the kind. A resource server may not have any.
pub(crate) fn lives_allowed(
    client_kind: &ClientKind,
    lives: Result<Option<ClientLives>, AdminRefusal>,
) -> Result<Option<ClientLives>, AdminRefusal>
    requires { IfOk lives (λ lives. IsTrue (are_lives lives)) }
    ensures value { result ≡ spec.lives_allowed client_kind.now lives }
    ensures sound { IfOk result (λ lives. IsTrue (are_lives lives)) }
{
    match client_kind {
        ClientKind::Resource(_) => match lives {
            Ok(Some(_)) => Err(AdminRefusal::WrongLife),
            Ok(None) => Ok(None),
            Err(why) => Err(why),
        },
        ClientKind::Public | ClientKind::Confidential(_) | ClientKind::Keeping(_) => lives,
    }
}
