//! Decisions of token requests: codes are redeemed, and refresh tokens rotated or, by clients that
//! keep them, used again.
//!
//! `decide_token` (RFC 6749, 4.1.3, 4.1.4, 5 and 6; RFC 7636, 4.5 and 4.6) decides a request to
//! `/token`. First the request is judged, by the facts, the moment and the parameters:
//!
//! - A `Refusal` is the first case that held.
//! - The reuse of a code or refresh token has a judgement of its own, and makes a fact.
//! - A `Grant` is what tokens are minted for, with the lives that the client was registered with.
//!
//! Then the judgement becomes the reply, and the fact if one is made. Both grants go through one
//! `Gate`: whether the code or refresh token that was sent can be redeemed. The crate adds no fact
//! and draws no random words: the region does the one, and the other come with each request.
//!
//! In reading order: `Refusal`, `Gate`, `Grant`, `Judged`, `redeem`, `grant_asked`, `rotate`,
//! `renew`, `decide_token`, `repeat_of`, `grants_alike`, `grants_within`, `repeats_reply`,
//! `refreshes_anew`. The definitions are in `specs/`: `Refusal`, `Gate`, `Redeemed`,
//! `ScopeGranted`, `Rotated`, `Renewed`, `Judged`, `Granted`, `Repeat`, `Within`. `SoundGate` and
//! `SoundJudged` define what makes each fact pass its check.
#![tactic(auto)]

mod gate;
mod granted;
mod judged;
mod laws;
mod redeem;
mod refusal;
mod renew;
mod repeat;
mod rotate;
mod scope_granted;

pub use granted::decide_token;
pub use laws::{grants_alike, grants_within, refreshes_anew, repeats_reply};
pub use repeat::{is_again, is_refresh_request, repeat_of};
