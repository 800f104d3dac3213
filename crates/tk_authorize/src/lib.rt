//! Decisions of authorization and administration requests: the replies, and the facts made.
//!
//! `decide_authorize` (RFC 6749, 4.1.1 to 4.1.2.1; RFC 7636, 4.3 and 4.4) decides a request to
//! `/authorize`. First it judges the request, by the facts and the parameters alone: a `Refusal` is
//! an error in place, a `Denial` one at the client's redirection URI, and an `Approval` is what a
//! code is issued for. Then the judgement becomes the reply, and the fact if a code is issued.
//!
//! `decide_admin` (own) decides a request to an endpoint under `/admin/`: clients are added, shown
//! and retired, their secrets are changed, consents are given and withdrawn, subjects are signed
//! out everywhere, logins are ended. An `AdminRefusal` is the first case of the endpoint that held;
//! `decide_clients` lists clients, and `decide_subject` what a subject has.
//!
//! Who has signed in, what the subject consents to, and which operator administers, is reported by
//! the front end. Who may send requests to `/admin/` is left to the deployment.
//!
//! In reading order: `Refusal`, `Denial`, `challenge`, `Asked`, `Approval`, `Judged`,
//! `decide_authorize`; then `AdminRefusal`, `operators`, `client_params`, `lives`, `registration`,
//! `clients`, `secrets`, `consents`, `sign_outs`, `logins`, `Administered`, `chosen`,
//! `decide_admin`, `decide_clients`, `decide_subject`. `specs/Lib.antt` lists the definitions.
#![tactic(auto)]

mod admin_refusal;
mod administered;
mod administration;
mod approval;
mod asked;
mod authorization;
mod challenge;
mod chosen;
mod client_params;
mod clients;
mod consents;
mod denial;
mod judged;
mod listing;
mod lives;
mod logins;
mod operators;
mod refusal;
mod registration;
mod secrets;
mod sign_outs;
mod subject_listing;

pub use administration::decide_admin;
pub use authorization::decide_authorize;
pub use listing::decide_clients;
pub use subject_listing::decide_subject;
