// The first checks of a commit, which read the volumes and the tokens and neither the entries nor the relays.
#![tactic(auto)]

mod early;

pub use early::{early_refusal, token_fault};
