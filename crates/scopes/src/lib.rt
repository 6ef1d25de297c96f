// Tests on the scope of a token: whether one that a call names is within the limits, and whether a child's narrows its parent's.
#![tactic(auto)]

mod scope;

pub use scope::{narrows, scope_fits};
