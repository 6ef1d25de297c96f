// What a commit reads of the tables before its puts are stored: walk.rt the entries, within.rt the limits that its sums rest on.
#![tactic(auto)]

mod walk;
mod within;

pub use walk::survey;
pub use within::{can_check, can_store, others_within};

// What a commit reads of the entries. `marks`: which entries the puts replace. `within`: whether the entries are within their limits. `kept`: the
// bytes of the volume's entries that stay; an entry past its limit is left out. `rows`: how many rows are in use, and how many more the puts need.
#[derive(Clone, Copy)]
pub struct Findings {
    pub marks: [bool; 64],
    pub within: bool,
    pub kept: u64,
    pub rows: usize,
}
