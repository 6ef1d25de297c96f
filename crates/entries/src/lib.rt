// The entry table: entries that go out of it, with the room that they give back, and what a commit stores. Each function reads what it needs
// and gives back what it changes. Every public function answers for every input.
#![tactic(auto)]

mod keys;
mod marks;
mod paths;
mod stores;

pub use marks::{any_mark, clear_marked, give_back, mark_path};
pub use stores::{count_new, mark_replaced, store_all};
