// The entries of a replay as it keeps them: a path is compared in the journal itself, and no text is made. What each function answers is what
// the rows say that the kept rows stand for.
#![tactic(auto)]

mod marks;
mod paths;
mod room;
mod stores;
mod walk;

pub use marks::{clear_kept_entries, kept_sizes, kept_volumes, mark_kept_path};
pub use paths::{find_kept_entry, is_kept_entry};
pub use room::give_kept_back;
pub use stores::{mark_kept_replaced, store_kept};
pub use walk::kept_survey;
