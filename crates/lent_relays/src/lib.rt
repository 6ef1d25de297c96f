// Heartbeat and give-back on a relay table that is lent as a slice of records, by a caller who keeps it himself.
//
// Two thin functions change one record of a lent slice (one_row). What becomes of the record is in records, every decision of the two
// calls in limits and answers.
#![tactic(auto)]

mod answers;
mod calls;
mod limits;
mod one_row;
mod records;
mod row_set;

pub use answers::no_health;
pub use calls::{give_back, heartbeat};
pub use one_row::{beat_at, give_back_at};
pub use row_set::give_back_set;
