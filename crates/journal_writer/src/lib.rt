// The record writer of document 01's journal: `journal` has the table of fields that it goes by, and the definitions. What it writes, the
// reader of `journal` gives back.
#![tactic(auto)]

mod bytes;
mod write;

pub use write::write_record;
