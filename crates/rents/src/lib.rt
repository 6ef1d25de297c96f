// What one epoch costs a volume. Every public function answers for every input.
#![tactic(auto)]

mod price;
mod raw;

pub use price::rent_of;
pub use raw::{entry_sizes, entry_volumes, raw_from};
