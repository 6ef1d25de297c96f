// Choosing relays for one put, loading them, and giving room back. Every public function answers for every table.
#![tactic(auto)]

mod choose;
mod loading;
mod order;
mod put;
mod room;
mod set;

pub use choose::{choose_from, choose_relays};
pub use loading::load;
pub use put::place_put;
pub use room::{give_back_entry, give_back_one};
use rules::{Placement, Relay};
pub use set::{eligible, is_eligible, too_few};

// What placing one put gives: its placement and the relay table after its shards were taken, or that it has no place and the table as it was.
#[derive(Clone, Copy)]
pub struct PlacedPut {
    pub placed: bool,
    pub place: Placement,
    pub rows: [Relay; 32],
}
