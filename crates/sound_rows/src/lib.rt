// The test of the desk, table by table: volumes, entries, tokens and sessions. The relays, whose counts are sums over the other tables, are in the
// crate soundness. A row's test takes only what it reads of the tables: its contract says that the result is the definition's for any tables
// that hold these values.
#![tactic(auto)]

mod entry_test;
mod numbers;
mod path_keys;
mod placements;
mod session_test;
mod token_test;
mod volume_test;

pub use entry_test::sound_entries;
pub use numbers::{any_number, numbers_differ, relay_numbers, volume_ks, volume_numbers};
pub use placements::place_numbers;
pub use session_test::all_sessions;
pub use token_test::sound_tokens;
pub use volume_test::sound_volumes;
