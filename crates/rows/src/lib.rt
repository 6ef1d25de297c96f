// Rows of the tables: finding them by number, path or name, finding a free one, and the tests on one row that the calls
// share. Every function here answers for every input.
#![tactic(auto)]

mod chain;
mod find;
mod path_keys;
mod scope;
mod sets;
mod shards;
mod sums;
mod texts;

pub use chain::{depth_in, depth_of, find_number, token_numbers, token_parents};
pub use find::{any_row, find_row, free_row, is_given, is_number};
pub use path_keys::{bytes_key, path_key};
pub use scope::{can_read, can_write, cap_fits, in_window, is_active, is_open, shards_fit};
pub use sets::in_set;
pub use shards::{shard_bytes, shard_size};
pub use sums::passes;
pub use texts::{find_entry, find_put, has_name, is_entry, name_taken, owned_by, put_count};
