// One record of a relay table changed: of a lent slice, in two thin functions, and of a table that is held by value.
ghost use Rattle.std.specs.Prelude.{◌≡◌, ◌<◌, length, set, get_or};
ghost use Rattle.rules.specs.Tables.{with_beat};
ghost use Rattle.rows.specs.Blank.{blank_relay};
ghost use Rattle.lent_relays.specs.Lent.{lighter};

use super::records::{given_back, with_beat};
use rules::Relay;

pub(crate) fn beat_row(rows: &mut [Relay], i: usize, clock: u64)
    requires { i < length rows.old }
    ensures { rows.new ≡ set rows.old i (with_beat (get_or rows.old i blank_relay) clock) }
{
    rows[i] = with_beat(rows[i], clock);
}

pub(crate) fn give_back_row(rows: &mut [Relay], i: usize, bytes: u64)
    requires { i < length rows.old }
    ensures { rows.new ≡ set rows.old i (lighter (get_or rows.old i blank_relay) bytes) }
{
    rows[i] = given_back(rows[i], bytes);
}

// For other crates, at every index: there is no row past the end, and nothing changes.
pub fn beat_at(rows: [Relay; 32], i: usize, clock: u64) -> [Relay; 32]
    ensures { result ≡ set rows i (with_beat (get_or rows i blank_relay) clock) }
{
    let mut t = rows;
    if i < 32 {
        beat_row(&mut t, i, clock);
    }
    t
}

pub fn give_back_at(rows: [Relay; 32], i: usize, bytes: u64) -> [Relay; 32]
    ensures { result ≡ set rows i (lighter (get_or rows i blank_relay) bytes) }
{
    let mut t = rows;
    if i < 32 {
        give_back_row(&mut t, i, bytes);
    }
    t
}
