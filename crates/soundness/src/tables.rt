// The tables: the counts, then each table in turn.
ghost use Rattle.std.specs.Prelude.{◌≡◌};
ghost use Rattle.rules.specs.Sound.{sound_counts, sound_tables};

use super::relay_test::{any_relays, sound_relays};
use rules::Tables;
use sound_rows::{sound_entries, sound_tokens, sound_volumes};

// The clock up to 2^40, deposits up to 10^18, and the last numbers up to 65,535.
fn sound_counts(t: Tables) -> bool
    ensures { result ≡ sound_counts t }
{
    if 1099511627776 < t.clock {
        return false;
    }
    if 1000000000000000000 < t.deposits {
        return false;
    }
    if 65535 < t.last_volume {
        return false;
    }
    if 65535 < t.last_token {
        return false;
    }
    t.last_relay <= 65535
}

// The relays come last: their sums need sizes and K within the limits.
#[tactic(auto, unfolding(rules::specs::Sound::sound_tables))]
pub(crate) fn sound_tables(t: Tables) -> bool
    ensures { result ≡ sound_tables t }
{
    if !sound_counts(t) {
        return false;
    }
    if !sound_tokens(t) {
        return false;
    }
    if !sound_volumes(t) {
        return false;
    }
    if !sound_entries(t) {
        return false;
    }
    let rows = t.relays;
    if !any_relays(rows) {
        return true;
    }
    sound_relays(t)
}
