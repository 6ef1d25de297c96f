// The test of the desk (document 01, "Answered 1 before all else"), proved equal to the definition `sound` of the rules.
// The crate sound_rows has the tests of the other tables; here are the relays, whose counts are sums over them, and the whole.
#![tactic(auto)]

ghost use Rattle.std.specs.Prelude.{◌≡◌};
ghost use Rattle.rules.specs.Sound.{sound};

mod held;
mod relay_test;
mod shards;
mod tables;

use rules::Desk;
use sound_rows::all_sessions;

// Whether the desk is sound. A call on a desk that is not answers 1 before all else.
#[tactic(auto, unfolding(rules::specs::Sound::sound))]
pub fn is_sound(d: Desk) -> bool
    ensures { result ≡ sound d }
{
    let t = d.tables;
    if !tables::sound_tables(t) {
        return false;
    }
    let slots = d.sessions;
    all_sessions(t, slots)
}
