// Tests on the scope that a call names.
ghost use Rattle.std.specs.Prelude.{◌≡◌, ◌&&◌, leb};
ghost use Rattle.text.specs.Text.{is_prefix};
ghost use Rattle.rules.specs.Scope.{cap_fits, mode_within, cap_within, narrows};
ghost use Rattle.scopes.specs.Arguments.{scope_arg};

use amount::Cap;
use rows::cap_fits;
use rules::{Mode, Scope};
use text::path::is_prefix;

// The prefix is one, the cap is within its limit, and the window does not end before it begins.
pub fn scope_fits(prefix: &[u8], cap: Cap, from: u64, until: u64) -> bool
    ensures { result ≡ (is_prefix prefix.now && cap_fits cap && leb from until) }
{
    if !is_prefix(prefix) {
        return false;
    }
    if !cap_fits(cap) {
        return false;
    }
    from <= until
}

// Read lies within read or both, write within write or both, both within both.
fn mode_within(child: Mode, parent: Mode) -> bool
    ensures { result ≡ mode_within child parent }
{
    match child {
        Mode::Read => match parent {
            Mode::Read => true,
            Mode::Write => false,
            Mode::Both => true,
        },
        Mode::Write => match parent {
            Mode::Read => false,
            Mode::Write => true,
            Mode::Both => true,
        },
        Mode::Both => match parent {
            Mode::Read => false,
            Mode::Write => false,
            Mode::Both => true,
        },
    }
}

// No limit lies only within no limit.
fn cap_within(child: Cap, parent: Cap) -> bool
    ensures { result ≡ cap_within child parent }
{
    match child {
        Cap::Unlimited => match parent {
            Cap::Unlimited => true,
            Cap::Bytes(_) => false,
        },
        Cap::Bytes(c) => match parent {
            Cap::Unlimited => true,
            Cap::Bytes(p) => c <= p,
        },
    }
}

// A child's prefix begins with its parent's, and its mode, cap and window lie within the parent's.
#[tactic(auto, unfolding(rules::specs::Scope::narrows))]
pub fn narrows(prefix: &[u8], mode: Mode, cap: Cap, from: u64, until: u64, parent: Scope) -> bool
    ensures { result ≡ narrows (scope_arg prefix.now mode cap from until) parent }
{
    let above = parent.prefix;
    if !above.covers(prefix) {
        return false;
    }
    let parent_mode = parent.mode;
    if !mode_within(mode, parent_mode) {
        return false;
    }
    let parent_cap = parent.cap;
    if !cap_within(cap, parent_cap) {
        return false;
    }
    if from < parent.from {
        return false;
    }
    until <= parent.until
}
