// Tests on a scope, a cap, a mode, a status, and K and M.
ghost use Rattle.std.specs.Prelude.{◌≡◌};
ghost use Rattle.rules.specs.Scope.{in_window, can_read, can_write, cap_fits};
ghost use Rattle.rules.specs.Sound.{shards_fit};
ghost use Rattle.rules.specs.VolumeCalls.{is_active, is_open};

use amount::Cap;
use rules::{Mode, Scope, Status};

// Whether the clock lies in the window, both of its ends included.
pub fn in_window(clock: u64, s: &Scope) -> bool
    ensures { result ≡ in_window clock s.now }
{
    s.from <= clock && clock <= s.until
}

pub fn can_read(m: Mode) -> bool
    ensures { result ≡ can_read m }
{
    matches!(m, Mode::Read | Mode::Both)
}

pub fn can_write(m: Mode) -> bool
    ensures { result ≡ can_write m }
{
    matches!(m, Mode::Write | Mode::Both)
}

// Whether a cap is no limit or a count up to 2^36.
pub fn cap_fits(c: Cap) -> bool
    ensures { result ≡ cap_fits c }
{
    match c {
        Cap::Unlimited => true,
        Cap::Bytes(n) => n <= 68719476736,
    }
}

pub fn is_active(s: Status) -> bool
    ensures { result ≡ is_active s }
{
    matches!(s, Status::Active)
}

// Whether the volume is ACTIVE or in its grace period.
pub fn is_open(s: Status) -> bool
    ensures { result ≡ is_open s }
{
    matches!(s, Status::Active | Status::Grace)
}

// K from 2 to 16, M from 1 to 8.
pub fn shards_fit(k: u8, m: u8) -> bool
    ensures { result ≡ shards_fit k m }
{
    (2..=16).contains(&k) && (1..=8).contains(&m)
}
