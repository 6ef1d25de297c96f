// Big-endian numbers, read from a part.
ghost use Rattle.std.specs.Prelude.{◌≡◌, ◌≤◌, length, drop};
ghost use Rattle.journal.specs.Numbers.{number_of};
ghost use Rattle.journal.specs.Table.{number_at};

// The number that a part of at most eight bytes stands for.
#[tactic(auto, using(crate::proofs::ByteLaws::number_more), unfolding(crate::specs::Numbers::number_of))]
pub(crate) fn number(part: &[u8]) -> u64
    requires { length part.now ≤ 8 }
    ensures { result ≡ number_of part.now }
{
    let mut n: u64 = 0;
    for b in part {
        n = n * 256 + u64::from(*b);
    }
    n
}

// The number of `w` bytes at a place.
#[tactic(auto, using(crate::proofs::ByteLaws::number_parts))]
pub(crate) fn number_at(s: &[u8], at: usize, w: usize) -> Option<u64>
    requires { (at ≤ length s.now) × (w ≤ 8) }
    ensures { result ≡ number_at w (drop at s.now) }
{
    if s.len() - at < w {
        return None;
    }
    Some(number(&s[at..at + w]))
}
