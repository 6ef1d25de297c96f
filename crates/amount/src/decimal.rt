// The decimal digits of a number, written into a lent buffer.
ghost use Rattle.std.specs.Prelude.{◌≡◌, ◌≤◌, length};
ghost use Rattle.amount.specs.Digits.{decimal};
ghost use Rattle.amount.specs.Writing.{at_start};

// How many digits a number has: 0 has one, as 1 has.
#[tactic(auto, using(crate::specs::DecimalLaws::length_by_power))]
pub(crate) fn digit_count(n: u64) -> usize
    ensures count { result ≡ length (decimal n) }
    ensures few { result ≤ 20 }
{
    n.max(1).ilog10() as usize + 1
}

// Writes the digits of a number at the start of a buffer where they fit, the last digit first, and
// gives how many there are.
#[tactic(auto, using(crate::specs::WriteLaws::start_short, crate::specs::WriteLaws::placing_start, crate::specs::WriteLaws::placing_on))]
pub fn write_decimal(n: u64, buf: &mut [u8]) -> usize
    ensures count { result ≡ length (decimal n) }
    ensures buffer { buf.new ≡ at_start (decimal n) buf.old }
{
    let count = digit_count(n);
    if buf.len() < count {
        return count;
    }
    let mut rest = n;
    for i in (0..count).rev() {
        buf[i] = b'0' + (rest % 10) as u8;
        rest /= 10;
    }
    count
}
