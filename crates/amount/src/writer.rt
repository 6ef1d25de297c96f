// Writing a cap as text.
ghost use Rattle.std.specs.Prelude.{◌≡◌, length};
ghost use Rattle.amount.specs.Amount.{unlimited_text};
ghost use Rattle.amount.specs.Steps.{fitted};
ghost use Rattle.amount.specs.Writing.{at_start, buffer_after, in_unit, unit_for, written_of};

use crate::decimal::{digit_count, write_decimal};
use crate::{AmountError, ByteUnit, Cap, LIMIT, UNLIMITED};

// The largest unit that divides a count; B for 0.
#[tactic(auto, unfolding(crate::specs::Writing::unit_for))]
fn unit_for(n: u64) -> ByteUnit
    ensures { result ≡ unit_for n }
{
    if n == 0 {
        ByteUnit::B
    } else if n % ByteUnit::GiB.size() == 0 {
        ByteUnit::GiB
    } else if n % ByteUnit::MiB.size() == 0 {
        ByteUnit::MiB
    } else if n % ByteUnit::KiB.size() == 0 {
        ByteUnit::KiB
    } else {
        ByteUnit::B
    }
}

// Writes a count in its unit at the start of a buffer, where it fits.
#[tactic(auto, using(crate::proofs::WriteAnswers::count_short, crate::proofs::WriteAnswers::count_left))]
fn write_count(n: u64, buf: &mut [u8]) -> Result<usize, AmountError>
    ensures answer { result ≡ fitted (in_unit (unit_for n) n) (length buf.old) }
    ensures buffer { buf.new ≡ at_start (in_unit (unit_for n) n) buf.old }
{
    let unit = unit_for(n);
    let number = n / unit.size();
    let ending = unit.ending();
    let start = digit_count(number);
    let end = start + ending.len();
    if buf.len() < end {
        return Err(AmountError::Room);
    }
    write_decimal(number, buf);
    buf[start..end].copy_from_slice(ending);
    Ok(end)
}

// Writes the word for no limit at the start of a buffer, where it fits.
#[tactic(auto, using(crate::specs::WriteLaws::start_short, crate::specs::WriteLaws::start_whole))]
fn write_unlimited(buf: &mut [u8]) -> Result<usize, AmountError>
    ensures answer { result ≡ fitted unlimited_text (length buf.old) }
    ensures buffer { buf.new ≡ at_start unlimited_text buf.old }
{
    let len = UNLIMITED.len();
    if buf.len() < len {
        return Err(AmountError::Room);
    }
    buf[..len].copy_from_slice(UNLIMITED);
    Ok(len)
}

// Writes the text of a cap at the start of a buffer, and gives its length; or refuses, and leaves
// the buffer as it was.
#[tactic(auto, unfolding(crate::specs::Writing::written_of, crate::specs::Writing::buffer_after, crate::specs::Writing::text_of, crate::specs::Writing::at_start))]
pub fn write_amount(cap: Cap, buf: &mut [u8]) -> Result<usize, AmountError>
    ensures answer { result ≡ written_of cap (length buf.old) }
    ensures buffer { buf.new ≡ buffer_after cap buf.old }
{
    match cap {
        Cap::Unlimited => write_unlimited(buf),
        Cap::Bytes(n) if LIMIT < n => Err(AmountError::TooLarge),
        Cap::Bytes(n) => write_count(n, buf),
    }
}
