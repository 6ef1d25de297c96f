// Reading a typed amount.
ghost use Rattle.std.specs.Prelude.{◌≡◌, ◌+◌, ◌*◌, ◌^◌, ◌<◌, ◌≤◌, length};
ghost use Rattle.amount.specs.Amount.{after_whole, amount_of, amount_parsed, counted, size_of, unit_after, with_unit};
ghost use Rattle.amount.specs.Digits.{AllDigits, number};

use crate::digits::{DigitRun, NO_DIGITS, digits};
use crate::{AmountError, ByteUnit, Cap, LIMIT, UNLIMITED};

// The count of bytes: the fraction's part first, since NotWhole comes before TooLarge. The fraction
// times the unit stays below 10^9 × 2^30, and the whole part is multiplied only where its product is
// at most the limit.
#[tactic(auto, using(crate::proofs::CountAnswers::answers))]
fn count(whole: u64, fraction: u64, places: usize, unit: ByteUnit) -> Result<Cap, AmountError>
    requires { (places ≤ 9) × (fraction < 10 ^ places) }
    ensures { result ≡ counted ((whole * 10 ^ places + fraction) * size_of unit) (10 ^ places) }
{
    let power = 10u64.pow(places as u32);
    let bytes = unit.size();
    let part = fraction * bytes;
    if part % power != 0 {
        return Err(AmountError::NotWhole);
    }
    if LIMIT / bytes < whole {
        return Err(AmountError::TooLarge);
    }
    let total = whole * bytes + part / power;
    if LIMIT < total {
        return Err(AmountError::TooLarge);
    }
    Ok(Cap::Bytes(total))
}

// The amount, where the digits are read and one space and a unit must follow.
#[inline(always)]
#[tactic(auto, using(crate::specs::AmountLaws::power_pos, crate::specs::ReadLaws::all_below, crate::specs::ReadLaws::amount_joined))]
fn finish(whole: DigitRun, fraction: DigitRun, rest: &[u8]) -> Result<Cap, AmountError>
    requires whole { whole.number ≡ number whole.bytes.now }
    requires fraction { fraction.number ≡ number fraction.bytes.now }
    requires places { (length fraction.bytes.now ≤ 9) × AllDigits fraction.bytes.now }
    ensures { result ≡ amount_parsed (with_unit whole.entry.bytes.now fraction.entry.bytes.now (unit_after rest.now)) }
{
    let unit = ByteUnit::after(rest).ok_or(AmountError::Text)?;
    count(whole.number, fraction.number, fraction.bytes.len(), unit)
}

// The amount, where the whole digits are read: an optional mark and fraction, then the unit.
#[tactic(auto, using(crate::specs::ReadLaws::no_digits, crate::specs::ReadLaws::no_number, crate::specs::ReadLaws::no_mark, crate::specs::ReadLaws::no_fraction, crate::specs::ReadLaws::fraction_on))]
fn after_whole(whole: DigitRun, rest: &[u8]) -> Result<Cap, AmountError>
    requires { whole.number ≡ number whole.bytes.now }
    ensures { result ≡ amount_parsed (after_whole whole.entry.bytes.now rest.now) }
{
    match rest {
        [b',' | b'.', after @ ..] => {
            let (fraction, rest) = digits(after, 9)?;
            finish(whole, fraction, rest)
        }
        _ => finish(whole, NO_DIGITS, rest),
    }
}

// The cap that a text names, or the reason why it names none.
#[tactic(auto, using(crate::specs::ReadLaws::word_read, crate::specs::ReadLaws::no_digits_read, crate::specs::ReadLaws::zero_first, crate::specs::ReadLaws::whole_read))]
pub fn read_amount(text: &[u8]) -> Result<Cap, AmountError>
    ensures { result ≡ amount_of text.now }
{
    if text == UNLIMITED {
        return Ok(Cap::Unlimited);
    }
    let (whole, rest) = digits(text, 11)?;
    if 1 < whole.bytes.len() && whole.bytes[0] == b'0' {
        return Err(AmountError::Text);
    }
    after_whole(whole, rest)
}
