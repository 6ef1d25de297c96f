// Runs of decimal digits, and their numbers.
ghost use Rattle.std.specs.Prelude.{◌≡◌, ◌≤◌, IfErr, IfOk, is_ok, leb, length};
ghost use Rattle.amount.specs.Amount.{within};
ghost use Rattle.amount.specs.Digits.{AllDigits, following, leading, number};

use crate::AmountError;

// A run of digits, and the number that they write.
#[derive(Clone, Copy)]
pub(crate) struct DigitRun<'a> {
    pub(crate) bytes: &'a [u8],
    pub(crate) number: u64,
}

// The run of no digits.
pub(crate) const NO_DIGITS: DigitRun = DigitRun {
    bytes: b"",
    number: 0,
};

// How many digits a text begins with, and the number that they write, where they are at most `most`.
// 19 digits fit in 64 bits. Of a longer run only `most` and one more are read.
#[tactic(auto, using(crate::specs::StepLaws::scanned_fits, crate::specs::StepLaws::scanned_more, crate::specs::StepLaws::scanned_stop, crate::specs::StepLaws::scanned_all))]
fn leading_number(text: &[u8], most: usize) -> Result<(usize, u64), AmountError>
    requires { most ≤ 19 }
    ensures ok { is_ok result ≡ leb (length (leading text.now)) most }
    ensures err { IfErr result (λ e. e ≡ AmountError.Text) }
    ensures count { IfOk result (λ p. p.0 ≡ length (leading text.now)) }
    ensures number { IfOk result (λ p. p.1 ≡ number (leading text.now)) }
{
    let mut n: u64 = 0;
    for (i, b) in text.iter().enumerate() {
        if !b.is_ascii_digit() {
            return Ok((i, n));
        }
        if i == most {
            return Err(AmountError::Text);
        }
        n = n * 10 + u64::from(*b - b'0');
    }
    Ok((text.len(), n))
}

// The digits that a text begins with, from 1 to `most` of them, and what follows them.
#[tactic(auto, using(crate::specs::StepLaws::leading_taken, crate::specs::DigitLaws::length_leading, crate::specs::DigitLaws::drop_leading, crate::specs::Grammar::leading_digits))]
pub(crate) fn digits(text: &[u8], most: usize) -> Result<(DigitRun, &[u8]), AmountError>
    requires { most ≤ 19 }
    ensures ok { is_ok result ≡ within most (length (leading text.now)) }
    ensures err { IfErr result (λ e. e ≡ AmountError.Text) }
    ensures digits { IfOk result (λ p. p.0.bytes.now ≡ leading text.now) }
    ensures rest { IfOk result (λ p. p.1.now ≡ following text.now) }
    ensures few { IfOk result (λ p. length p.0.bytes.now ≤ most) }
    ensures all { IfOk result (λ p. AllDigits p.0.bytes.now) }
    ensures number { IfOk result (λ p. p.0.number ≡ number p.0.bytes.now) }
{
    let (n, number) = leading_number(text, most)?;
    if n == 0 {
        return Err(AmountError::Text);
    }
    let (bytes, rest) = text.split_at(n);
    Ok((DigitRun { bytes, number }, rest))
}
