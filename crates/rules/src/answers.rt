// Answers: a refusal with its number, or success with its value.
ghost use Rattle.std.specs.Prelude.{◌≡◌};
ghost use Rattle.rules.specs.Numbers.{refusal_number};
ghost use Rattle.rules.specs.Outcome.{refusal, success, success_with};

use super::fresh_rows::fresh_hash;
use super::{Answer, Hash, Refusal};

// The refusal of a number: value 0.
pub fn numbered_refusal(n: u32) -> Answer
    ensures { result ≡ Rattle.rules.specs.Outcome.refusal n }
{
    Answer {
        number: n,
        value: 0,
        hash: fresh_hash(),
    }
}

// A refusal: its number and value 0.
pub fn refusal(why: Refusal) -> Answer
    ensures { result ≡ Rattle.rules.specs.Outcome.refusal (refusal_number why) }
{
    numbered_refusal(why.number())
}

// Success: 0 and the value.
pub fn success(v: u64) -> Answer
    ensures { result ≡ Rattle.rules.specs.Outcome.success v }
{
    success_with(v, fresh_hash())
}

// Success with a hash that is handed back.
pub fn success_with(v: u64, hash: Hash) -> Answer
    ensures { result ≡ Rattle.rules.specs.Outcome.success_with v hash }
{
    Answer {
        number: 0,
        value: v,
        hash,
    }
}
