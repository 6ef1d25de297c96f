// The outcome of a call on the tokens that is refused: the refusal with its number.
ghost use Rattle.std.specs.Prelude.{◌≡◌};
ghost use Rattle.tokens.specs.Parts.{on_tokens};
ghost use Rattle.rules.specs.Numbers.{refusal_number};
ghost use Rattle.rules.specs.Outcome.{refused};

use super::TokensOutcome;
use rules::{Refusal, Tables};

// A refusal leaves the tokens as they are.
pub(crate) fn refuse(t: Tables, n: Refusal) -> TokensOutcome
    ensures { on_tokens t result ≡ refused t (refusal_number n) }
{
    let answer = rules::refusal(n);
    let tokens = t.tokens;
    TokensOutcome {
        answer,
        tokens,
        last: t.last_token,
    }
}
