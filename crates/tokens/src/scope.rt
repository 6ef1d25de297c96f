// The scope that a token keeps of the one that a call names.
ghost use Rattle.std.specs.Prelude.{◌≡◌, true};
ghost use Rattle.text.specs.Text.{is_prefix};
ghost use Rattle.rules.specs.Scope.{to_scope};
ghost use Rattle.scopes.specs.Arguments.{scope_arg};

use amount::Cap;
use rules::{Mode, Scope};
use text::Text;

// The scope as a token keeps it: a prefix is short enough to be kept whole.
pub(crate) fn make_scope(prefix: &[u8], mode: Mode, cap: Cap, from: u64, until: u64) -> Scope
    requires { is_prefix prefix.now ≡ true }
    ensures { result ≡ to_scope (scope_arg prefix.now mode cap from until) }
{
    Scope {
        prefix: Text::truncated(prefix),
        mode,
        cap,
        from,
        until,
    }
}
