// Names: the rule, and the type that holds one.
ghost use Rattle.std.specs.Prelude.{◌≡◌};
ghost use Rattle.lists.specs.Lists.{all_of};
ghost use Rattle.text.specs.Text.{is_name_byte, is_name, holds_name};

use crate::{BoundedText, NAME_LIMIT};

// A volume's name.
pub type Name = BoundedText<NAME_LIMIT>;

// a-z A-Z 0-9 _ - .
fn is_name_byte(b: u8) -> bool
    ensures { result ≡ is_name_byte b }
{
    b.is_ascii_alphanumeric() || matches!(b, b'_' | b'-' | b'.')
}

// Whether names have every byte of s.
fn name_bytes(s: &[u8]) -> bool
    ensures { result ≡ all_of is_name_byte s.now }
{
    s.iter().all(|b| is_name_byte(*b))
}

// Whether s is a name.
#[tactic(auto, unfolding(crate::specs::Text::is_name))]
pub fn is_name(s: &[u8]) -> bool
    ensures { result ≡ is_name s.now }
{
    1 <= s.len() && s.len() <= NAME_LIMIT && name_bytes(s)
}

// Whether the name's bytes lie within its array and pass the rule.
pub fn holds_name(t: &Name) -> bool
    ensures { result ≡ holds_name t.now }
{
    t.is_within() && is_name(t.as_bytes())
}
