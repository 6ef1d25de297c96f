// The rules of paths and prefixes. A quick test that most paths pass reads many bytes at once. A path that fails it
// is read from its last byte to its first, so that each part is known whole when the slash before it is met.
ghost use Rattle.std.specs.Prelude.{◌≡◌, ◌<◌, length};
ghost use Rattle.lists.specs.Lists.{all_of};
ghost use Rattle.text.specs.Text.{is_path_byte, is_part, parts, is_path, is_prefix, holds};
ghost use Rattle.text.specs.Scan.{longer, passes, scan_byte};
ghost use Rattle.text.specs.Plain.{is_doubtful, plain_pairs, plain_parts};

use crate::{PATH_LIMIT, Text};

const SLASH: u8 = b'/';

const DOT: u8 = b'.';

// What a part is, as far as the rule of parts asks.
#[derive(Clone, Copy)]
pub(crate) enum Kind {
    Empty,
    Dot,
    DotDot,
    Other,
}

impl Kind {
    // The kind of the part with one more byte at its front.
    fn longer(self, is_dot: bool) -> Self
        ensures { result ≡ longer is_dot self }
    {
        match (is_dot, self) {
            (true, Kind::Empty) => Kind::Dot,
            (true, Kind::Dot) => Kind::DotDot,
            _ => Kind::Other,
        }
    }
}

// What is known of the parts of the bytes from some place on: what the first part is, and whether
// the parts after it pass.
#[derive(Clone, Copy)]
pub(crate) struct Scan {
    pub first: Kind,
    pub rest: bool,
}

impl Scan {
    // Whether all parts pass.
    fn passes(self) -> bool
        ensures { result ≡ passes self }
    {
        matches!(self.first, Kind::Other) && self.rest
    }

    // What is known with one more byte at the front.
    fn longer(self, b: u8) -> Self
        ensures { result ≡ scan_byte b self }
    {
        match b {
            SLASH => Self {
                first: Kind::Empty,
                rest: self.passes(),
            },
            _ => Self {
                first: self.first.longer(b == DOT),
                rest: self.rest,
            },
        }
    }
}

// Whether no part is empty, "." or "..": from the last byte to the first.
fn parts_pass(s: &[u8]) -> bool
    ensures { result ≡ all_of is_part (parts s.now) }
{
    let none = Scan {
        first: Kind::Empty,
        rest: true,
    };
    let all = s.iter().rev().fold(none, |scan, b| scan.longer(*b));
    all.passes()
}

// Whether paths have every byte of s: 0x21 to 0x7e. It reads on past a byte that they do not have: 16 bytes are then tested at once.
fn path_bytes(s: &[u8]) -> bool
    ensures { result ≡ all_of is_path_byte s.now }
{
    s.iter()
        .fold(true, |all, b| all & (0x21..=0x7e).contains(b))
}

// Whether a slash stands before a slash or a dot.
fn is_doubtful(a: u8, b: u8) -> bool
    ensures { result ≡ is_doubtful a b }
{
    a == SLASH && matches!(b, SLASH | DOT)
}

// Whether no slash stands before a slash or a dot. It reads on past such a pair, and by an index: over `windows` 512 bytes took a third longer.
fn plain_pairs(s: &[u8]) -> bool
    ensures { result ≡ plain_pairs s.now }
{
    let mut all = true;
    for i in 1..s.len() {
        all &= !is_doubtful(s[i - 1], s[i]);
    }
    all
}

// Whether every part begins with another byte than a dot, and none is empty.
fn plain_parts(s: &[u8]) -> bool
    requires { 0 < length s.now }
    ensures { result ≡ plain_parts s.now }
{
    !is_doubtful(SLASH, s[0]) && s[s.len() - 1] != SLASH && plain_pairs(s)
}

// Whether s is a path.
#[tactic(auto, using(crate::specs::PlainLaws::plain_told), unfolding(crate::specs::Text::is_path))]
pub fn is_path(s: &[u8]) -> bool
    ensures { result ≡ is_path s.now }
{
    1 <= s.len() && s.len() <= PATH_LIMIT && path_bytes(s) && (plain_parts(s) || parts_pass(s))
}

// Whether s is a prefix: empty, or a path and a slash.
#[tactic(auto, using(crate::specs::PathLaws::prefixes), unfolding(crate::specs::Text::is_path_and_slash))]
pub fn is_prefix(s: &[u8]) -> bool
    ensures { result ≡ is_prefix s.now }
{
    s.is_empty() || s.len() <= PATH_LIMIT && s[s.len() - 1] == SLASH && is_path(&s[..s.len() - 1])
}

// Whether the text's bytes lie within its array and are a path.
pub fn holds_path(t: &Text) -> bool
    ensures { result ≡ holds is_path t.now }
{
    t.is_within() && is_path(t.as_bytes())
}

// The same of a prefix.
pub fn holds_prefix(t: &Text) -> bool
    ensures { result ≡ holds is_prefix t.now }
{
    t.is_within() && is_prefix(t.as_bytes())
}
