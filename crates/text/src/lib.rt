// Texts of bounded length: paths and prefixes, and, in `name`, names.
#![tactic(auto)]

ghost use Rattle.std.specs.Prelude.{◌≡◌, [], leb, take};
ghost use Rattle.std.specs.Cmp.{on_equiv, partial_equiv_from_equiv};
ghost use Rattle.std.specs.Ordering.{on};
ghost use Rattle.std.proofs.lemmas.Cmp.{nat_list_eq_equiv};
ghost use Rattle.lists.specs.Bytes.{same_bytes};
ghost use Rattle.text.specs.Text.{text_bytes, text_of, covers};

pub mod name;
pub mod path;

// The most bytes that a path or a prefix has.
pub const PATH_LIMIT: usize = 512;

// The most bytes that a volume's name has.
pub const NAME_LIMIT: usize = 64;

// A text of at most N bytes: the first `len`. The bytes after them are not read, and are
// zeros in every text that this crate makes.
#[derive(Clone, Copy)]
pub struct BoundedText<const N: usize> {
    pub bytes: [u8; N],
    pub len: usize,
}

// A path or a prefix.
pub type Text = BoundedText<PATH_LIMIT>;

impl<const N: usize> BoundedText<N> {
    // The text with no byte.
    pub fn empty() -> Self
        ensures { result ≡ text_of N [] }
    {
        Self {
            bytes: [0; N],
            len: 0,
        }
    }

    // The first bytes of s, at most as many as a text holds.
    pub fn truncated(s: &[u8]) -> Self
        ensures { result ≡ text_of N (take N s.now) }
    {
        let len = s.len().min(N);
        let mut bytes = [0; N];
        bytes[..len].copy_from_slice(&s[..len]);
        Self { bytes, len }
    }

    // The bytes of the text: at most as many as its array has.
    pub fn as_bytes(&self) -> &[u8]
        ensures { result.now ≡ text_bytes self.now }
    {
        &self.bytes[..self.len.min(N)]
    }

    // Whether the text's bytes lie within its array.
    pub fn is_within(&self) -> bool
        ensures { result ≡ leb self.now.len N }
    {
        self.len <= N
    }

    // Whether a path begins with this prefix.
    pub fn covers(&self, path: &[u8]) -> bool
        ensures { result ≡ covers (text_bytes self.now) path.now }
    {
        lists::starts_with(self.as_bytes(), path)
    }
}

// Two texts are the same where they hold the same bytes: a derive would compare the bytes that are not read too.
impl<const N: usize> PartialEq for BoundedText<N> {
    ghost eq = { λ a b. same_bytes (text_bytes a) (text_bytes b) };

    ghost laws = { partial_equiv_from_equiv (on_equiv text_bytes nat_list_eq_equiv) };

    fn eq(&self, other: &Self) -> bool {
        self.as_bytes() == other.as_bytes()
    }
}

impl<const N: usize> Eq for BoundedText<N> {
    ghost laws = { on_equiv text_bytes nat_list_eq_equiv };
}
