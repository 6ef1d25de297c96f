// What the tables of the desk share: searches, counts and sums over the rows of any table, and comparing bytes.
// The definitions are in specs/, over any kind of row, with their laws beside them.
#![tactic(auto)]

ghost use Rattle.std.specs.Prelude.{◌≡◌};
ghost use Rattle.lists.specs.Bytes.{same_bytes, starts_with};

// Whether the bytes of s begin with those of prefix.
pub fn starts_with(prefix: &[u8], s: &[u8]) -> bool
    ensures { result ≡ starts_with prefix.now s.now }
{
    s.starts_with(prefix)
}

// Whether two slices hold the same bytes.
pub fn same_bytes(a: &[u8], b: &[u8]) -> bool
    ensures { result ≡ same_bytes a.now b.now }
{
    a == b
}
