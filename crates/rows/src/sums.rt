// Sums held to a limit.
ghost use Rattle.std.specs.Prelude.{◌≡◌, ◌+◌, ltb};

// Whether the sum of two numbers passes a limit. The sum itself may not fit in 64 bits.
pub fn passes(limit: u64, a: u64, b: u64) -> bool
    ensures { result ≡ ltb limit (a + b) }
{
    limit < b || limit - b < a
}
