// Rows by their number, and free rows: the index of the first row that passes.
ghost use Rattle.std.specs.Prelude.{◌≡◌, ◌<◌, IfSome, length};
ghost use Rattle.lists.specs.Lists.{any_of, first_at};
ghost use Rattle.rules.specs.Tables.{numbered};
ghost use Rattle.rules.specs.Sound.{is_given};

use rules::Row;

// Where the row of the number n stands.
pub fn find_row<R: Row>(rows: &[R], n: R::No) -> Option<usize>
    ensures place { result ≡ first_at (R.is_row n) 0 rows.now }
    ensures within { IfSome result (λ i. i < length rows.now) }
{
    rows.iter().position(|row| row.has_number(n))
}

// Where the first free row stands.
pub fn free_row<R: Row>(rows: &[R]) -> Option<usize>
    ensures place { result ≡ first_at R.is_free_row 0 rows.now }
    ensures within { IfSome result (λ i. i < length rows.now) }
{
    rows.iter().position(|row| row.is_free())
}

// Whether the number n is that of some row.
pub fn any_row<R: Row>(rows: &[R], n: R::No) -> bool
    ensures { result ≡ any_of (R.is_row n) rows.now }
{
    rows.iter().any(|row| row.has_number(n))
}

// A row's number is n, and n is a number.
pub fn is_number(n: u32, row: u32) -> bool
    ensures { result ≡ numbered n row }
{
    n != 0 && row == n
}

// Whether n was given, where numbers are given from 1 up to the last one.
pub fn is_given(last: u32, n: u32) -> bool
    ensures { result ≡ is_given last n }
{
    1 <= n && n <= last
}
