// Sets of rows: one bit for each row, the first row's lowest.
ghost use Rattle.std.specs.Prelude.{◌≡◌, ◌/◌, ◌%◌, ◌^◌, eqb};

// Whether the row's bit is set.
pub fn in_set(set: u32, i: usize) -> bool
    ensures { result ≡ eqb (set / 2 ^ i % 2) 1 }
{
    if 31 < i {
        return false;
    }
    (set >> i) % 2 == 1
}
