// The raw bytes of a volume.
ghost use Rattle.std.specs.Prelude.{◌≡◌, map, ◌-◌, ◌^◌, min};
ghost use Rattle.rules.specs.Rent.{size_of};
ghost use Rattle.rents.specs.Within.{entry_volume, sizes_at};

use rows::is_number;
use rules::Entry;

// The number of each entry's volume.
pub fn entry_volumes(entries: [Entry; 64]) -> [u32; 64]
    ensures { result ≡ map entry_volume entries }
{
    let mut numbers = [0u32; 64];
    for i in 0..64 {
        numbers[i] = entries[i].volume.0;
    }
    numbers
}

// The size of each entry.
pub fn entry_sizes(entries: [Entry; 64]) -> [u64; 64]
    ensures { result ≡ map size_of entries }
{
    let mut sizes = [0u64; 64];
    for i in 0..64 {
        sizes[i] = entries[i].size;
    }
    sizes
}

// The sizes at the places of a volume's number added up, in a sum that stays at 2^64 - 1. The shorter list ends it.
pub fn raw_from(numbers: &[u32], sizes: &[u64], n: u32) -> u64
    ensures { result ≡ min (sizes_at n numbers.now sizes.now) (2 ^ 64 - 1) }
{
    let mut sum: u64 = 0;
    for (number, size) in numbers.iter().zip(sizes) {
        if is_number(n, *number) {
            sum = sum.saturating_add(*size);
        }
    }
    sum
}
