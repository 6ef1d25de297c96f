// Numbers in a row: those of a table's rows, or one for each of its rows.
ghost use Rattle.std.specs.Prelude.{◌≡◌, ◌+◌, drop, map};
ghost use Rattle.lists.specs.Lists.{any_of, no_clash};
ghost use Rattle.rules.specs.Tables.{given, numbered};
ghost use Rattle.sound_rows.specs.Numbers.{volume_number, volume_width, volume_k, relay_number};

use rules::{Relay, Volume};

// Whether a number from an index on is n.
pub(crate) fn number_again(numbers: &[u64], n: u64, start: usize) -> bool
    ensures { result ≡ any_of (numbered n) (drop start numbers.now) }
{
    numbers.iter().skip(start).any(|row| n != 0 && *row == n)
}

fn is_some(n: u64) -> bool
    ensures { result ≡ given n }
{
    0 < n
}

// Whether some number is not 0.
pub fn any_number(numbers: &[u64]) -> bool
    ensures { result ≡ any_of given numbers.now }
{
    numbers.iter().any(|x| is_some(*x))
}

// No number is held twice.
pub fn numbers_differ(numbers: &[u64]) -> bool
    ensures { result ≡ no_clash numbered numbers.now }
{
    for i in 0..numbers.len() {
        if number_again(numbers, numbers[i], i + 1) {
            return false;
        }
    }
    true
}

pub fn volume_numbers(rows: [Volume; 8]) -> [u64; 8]
    ensures { result ≡ map volume_number rows }
{
    let mut numbers = [0u64; 8];
    for i in 0..8 {
        numbers[i] = u64::from(rows[i].no.0);
    }
    numbers
}

// K+M.
fn width_of(k: u8, m: u8) -> usize
    ensures { result ≡ k + m }
{
    (k as usize) + (m as usize)
}

// K+M of each volume.
pub(crate) fn volume_widths(rows: [Volume; 8]) -> [usize; 8]
    ensures { result ≡ map volume_width rows }
{
    let mut widths = [0usize; 8];
    for i in 0..8 {
        widths[i] = width_of(rows[i].k, rows[i].m);
    }
    widths
}

// K of each volume.
pub fn volume_ks(rows: [Volume; 8]) -> [u8; 8]
    ensures { result ≡ map volume_k rows }
{
    let mut ks = [0u8; 8];
    for i in 0..8 {
        ks[i] = rows[i].k;
    }
    ks
}

pub fn relay_numbers(rows: [Relay; 32]) -> [u64; 32]
    ensures { result ≡ map relay_number rows }
{
    let mut numbers = [0u64; 32];
    for i in 0..32 {
        numbers[i] = u64::from(rows[i].no.0);
    }
    numbers
}
