// An entry's placement: its relays' numbers were given, and no two are the same.
ghost use Rattle.std.specs.Prelude.{◌≡◌, true, ◌+◌, min};
ghost use Rattle.lists.specs.Lists.{all_of, any_of, no_clash};
ghost use Rattle.rules.specs.declared.Tables.{Tables};
ghost use Rattle.rules.specs.declared.Volume.{Volume};
ghost use Rattle.rules.specs.Sound.{is_given, sound_placement};
ghost use Rattle.sound_rows.specs.Places.{place_numbers, same_number};

use rows::is_given;
use rules::Placement;

pub(crate) fn least(a: usize, b: usize) -> usize
    ensures { result ≡ min a b }
{
    if a < b { a } else { b }
}

// The numbers of a placement's relays: 0 past the last of them.
#[tactic(auto, unfolding(crate::specs::Places::place_numbers))]
pub fn place_numbers(p: Placement) -> [u32; 24]
    ensures { result ≡ place_numbers p }
{
    let relays = p.relays;
    let n = least(p.len, 24);
    let mut numbers = [0u32; 24];
    for i in 0..n {
        numbers[i] = relays[i].0;
    }
    numbers
}

// Whether one of the numbers is n: no early exit, so that the compiler compares many at once.
pub(crate) fn among(numbers: &[u32], n: u32) -> bool
    ensures { result ≡ any_of (same_number n) numbers.now }
{
    let mut found = false;
    for i in 0..numbers.len() {
        if numbers[i] == n {
            found = true;
        }
    }
    found
}

// Every number was given: no early exit either.
fn all_given(numbers: &[u32], last: u32) -> bool
    ensures { result ≡ all_of (is_given last) numbers.now }
{
    let mut all = true;
    for i in 0..numbers.len() {
        if !is_given(last, numbers[i]) {
            all = false;
        }
    }
    all
}

// True only where no two numbers are the same: their remainders by 64 differ.
fn remainders_differ(numbers: &[u32]) -> bool
    ensures { result ≡ true → no_clash same_number numbers.now ≡ true }
{
    let mut seen = [false; 64];
    for i in 0..numbers.len() {
        let r = (numbers[i] % 64) as usize;
        if seen[r] {
            return false;
        }
        seen[r] = true;
    }
    true
}

// No two numbers are the same. The remainders of relays numbered close together differ, and then no pair is compared.
fn all_differ(numbers: &[u32]) -> bool
    ensures { result ≡ no_clash same_number numbers.now }
{
    if remainders_differ(numbers) {
        return true;
    }
    for i in 0..numbers.len() {
        if among(&numbers[i + 1..], numbers[i]) {
            return false;
        }
    }
    true
}

// K+M different relays: `width` is K+M.
pub(crate) fn sound_placement(width: usize, p: Placement, last: u32) -> bool
    ensures { (t : Tables) (v : Volume) → t.last_relay ≡ last → v.k + v.m ≡ width → result ≡ sound_placement t v p }
{
    let len = p.len;
    if len != width {
        return false;
    }
    let numbers = place_numbers(p);
    let n = least(len, 24);
    if !all_given(&numbers[..n], last) {
        return false;
    }
    all_differ(&numbers[..n])
}
