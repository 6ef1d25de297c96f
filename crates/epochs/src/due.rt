// The volumes that are collected now.
ghost use Rattle.std.specs.Prelude.{◌≡◌, map, ◌+◌, leb};
ghost use Rattle.lists.specs.Lists.{any_of};
ghost use Rattle.rules.specs.Limits.{deleted_blocks};
ghost use Rattle.rules.specs.Fresh.{fresh_volume};
ghost use Rattle.rules.specs.Tables.{numbered, cleared};
ghost use Rattle.rules.specs.Advance.{is_due};
ghost use Rattle.epochs.specs.Gone.{due_number};

use rows::is_number;
use rules::{Status, Volume};

// Whether the delete lies 7,200 blocks or more back.
fn lies_back(clock: u64, deleted: u64) -> bool
    ensures { result ≡ leb (deleted + deleted_blocks) clock }
{
    7200 <= clock && deleted <= clock - 7200
}

fn is_due(clock: u64, v: Volume) -> bool
    ensures { result ≡ is_due clock v }
{
    if v.no.0 == 0 {
        return false;
    }
    match v.status {
        Status::Active => false,
        Status::Grace => 3 <= v.grace,
        Status::Deleted => lies_back(clock, v.deleted),
    }
}

pub(crate) fn any_due(clock: u64, rows: [Volume; 8]) -> bool
    ensures { result ≡ any_of (is_due clock) rows }
{
    rows.iter().any(|v| is_due(clock, *v))
}

// The number of a volume that is due, and 0 of any other row.
fn due_number(clock: u64, v: Volume) -> u32
    ensures { result ≡ due_number clock v }
{
    if is_due(clock, v) { v.no.0 } else { 0 }
}

pub fn due_numbers(clock: u64, rows: [Volume; 8]) -> [u32; 8]
    ensures { result ≡ map (due_number clock) rows }
{
    let mut gone = [0u32; 8];
    for i in 0..8 {
        gone[i] = due_number(clock, rows[i]);
    }
    gone
}

// Whether a number is one of these.
pub fn is_one_of(gone: [u32; 8], n: u32) -> bool
    ensures { result ≡ any_of (numbered n) gone }
{
    gone.iter().any(|x| is_number(n, *x))
}

// The volumes without those that are due.
pub fn clear_due(clock: u64, rows: [Volume; 8]) -> [Volume; 8]
    ensures { result ≡ cleared (is_due clock) fresh_volume rows }
{
    let mut left = rows;
    for i in 0..8 {
        if is_due(clock, rows[i]) {
            left[i] = rules::fresh_volume();
        }
    }
    left
}
