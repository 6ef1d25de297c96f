// The checks of a running session's commit, in the order of its row. Each is a function of what it reads.
ghost use Rattle.std.specs.Prelude.{◌≡◌, true, ◌*◌, ◌<◌, ◌≤◌, ◌^◌, get_or, take, IfOk};
ghost use Rattle.rules.specs.Numbers.{answer_number};
ghost use Rattle.rules.specs.Commit.{placed};
ghost use Rattle.rules.specs.Sound.{shards_fit};
ghost use Rattle.rows.specs.Blank.{blank_volume};
ghost use Rattle.rows.specs.Links.{row_if};
ghost use Rattle.commits.specs.Checks.{limits_fault, rows_fault, rows_number, placing_of, Ready, RowsFound};

use super::family::{Family, passes_cap, passes_quotas};
use super::placings::{Places, place_all};
use super::sizes::{below_rent, staged_bytes};
use first_checks::token_fault;
use rows::find_row;
use rules::{Refusal, Relay, Session, Token, Volume};
use surveys::can_check;

// What the checks of a running session's commit give where all pass: the row of the volume, and the placements.
#[derive(Clone, Copy)]
pub(crate) struct Checked {
    pub row: usize,
    pub p: Places,
}

// The quotas of the token and its ancestors, the volume's cap, the number of entries, and the rent.
#[tactic(auto, unfolding(crate::specs::Checks::limits_fault))]
fn limits_fault(
    rate: u16,
    v: Volume,
    f: Family,
    bytes: u64,
    kept: u64,
    rows: usize,
) -> Result<(), Refusal>
    requires { (shards_fit v.k v.m ≡ true) × (f.len ≤ 8) × (bytes ≤ 8 * 2 ^ 36) × (kept ≤ 64 * 2 ^ 36) }
    ensures { answer_number result ≡ limits_fault rate v (take f.len f.tokens) bytes kept rows }
{
    if passes_quotas(f, bytes) {
        return Err(Refusal::Quota);
    }
    if passes_cap(v.cap, kept, bytes) {
        return Err(Refusal::Size);
    }
    if 64 < rows {
        return Err(Refusal::Room);
    }
    if below_rent(rate, v, kept + bytes) {
        return Err(Refusal::Rent);
    }
    Ok(())
}

// From the rows of the volume and of the token k on: their checks, then the placing of the puts. `f` is the token and its ancestors.
fn rows_check(
    clock: u64,
    rate: u16,
    volumes: [Volume; 8],
    f: Family,
    relays: [Relay; 32],
    i: usize,
    k: Token,
    s: Session,
    kept: u64,
    rows: usize,
) -> Result<Places, Refusal>
    requires { Ready relays s (get_or volumes i blank_volume) × (i < 8) × (kept ≤ 64 * 2 ^ 36) × (f.len ≤ 8) }
    ensures number { answer_number result ≡ rows_fault clock rate (take f.len f.tokens) relays s kept rows (get_or volumes i blank_volume) k }
    ensures placing { IfOk result (λ p. placing_of clock relays s (get_or volumes i blank_volume) ≡ placed (take s.count p.places) p.rows) }
{
    let v = volumes[i];
    token_fault(clock, v, s.version, k)?;
    let bytes = staged_bytes(s.puts, s.count);
    limits_fault(rate, v, f, bytes, kept, rows)?;
    let Some(p) = place_all(clock, v.k, v.m, s.puts, s.count, relays) else {
        return Err(Refusal::NoPlace);
    };
    Ok(p)
}

// The checks of a running session's commit, from the session's limits on. `k` is the row of its token, if it is there, and `f` that
// token and its ancestors; `kept` and `rows` are what was read of the entries.
pub(crate) fn check_rows(
    clock: u64,
    rate: u16,
    volumes: [Volume; 8],
    f: Family,
    relays: [Relay; 32],
    s: Session,
    there: bool,
    k: Token,
    kept: u64,
    rows: usize,
) -> Result<Checked, Refusal>
    requires { f.len ≤ 8 }
    ensures number { answer_number result ≡ rows_number clock rate volumes (take f.len f.tokens) relays s (row_if there k) kept rows }
    ensures found { IfOk result (λ c. RowsFound clock volumes relays s c.row (take s.count c.p.places) c.p.rows) }
    ensures within { IfOk result (λ c. c.row < 8) }
{
    if !can_check(volumes, relays, s, kept) {
        return Err(Refusal::Bad);
    }
    let Some(row) = find_row(&volumes, s.volume) else {
        return Err(Refusal::NoVolume);
    };
    if !there {
        return Err(Refusal::NoToken);
    }
    let p = rows_check(clock, rate, volumes, f, relays, row, k, s, kept, rows)?;
    Ok(Checked { row, p })
}
