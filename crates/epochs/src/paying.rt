// What a volume pays at an epoch end, and what becomes of it.
ghost use Rattle.std.specs.Prelude.{◌≡◌, ◌<◌, ◌≤◌};
ghost use Rattle.rules.specs.Tables.{with_balance, with_status};
ghost use Rattle.rules.specs.Advance.{after_rent};
ghost use Rattle.epochs.specs.Within.{most_grace};

use rules::{Status, Volume};

// The status, the grace count and the balance are new, the rest is as it was.
fn with_standing(v: Volume, status: Status, grace: u8, balance: u64) -> Volume
    ensures { result ≡ with_balance (with_status v status grace v.deleted) balance }
{
    Volume {
        status,
        balance,
        grace,
        ..v
    }
}

// Its balance covers the rent.
fn after_paid(rent: u64, v: Volume) -> Volume
    requires { rent ≤ v.balance }
    ensures { result ≡ after_rent rent v }
{
    let left = v.balance - rent;
    match v.status {
        Status::Active => with_standing(v, Status::Active, v.grace, left),
        Status::Grace => with_standing(v, Status::Active, 0, left),
        Status::Deleted => with_standing(v, Status::Deleted, v.grace, left),
    }
}

// Its balance is short: it pays nothing, or all that it has where it is deleted.
fn after_short(rent: u64, v: Volume) -> Volume
    requires { (v.balance < rent) × (v.grace < most_grace) }
    ensures { result ≡ after_rent rent v }
{
    match v.status {
        Status::Active => with_standing(v, Status::Grace, 1, v.balance),
        Status::Grace => with_standing(v, Status::Grace, v.grace + 1, v.balance),
        Status::Deleted => with_standing(v, Status::Deleted, v.grace, 0),
    }
}

// A volume at an epoch end, where its rent is this.
pub(crate) fn after_rent(rent: u64, v: Volume) -> Volume
    requires { v.grace < most_grace }
    ensures { result ≡ after_rent rent v }
{
    if v.balance < rent {
        return after_short(rent, v);
    }
    after_paid(rent, v)
}
