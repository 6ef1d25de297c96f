// The volumes pay their rents.
ghost use Rattle.epochs.specs.Within.{RowSettled, RowsSettled};

use super::paying::after_rent;
use rents::{raw_from, rent_of};
use rules::Volume;

// A row of the volume table at an epoch end, at this rate and of so many raw bytes. It cannot be settled where its rent is not
// worked out or its grace count is at its end.
fn settle_row(rate: u16, raw: u64, v: Volume) -> Option<Volume>
    ensures { RowSettled rate raw v result }
{
    if v.no.0 == 0 {
        return Some(v);
    }
    let rent = rent_of(rate, v.k, v.m, raw)?;
    if 255 <= v.grace {
        return None;
    }
    Some(after_rent(rent, v))
}

// Every row, at this rate. The numbers are those of the entries' volumes, and the sizes theirs.
pub(crate) fn settle_all(
    rate: u16,
    rows: [Volume; 8],
    numbers: [u32; 64],
    sizes: [u64; 64],
) -> Option<[Volume; 8]>
    ensures { RowsSettled rate rows numbers sizes result }
{
    let mut out = rows;
    for i in 0..8 {
        let raw = raw_from(&numbers, &sizes, rows[i].no.0);
        out[i] = settle_row(rate, raw, rows[i])?;
    }
    Some(out)
}
