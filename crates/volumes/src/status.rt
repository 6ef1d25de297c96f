// A volume's row with another status.
ghost use Rattle.std.specs.Prelude.{◌≡◌};
ghost use Rattle.rules.specs.Tables.{with_status};

use rules::{Status, Volume};

// The status, the grace count and the block of the delete are new, the rest is as it was.
pub fn with_status(v: Volume, status: Status, grace: u8, deleted: u64) -> Volume
    ensures { result ≡ with_status v status grace deleted }
{
    let no = v.no;
    let owner = v.owner;
    let name = v.name;
    let cap = v.cap;
    Volume {
        no,
        owner,
        name,
        k: v.k,
        m: v.m,
        cap,
        status,
        balance: v.balance,
        version: v.version,
        grace,
        deleted,
    }
}
