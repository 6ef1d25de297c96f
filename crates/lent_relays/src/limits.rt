// Whether a relay table keeps the limits of document 01: its rows, row by row, and against itself.
ghost use Rattle.std.specs.Prelude.{◌≡◌};
ghost use Rattle.lists.specs.Lists.{all_of, no_clash};
ghost use Rattle.rules.specs.Sound.{same_relay_row};
ghost use Rattle.lent_relays.specs.Lent.{row_fits, table_fits};

use rows::{any_row, is_given};
use rules::Relay;

// A row by itself, at this clock.
#[tactic(auto, unfolding(crate::specs::Lent::row_fits))]
fn row_fits(clock: u64, x: &Relay) -> bool
    ensures { result ≡ row_fits clock x.now }
{
    x.no.0 == 0
        || (is_given(65535, x.no.0)
            && x.capacity <= 4398046511104
            && x.used <= x.capacity
            && x.beat <= clock)
}

fn rows_fit(clock: u64, rows: &[Relay]) -> bool
    ensures { result ≡ all_of (row_fits clock) rows.now }
{
    rows.iter().all(|x| row_fits(clock, x))
}

// No number is held twice.
fn numbers_differ(rows: &[Relay]) -> bool
    ensures { result ≡ no_clash same_relay_row rows.now }
{
    let mut rest = rows;
    while let Some((x, later)) = rest.split_first() {
        if any_row(later, x.no) {
            return false;
        }
        rest = later;
    }
    true
}

#[tactic(auto, unfolding(crate::specs::Lent::table_fits))]
pub(crate) fn table_fits(clock: u64, rows: &[Relay]) -> bool
    ensures { result ≡ table_fits clock rows.now }
{
    rows.len() == 32 && clock <= 1099511627776 && rows_fit(clock, rows) && numbers_differ(rows)
}
