// Advance.
ghost use Rattle.std.specs.Prelude.{◌≡◌, map};
ghost use Rattle.rules.specs.Numbers.{refusal_number};
ghost use Rattle.rules.specs.declared.Tables.{Tables};
ghost use Rattle.rules.specs.Rent.{size_of};
ghost use Rattle.rents.specs.Within.{entry_volume};
ghost use Rattle.epochs.specs.Parts.{on_advance, on_pass, pass_refused};
ghost use Rattle.epochs.specs.Within.{AtSettled, advance_within, pass_within, due_within};

use super::clock::{bad_block, epoch_ends};
use super::collect::collect_due;
use super::due::any_due;
use super::leave::relays_left;
use super::settle::settle_all;
use super::{AdvanceOutcome, PassOutcome};
use rents::{entry_sizes, entry_volumes};
use rules::{Refusal, Relay, Tables, Volume};

// A refusal: the parts are as they came, and no volume is collected.
fn refuse(clock: u64, volumes: [Volume; 8], relays: [Relay; 32], n: Refusal) -> PassOutcome
    ensures { result ≡ pass_refused clock volumes relays (refusal_number n) }
{
    PassOutcome {
        answer: rules::refusal(n),
        clock,
        volumes,
        relays,
        due: false,
    }
}

// The volumes at the block: settled where an epoch ends, and else as they are.
fn settled(
    clock: u64,
    rate: u16,
    rows: [Volume; 8],
    numbers: [u32; 64],
    sizes: [u64; 64],
    block: u64,
) -> Option<[Volume; 8]>
    ensures { AtSettled block clock rate rows numbers sizes result }
{
    if epoch_ends(clock, block) < 1 {
        return Some(rows);
    }
    settle_all(rate, rows, numbers, sizes)
}

// The clock goes on to the block, relays leave and rents are paid, in the parts of the tables that are read for it: of the entries these
// are the numbers of their volumes and their sizes.
pub fn pass_rows(
    clock: u64,
    rate: u16,
    volumes: [Volume; 8],
    relays: [Relay; 32],
    owners: [u32; 64],
    sizes: [u64; 64],
    block: u64,
) -> PassOutcome
    ensures { (t : Tables) → t.clock ≡ clock → t.rate ≡ rate → t.volumes ≡ volumes → t.relays ≡ relays → owners ≡ map entry_volume t.entries → sizes ≡ map size_of t.entries → (on_pass t result ≡ pass_within block t) × (result.due ≡ due_within block t) }
{
    if bad_block(clock, block) {
        return refuse(clock, volumes, relays, Refusal::Clock);
    }
    let Some(rows) = settled(clock, rate, volumes, owners, sizes, block) else {
        return refuse(clock, volumes, relays, Refusal::Bad);
    };
    let due = any_due(block, rows);
    PassOutcome {
        answer: rules::success(block),
        clock: block,
        volumes: rows,
        relays: relays_left(block, relays),
        due,
    }
}

// The same in the tables; `due` says whether volumes are collected then.
pub fn pass_on(t: Tables, block: u64) -> PassOutcome
    ensures { (on_pass t result ≡ pass_within block t) × (result.due ≡ due_within block t) }
{
    let owners = entry_volumes(t.entries);
    let sizes = entry_sizes(t.entries);
    pass_rows(t.clock, t.rate, t.volumes, t.relays, owners, sizes, block)
}

// The clock goes on to a block.
pub fn advance_on(t: Tables, block: u64) -> AdvanceOutcome
    ensures { on_advance t result ≡ advance_within block t }
{
    let passed = pass_on(t, block);
    // Each array is in a variable of its own: the borrow check does not cover a field that is an array put straight into a literal.
    let volumes = passed.volumes;
    let relays = passed.relays;
    if !passed.due {
        let entries = t.entries;
        let tokens = t.tokens;
        return AdvanceOutcome {
            answer: passed.answer,
            clock: passed.clock,
            volumes,
            entries,
            tokens,
            relays,
        };
    }
    let left = collect_due(t, block, volumes, relays);
    let volumes = left.volumes;
    let entries = left.entries;
    let tokens = left.tokens;
    let relays = left.relays;
    AdvanceOutcome {
        answer: passed.answer,
        clock: passed.clock,
        volumes,
        entries,
        tokens,
        relays,
    }
}
