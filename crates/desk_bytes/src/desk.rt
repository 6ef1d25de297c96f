// The tables, and the whole desk, each written from a place on. Each function gives the place after what it wrote.
ghost use Rattle.std.specs.Prelude.{◌≡◌, ◌+◌, ◌*◌, ◌≤◌, length};
ghost use mathlib.Core.List.{◌++◌, flat_map};
ghost use Rattle.rules.specs.Limits.{volume_rows, entry_rows, token_rows, relay_rows};
ghost use Rattle.journal.specs.Numbers.{bytes_of};
ghost use Rattle.desk_bytes.specs.Layout.{volume_bytes, entry_bytes, token_bytes, relay_bytes, volume_length, entry_length, token_length, relay_length, tables_bytes, tables_length, desk_bytes, desk_length};
ghost use Rattle.desk_bytes.specs.Written.{Wrote};

use super::parts::{put_three, put_u16, put_u64};
use super::tables::{put_entries, put_relays, put_sessions, put_tokens, put_volumes};
use rules::{Desk, Entry, Relay, Tables, Token, Volume};

// Clock and rate.
fn put_clock_and_rate(out: &mut [u8], at: usize, clock: u64, rate: u16) -> usize
    requires { at + (8 + 2) ≤ length out.old }
    ensures { (result ≡ at + (8 + 2)) × Wrote at (bytes_of 8 clock ++ bytes_of 2 rate) out.old result out.new }
{
    let a = put_u64(out, at, clock);
    put_u16(out, a, rate)
}

// Clock, rate, volumes and entries.
fn put_before_tokens(
    out: &mut [u8],
    at: usize,
    clock: u64,
    rate: u16,
    volumes: [Volume; 8],
    entries: [Entry; 64],
) -> usize
    requires { at + (8 + 2 + volume_rows * volume_length + entry_rows * entry_length) ≤ length out.old }
    ensures { (result ≡ at + (8 + 2 + volume_rows * volume_length + entry_rows * entry_length)) × Wrote at (bytes_of 8 clock ++ bytes_of 2 rate ++ flat_map volume_bytes volumes ++ flat_map entry_bytes entries) out.old result out.new }
{
    let a = put_clock_and_rate(out, at, clock, rate);
    let b = put_volumes(out, a, volumes);
    put_entries(out, b, entries)
}

// The last numbers, and the deposits.
fn put_last(out: &mut [u8], at: usize, volume: u32, token: u32, relay: u32, deposits: u64) -> usize
    requires { at + (4 + 4 + 4 + 8) ≤ length out.old }
    ensures { (result ≡ at + (4 + 4 + 4 + 8)) × Wrote at (bytes_of 4 volume ++ bytes_of 4 token ++ bytes_of 4 relay ++ bytes_of 8 deposits) out.old result out.new }
{
    let a = put_three(out, at, volume, token, relay);
    put_u64(out, a, deposits)
}

// Tokens and relays.
fn put_tokens_and_relays(
    out: &mut [u8],
    at: usize,
    tokens: [Token; 32],
    relays: [Relay; 32],
) -> usize
    requires { at + (token_rows * token_length + relay_rows * relay_length) ≤ length out.old }
    ensures { (result ≡ at + (token_rows * token_length + relay_rows * relay_length)) × Wrote at (flat_map token_bytes tokens ++ flat_map relay_bytes relays) out.old result out.new }
{
    let a = put_tokens(out, at, tokens);
    put_relays(out, a, relays)
}

// The tokens and all after them.
fn put_from_tokens(
    out: &mut [u8],
    at: usize,
    tokens: [Token; 32],
    relays: [Relay; 32],
    volume: u32,
    token: u32,
    relay: u32,
    deposits: u64,
) -> usize
    requires { at + (token_rows * token_length + relay_rows * relay_length + (4 + 4 + 4 + 8)) ≤ length out.old }
    ensures { (result ≡ at + (token_rows * token_length + relay_rows * relay_length + (4 + 4 + 4 + 8))) × Wrote at (flat_map token_bytes tokens ++ flat_map relay_bytes relays ++ (bytes_of 4 volume ++ bytes_of 4 token ++ bytes_of 4 relay ++ bytes_of 8 deposits)) out.old result out.new }
{
    let a = put_tokens_and_relays(out, at, tokens, relays);
    put_last(out, a, volume, token, relay, deposits)
}

fn put_tables(out: &mut [u8], at: usize, t: Tables) -> usize
    requires { at + tables_length ≤ length out.old }
    ensures { (result ≡ at + tables_length) × Wrote at (tables_bytes t) out.old result out.new }
{
    let volumes = t.volumes;
    let entries = t.entries;
    let tokens = t.tokens;
    let relays = t.relays;
    let a = put_before_tokens(out, at, t.clock, t.rate, volumes, entries);
    put_from_tokens(
        out,
        a,
        tokens,
        relays,
        t.last_volume,
        t.last_token,
        t.last_relay,
        t.deposits,
    )
}

pub(crate) fn put_desk(out: &mut [u8], at: usize, d: Desk) -> usize
    requires { at + desk_length ≤ length out.old }
    ensures { (result ≡ at + desk_length) × Wrote at (desk_bytes d) out.old result out.new }
{
    let tables = d.tables;
    let sessions = d.sessions;
    let a = put_tables(out, at, tables);
    put_sessions(out, a, sessions)
}
