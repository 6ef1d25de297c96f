// The rows of each table, one after another from a place on. Each function gives the place after the last.
ghost use Rattle.std.specs.Prelude.{◌≡◌, ◌+◌, ◌*◌, ◌≤◌, length};
ghost use mathlib.Core.List.{flat_map};
ghost use Rattle.rules.specs.Limits.{volume_rows, entry_rows, token_rows, relay_rows, slot_rows, put_rows, shard_places};
ghost use Rattle.desk_bytes.specs.Layout.{volume_bytes, volume_length, entry_bytes, entry_length, token_bytes, token_length, relay_bytes, relay_length, put_bytes, put_length, session_bytes, session_length, relay_no_bytes};
ghost use Rattle.desk_bytes.specs.Written.{Wrote};

use super::parts::put_u32;
use super::rows::{put_entry, put_put, put_relay, put_session, put_token, put_volume};
use rules::{Entry, Put, Relay, RelayNo, Session, Token, Volume};

pub(crate) fn put_volumes(out: &mut [u8], start: usize, rows: [Volume; 8]) -> usize
    requires { start + volume_rows * volume_length ≤ length out.old }
    ensures { (result ≡ start + volume_rows * volume_length) × Wrote start (flat_map volume_bytes rows) out.old result out.new }
{
    let mut at = start;
    for i in 0..8 {
        let row = rows[i];
        at = put_volume(out, at, row);
    }
    at
}

pub(crate) fn put_entries(out: &mut [u8], start: usize, rows: [Entry; 64]) -> usize
    requires { start + entry_rows * entry_length ≤ length out.old }
    ensures { (result ≡ start + entry_rows * entry_length) × Wrote start (flat_map entry_bytes rows) out.old result out.new }
{
    let mut at = start;
    for i in 0..64 {
        let row = rows[i];
        at = put_entry(out, at, row);
    }
    at
}

pub(crate) fn put_tokens(out: &mut [u8], start: usize, rows: [Token; 32]) -> usize
    requires { start + token_rows * token_length ≤ length out.old }
    ensures { (result ≡ start + token_rows * token_length) × Wrote start (flat_map token_bytes rows) out.old result out.new }
{
    let mut at = start;
    for i in 0..32 {
        let row = rows[i];
        at = put_token(out, at, row);
    }
    at
}

pub(crate) fn put_relays(out: &mut [u8], start: usize, rows: [Relay; 32]) -> usize
    requires { start + relay_rows * relay_length ≤ length out.old }
    ensures { (result ≡ start + relay_rows * relay_length) × Wrote start (flat_map relay_bytes rows) out.old result out.new }
{
    let mut at = start;
    for i in 0..32 {
        let row = rows[i];
        at = put_relay(out, at, row);
    }
    at
}

pub(crate) fn put_puts(out: &mut [u8], start: usize, rows: [Put; 8]) -> usize
    requires { start + put_rows * put_length ≤ length out.old }
    ensures { (result ≡ start + put_rows * put_length) × Wrote start (flat_map put_bytes rows) out.old result out.new }
{
    let mut at = start;
    for i in 0..8 {
        let row = rows[i];
        at = put_put(out, at, row);
    }
    at
}

pub(crate) fn put_sessions(out: &mut [u8], start: usize, rows: [Session; 4]) -> usize
    requires { start + slot_rows * session_length ≤ length out.old }
    ensures { (result ≡ start + slot_rows * session_length) × Wrote start (flat_map session_bytes rows) out.old result out.new }
{
    let mut at = start;
    for i in 0..4 {
        let row = rows[i];
        at = put_session(out, at, row);
    }
    at
}

pub(crate) fn put_relay_numbers(out: &mut [u8], start: usize, rows: [RelayNo; 24]) -> usize
    requires { start + shard_places * 4 ≤ length out.old }
    ensures { (result ≡ start + shard_places * 4) × Wrote start (flat_map relay_no_bytes rows) out.old result out.new }
{
    let mut at = start;
    for i in 0..24 {
        let row = rows[i];
        at = put_u32(out, at, row.0);
    }
    at
}
