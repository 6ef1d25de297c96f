// The rows of the tables, each written from a place on. Each function gives the place after what it wrote. A row of many fields is
// written by several functions, a few fields each, so that each proof stays small.
ghost use Rattle.std.specs.Prelude.{◌≡◌, ◌++◌, ◌+◌, ◌≤◌, length};
ghost use Rattle.rules.specs.Scope.{mode_number};
ghost use Rattle.journal.specs.Numbers.{bytes_of};
ghost use Rattle.desk_bytes.specs.Layout.{hash_length, text_length, name_length, cap_length, text_bytes_all, name_bytes_all, cap_bytes, status_number, scope_bytes, scope_length, volume_bytes, volume_length, entry_bytes, entry_length, token_bytes, token_length, relay_bytes, relay_length, put_bytes, put_length, session_bytes, session_length};
ghost use Rattle.desk_bytes.specs.Written.{Wrote};

use super::parts::{
    put_account, put_cap, put_hash, put_mode, put_name, put_placement, put_status, put_text,
    put_three, put_u8, put_u32, put_u64, put_usize,
};
use super::tables::put_puts;
use amount::Cap;
use rules::{Account, Entry, Hash, Mode, Put, Relay, Scope, Session, Status, Token, Volume};
use text::Text;
use text::name::Name;

// A volume: its number, owner and name.
fn put_before_k(out: &mut [u8], at: usize, no: u32, owner: Account, name: Name) -> usize
    requires { at + (4 + hash_length + name_length) ≤ length out.old }
    ensures { (result ≡ at + (4 + hash_length + name_length)) × Wrote at (bytes_of 4 no ++ owner.0 ++ name_bytes_all name) out.old result out.new }
{
    let a = put_u32(out, at, no);
    let b = put_account(out, a, owner);
    put_name(out, b, name)
}

// K and M.
fn put_k_and_m(out: &mut [u8], at: usize, k: u8, m: u8) -> usize
    requires { at + (1 + 1) ≤ length out.old }
    ensures { (result ≡ at + (1 + 1)) × Wrote at (bytes_of 1 k ++ bytes_of 1 m) out.old result out.new }
{
    let a = put_u8(out, at, k);
    put_u8(out, a, m)
}

// A volume: K, M, the cap and the status.
fn put_from_k(out: &mut [u8], at: usize, k: u8, m: u8, cap: Cap, status: Status) -> usize
    requires { at + (1 + 1 + cap_length + 1) ≤ length out.old }
    ensures { (result ≡ at + (1 + 1 + cap_length + 1)) × Wrote at (bytes_of 1 k ++ bytes_of 1 m ++ cap_bytes cap ++ bytes_of 1 (status_number status)) out.old result out.new }
{
    let a = put_k_and_m(out, at, k, m);
    let b = put_cap(out, a, cap);
    put_status(out, b, status)
}

// Balance and version.
fn put_balance(out: &mut [u8], at: usize, balance: u64, version: u32) -> usize
    requires { at + (8 + 4) ≤ length out.old }
    ensures { (result ≡ at + (8 + 4)) × Wrote at (bytes_of 8 balance ++ bytes_of 4 version) out.old result out.new }
{
    let a = put_u64(out, at, balance);
    put_u32(out, a, version)
}

// A volume: the balance and all after it.
fn put_from_balance(
    out: &mut [u8],
    at: usize,
    balance: u64,
    version: u32,
    grace: u8,
    deleted: u64,
) -> usize
    requires { at + (8 + 4 + 1 + 8) ≤ length out.old }
    ensures { (result ≡ at + (8 + 4 + 1 + 8)) × Wrote at (bytes_of 8 balance ++ bytes_of 4 version ++ bytes_of 1 grace ++ bytes_of 8 deleted) out.old result out.new }
{
    let a = put_balance(out, at, balance, version);
    let b = put_u8(out, a, grace);
    put_u64(out, b, deleted)
}

// A volume: all before the balance.
fn put_before_balance(
    out: &mut [u8],
    at: usize,
    no: u32,
    owner: Account,
    name: Name,
    k: u8,
    m: u8,
    cap: Cap,
    status: Status,
) -> usize
    requires { at + (4 + hash_length + name_length + (1 + 1 + cap_length + 1)) ≤ length out.old }
    ensures { (result ≡ at + (4 + hash_length + name_length + (1 + 1 + cap_length + 1))) × Wrote at ((bytes_of 4 no ++ owner.0 ++ name_bytes_all name) ++ (bytes_of 1 k ++ bytes_of 1 m ++ cap_bytes cap ++ bytes_of 1 (status_number status))) out.old result out.new }
{
    let a = put_before_k(out, at, no, owner, name);
    put_from_k(out, a, k, m, cap, status)
}

pub(crate) fn put_volume(out: &mut [u8], at: usize, v: Volume) -> usize
    requires { at + volume_length ≤ length out.old }
    ensures { (result ≡ at + volume_length) × Wrote at (volume_bytes v) out.old result out.new }
{
    let owner = v.owner;
    let name = v.name;
    let cap = v.cap;
    let status = v.status;
    let a = put_before_balance(out, at, v.no.0, owner, name, v.k, v.m, cap, status);
    put_from_balance(out, a, v.balance, v.version, v.grace, v.deleted)
}

// Volume and path.
fn put_volume_and_path(out: &mut [u8], at: usize, volume: u32, path: Text) -> usize
    requires { at + (4 + text_length) ≤ length out.old }
    ensures { (result ≡ at + (4 + text_length)) × Wrote at (bytes_of 4 volume ++ text_bytes_all path) out.old result out.new }
{
    let a = put_u32(out, at, volume);
    put_text(out, a, path)
}

// An entry: all before the placement.
fn put_before_placement(
    out: &mut [u8],
    at: usize,
    volume: u32,
    path: Text,
    size: u64,
    hash: Hash,
) -> usize
    requires { at + (4 + text_length + 8 + hash_length) ≤ length out.old }
    ensures { (result ≡ at + (4 + text_length + 8 + hash_length)) × Wrote at (bytes_of 4 volume ++ text_bytes_all path ++ bytes_of 8 size ++ hash.0) out.old result out.new }
{
    let a = put_volume_and_path(out, at, volume, path);
    let b = put_u64(out, a, size);
    put_hash(out, b, hash)
}

pub(crate) fn put_entry(out: &mut [u8], at: usize, e: Entry) -> usize
    requires { at + entry_length ≤ length out.old }
    ensures { (result ≡ at + entry_length) × Wrote at (entry_bytes e) out.old result out.new }
{
    let path = e.path;
    let hash = e.hash;
    let placement = e.placement;
    let a = put_before_placement(out, at, e.volume.0, path, e.size, hash);
    put_placement(out, a, placement)
}

// A scope: all before the window.
fn put_before_window(out: &mut [u8], at: usize, prefix: Text, mode: Mode, cap: Cap) -> usize
    requires { at + (text_length + 1 + cap_length) ≤ length out.old }
    ensures { (result ≡ at + (text_length + 1 + cap_length)) × Wrote at (text_bytes_all prefix ++ bytes_of 1 (mode_number mode) ++ cap_bytes cap) out.old result out.new }
{
    let a = put_text(out, at, prefix);
    let b = put_mode(out, a, mode);
    put_cap(out, b, cap)
}

fn put_scope(out: &mut [u8], at: usize, s: Scope) -> usize
    requires { at + scope_length ≤ length out.old }
    ensures { (result ≡ at + scope_length) × Wrote at (scope_bytes s) out.old result out.new }
{
    let prefix = s.prefix;
    let mode = s.mode;
    let cap = s.cap;
    let a = put_before_window(out, at, prefix, mode, cap);
    let b = put_u64(out, a, s.from);
    put_u64(out, b, s.until)
}

pub(crate) fn put_token(out: &mut [u8], at: usize, t: Token) -> usize
    requires { at + token_length ≤ length out.old }
    ensures { (result ≡ at + token_length) × Wrote at (token_bytes t) out.old result out.new }
{
    let scope = t.scope;
    let a = put_three(out, at, t.no.0, t.volume.0, t.parent.0);
    let b = put_scope(out, a, scope);
    put_u64(out, b, t.used)
}

// A relay: all before the shards held.
fn put_before_held(out: &mut [u8], at: usize, no: u32, capacity: u64, used: u64) -> usize
    requires { at + (4 + 8 + 8) ≤ length out.old }
    ensures { (result ≡ at + (4 + 8 + 8)) × Wrote at (bytes_of 4 no ++ bytes_of 8 capacity ++ bytes_of 8 used) out.old result out.new }
{
    let a = put_u32(out, at, no);
    let b = put_u64(out, a, capacity);
    put_u64(out, b, used)
}

pub(crate) fn put_relay(out: &mut [u8], at: usize, r: Relay) -> usize
    requires { at + relay_length ≤ length out.old }
    ensures { (result ≡ at + relay_length) × Wrote at (relay_bytes r) out.old result out.new }
{
    let a = put_before_held(out, at, r.no.0, r.capacity, r.used);
    let b = put_u32(out, a, r.held);
    put_u64(out, b, r.beat)
}

pub(crate) fn put_put(out: &mut [u8], at: usize, p: Put) -> usize
    requires { at + put_length ≤ length out.old }
    ensures { (result ≡ at + put_length) × Wrote at (put_bytes p) out.old result out.new }
{
    let path = p.path;
    let hash = p.hash;
    let a = put_text(out, at, path);
    let b = put_u64(out, a, p.size);
    put_hash(out, b, hash)
}

pub(crate) fn put_session(out: &mut [u8], at: usize, s: Session) -> usize
    requires { at + session_length ≤ length out.old }
    ensures { (result ≡ at + session_length) × Wrote at (session_bytes s) out.old result out.new }
{
    let puts = s.puts;
    let a = put_three(out, at, s.token.0, s.volume.0, s.version);
    let b = put_usize(out, a, s.count);
    put_puts(out, b, puts)
}
